//! The lines of a text.
ghost use Rattle.std.specs.Prelude.{◌≡◌, ◌-◌, ◌≤◌, ◌<◌, ◌∷◌, drop, length, take};
ghost use Rattle.kernel_text.specs.KernelLines.{lines_of};
ghost use Rattle.repo_model.specs.Limits.{most_bytes};

use memchr::memchr;

/// The end of the line that begins at `from`: the place after its line feed, or the end of the
/// text.
pub(crate) fn line_end(bytes: &[u8], from: usize) -> usize
    requires inside { from < length bytes.now }
    requires few { length bytes.now ≤ most_bytes }
    ensures cut { lines_of (drop from bytes.now)
        ≡ take (result - from) (drop from bytes.now) ∷ lines_of (drop result bytes.now) }
    ensures further { from < result }
    ensures within { result ≤ length bytes.now }
{
    match memchr(b'\n', &bytes[from..]) {
        Some(length) => from + length + 1,
        None => bytes.len(),
    }
}
