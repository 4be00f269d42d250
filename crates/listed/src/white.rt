//! White space at the ends of texts: spaces, tabs and line feeds.
ghost use Rattle.std.specs.Prelude.{◌≡◌};
ghost use Rattle.listed.specs.Texts.{is_white_byte, trim_both, trim_end, trim_start};

/// Whether the byte is a space, a tab or a line feed.
pub fn is_white_byte(byte: u8) -> bool
    ensures { result ≡ is_white_byte byte }
{
    matches!(byte, b' ' | b'\t' | b'\n')
}

/// The text without the white space at both ends.
#[tactic(auto, unfolding(crate::specs::Texts::trim_both))]
pub fn trim(text: &[u8]) -> &[u8]
    ensures { result.now ≡ trim_both text.now }
{
    trim_back(trim_front(text))
}

/// The text without the white space at its front.
#[tactic(auto, unfolding(crate::specs::Texts::trim_start))]
pub fn trim_front(text: &[u8]) -> &[u8]
    ensures { result.now ≡ trim_start text.now }
{
    for (start, byte) in text.iter().enumerate() {
        if !is_white_byte(*byte) {
            return &text[start..];
        }
    }
    &[]
}

/// The text without the white space at its end.
#[tactic(auto, unfolding(crate::specs::Texts::trim_end))]
pub fn trim_back(text: &[u8]) -> &[u8]
    ensures { result.now ≡ trim_end text.now }
{
    let mut end = text.len();
    while end > 0 && is_white_byte(text[end - 1]) {
        end -= 1;
    }
    &text[..end]
}
