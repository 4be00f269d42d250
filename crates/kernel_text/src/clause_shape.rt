//! The shape of clauses.
ghost use Rattle.std.specs.Prelude.{◌↔◌, IsTrue};
ghost use Rattle.listed.specs.Lists.{Ascending};

/// Whether the numbers are strictly ascending.
pub(crate) fn is_ascending(numbers: &[u32]) -> bool
    ensures { IsTrue result ↔ Ascending numbers.now }
{
    for i in 1..numbers.len() {
        if numbers[i] <= numbers[i - 1] {
            return false;
        }
    }
    true
}
