//! Runs of digits as whole numbers of any size.
ghost use Rattle.std.specs.{Prelude.{◌≡◌, true}, Char.{is_ascii_digit}, List.{list_all}};
ghost use Rattle.std.specs.Ordering.{nat_cmp};
ghost use Rattle.deb_version.specs.{Keys.{without_zeros}, Order.{number}};

use std::cmp::Ordering;

/// Compares the numbers that two runs of digits write.
///
/// Without its leading zeros the longer run is the greater number, and of two runs of one length
/// the first digit that differs decides.
pub(crate) fn order_numbers(left: &[u8], right: &[u8]) -> Ordering
    requires left { list_all is_ascii_digit left.now ≡ true }
    requires right { list_all is_ascii_digit right.now ≡ true }
    ensures { result ≡ nat_cmp (number left.now) (number right.now) }
{
    let left = without_zeros(left);
    let right = without_zeros(right);
    left.len().cmp(&right.len()).then(left.cmp(right))
}

/// The digits after the leading zeros.
pub(crate) fn without_zeros(digits: &[u8]) -> &[u8]
    ensures { result.now ≡ without_zeros digits.now }
{
    let mut rest = digits;
    while let [b'0', behind @ ..] = rest {
        rest = behind;
    }
    rest
}
