//! Decimal digits.
ghost use Rattle.std.specs.{Prelude.{◌≡◌}, Char.{is_ascii_digit}, List.{list_all}};

/// Whether each byte of the text is a digit.
pub fn has_digits_alone(text: &[u8]) -> bool
    ensures { result ≡ list_all is_ascii_digit text.now }
{
    text.iter().all(|byte| byte.is_ascii_digit())
}
