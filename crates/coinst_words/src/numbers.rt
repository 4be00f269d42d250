//! Numbers among the words.
ghost use Rattle.std.specs.Prelude.{◌≡◌, ◌≤◌, ◌<◌, ◌^◌, None, Some, IfOk, IfErr, IfSome};
ghost use Rattle.std.specs.{Prelude.{option_map}, Char.{is_ascii_digit}, List.{list_all}};
ghost use Rattle.coinst_words.specs.Words.{budget_of, clause_limit_of, count_of, is_number};
ghost use Rattle.coinst_words.specs.Words.{number_in, number_or, seed_of, IsBetween};
ghost use Rattle.coinst_words.specs.Refusals.{OnNotACommand};
ghost use Rattle.repo_model.specs.Limits.{most_packages};

use crate::error::WordError;
use listed::has_digits_alone;

/// The clause limit of an option.
pub(crate) fn clause_limit_of(value: Option<&str>) -> Result<u32, WordError>
    ensures number { IfOk result (λ n.
        clause_limit_of (option_map (λ s. s.now) value.entry) ≡ Some n) }
    ensures refusal { IfErr result
        (OnNotACommand (clause_limit_of (option_map (λ s. s.now) value.entry) ≡ None)) }
    ensures range { IfOk result (IsBetween 1 1000000) }
{
    match number_or(value, 1, 1_000_000, 65_536) {
        Some(limit) => Ok(limit as u32),
        None => Err(WordError::NotACommand),
    }
}

/// The budget of an option, in failed leaves.
pub(crate) fn budget_of(value: Option<&str>) -> Result<u64, WordError>
    ensures number { IfOk result (λ n. budget_of (option_map (λ s. s.now) value.entry) ≡ Some n) }
    ensures refusal { IfErr result (OnNotACommand (budget_of (option_map (λ s. s.now) value.entry)
        ≡ None)) }
    ensures range { IfOk result (IsBetween 1 1000000) }
{
    number_or(value, 1, 1_000_000, 10_000).ok_or(WordError::NotACommand)
}

/// The number that a suite is made from.
pub(crate) fn seed_of(word: &str) -> Result<u64, WordError>
    ensures number { IfOk result (λ n. seed_of word.now ≡ Some n) }
    ensures refusal { IfErr result (OnNotACommand (seed_of word.now ≡ None)) }
{
    number_in(word, 0, 18_446_744_073_709_551_615).ok_or(WordError::NotACommand)
}

/// How many packages a suite is to have.
pub(crate) fn count_of(word: &str) -> Result<u32, WordError>
    ensures number { IfOk result (λ n. count_of word.now ≡ Some n) }
    ensures refusal { IfErr result (OnNotACommand (count_of word.now ≡ None)) }
    ensures range { IfOk result (IsBetween 1 most_packages) }
{
    match number_in(word, 1, 200_000) {
        Some(count) => Ok(count as u32),
        None => Err(WordError::NotACommand),
    }
}

// The number of an option, or the default if the option was not given.
fn number_or(value: Option<&str>, least: u64, most: u64, default: u64) -> Option<u64>
    requires { IsBetween least most default }
    ensures number { result ≡ number_or least most default (option_map (λ s. s.now) value.entry) }
    ensures range { IfSome result (IsBetween least most) }
{
    match value {
        Some(word) => number_in(word, least, most),
        None => Some(default),
    }
}

// The number that a word gives, if it lies in a range.
fn number_in(word: &str, least: u64, most: u64) -> Option<u64>
    ensures number { result ≡ number_in least most word.now }
    ensures range { IfSome result (IsBetween least most) }
{
    if !is_number(word.as_bytes()) {
        return None;
    }
    let Ok(number) = word.parse::<u64>() else {
        return None;
    };
    if least <= number && number <= most {
        Some(number)
    } else {
        None
    }
}

// Whether the word is one to twenty digits.
fn is_number(word: &[u8]) -> bool
    ensures { result ≡ is_number word.now }
{
    !word.is_empty() && word.len() <= 20 && has_digits_alone(word)
}
