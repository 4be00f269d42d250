//! Reading a line of a kernel text.
ghost use Rattle.std.specs.Prelude.{◌≡◌, ◌↔◌, true, false, List, ℕ, Some, None, codes, IfOk};
ghost use Rattle.std.specs.{Prelude.{IsTrue, MatchOption}, Option.{option_copied}};
ghost use Rattle.deb_version.specs.Grammar.{is_version};
ghost use Rattle.kernel_text.specs.Reading.{IsFormat};
ghost use Rattle.kernel_text.specs.Words.{IsCut, LineIsRead, NumbersRead, WordsAreRead};

use crate::content::LineContent;
use crate::read_number::read_number;
use clause_pool::NumList;
use deb_version::{Bytes, Version, VersionError, is_package_name};
use memchr::memchr;
use std::alloc::{AllocError, Global};

/// What a line says, if it is one of a kernel text.
pub(crate) fn read_line(alloc: Global, line: &[u8]) -> Result<Option<LineContent>, AllocError>
    ensures { IfOk result (LineIsRead line.now) }
{
    let Some(body) = line.strip_suffix(b"\n") else {
        return Ok(None);
    };
    let (word, rest) = cut_line(body);
    read_words(alloc, word, rest)
}

// The first word of a line, and what follows it. Most lines are of members, and there no space has
// to be looked for.
fn cut_line(body: &[u8]) -> (&[u8], Option<&[u8]>)
    ensures { IsCut body.now result.0.now (option_copied result.1) }
{
    if body.starts_with(b"member ") {
        (&body[..6], Some(&body[7..]))
    } else {
        cut_at_space(body)
    }
}

// The first word of a text, and what follows the space after it.
fn cut_at_space(text: &[u8]) -> (&[u8], Option<&[u8]>)
    ensures { IsCut text.now result.0.now (option_copied result.1) }
{
    match memchr(b' ', text) {
        Some(place) => (&text[..place], Some(&text[place + 1..])),
        None => (text, None),
    }
}

// What the words of a line say.
fn read_words(
    alloc: Global,
    word: &[u8],
    rest: Option<&[u8]>,
) -> Result<Option<LineContent>, AllocError>
    ensures { IfOk result (WordsAreRead word.now (option_copied rest.entry)) }
{
    if word == b"needs".as_slice() {
        return read_clause(alloc, rest);
    }
    let Some(rest) = rest else {
        return Ok(read_lone(word));
    };
    if word == b"member".as_slice() {
        return read_member(alloc, rest);
    }
    Ok(read_numbered(word, rest))
}

// A line of one word that is no clause.
fn read_lone(word: &[u8]) -> Option<LineContent>
    requires { word.now ≡ codes "needs" → ⊥ }
    ensures { WordsAreRead word.now None result }
{
    if word == b"held".as_slice() {
        Some(LineContent::Held)
    } else {
        None
    }
}

// A clause from the numbers after its first word.
fn read_clause(alloc: Global, rest: Option<&[u8]>) -> Result<Option<LineContent>, AllocError>
    ensures { (word : List ℕ) → word ≡ codes "needs" →
        IfOk result (WordsAreRead word (option_copied rest.entry)) }
{
    match read_numbers(alloc, rest)? {
        Some(clause) => Ok(Some(LineContent::Needs { clause })),
        None => Ok(None),
    }
}

// The numbers that the words write, each by itself.
fn read_numbers(alloc: Global, words: Option<&[u8]>) -> Result<Option<NumList>, AllocError>
    ensures { IfOk result (NumbersRead (option_copied words.entry)) }
{
    let mut numbers = NumList::new(alloc);
    let mut left = words;
    while let Some(text) = left {
        let (word, rest) = cut_at_space(text);
        let Some(number) = read_number(word) else {
            return Ok(None);
        };
        numbers.push(number)?;
        left = rest;
    }
    Ok(Some(numbers))
}

// A member from its name and its version.
fn read_member(alloc: Global, rest: &[u8]) -> Result<Option<LineContent>, AllocError>
    ensures { (word : List ℕ) → word ≡ codes "member" →
        IfOk result (WordsAreRead word (Some rest.now)) }
{
    let (name, behind) = cut_at_space(rest);
    let Some(version) = behind else {
        return Ok(None);
    };
    if !is_package_name(name) {
        return Ok(None);
    }
    let Some(version) = read_version(alloc, version)? else {
        return Ok(None);
    };
    let name = Bytes::copy(alloc, name)?;
    Ok(Some(LineContent::Member { name, version }))
}

// The version, if the text is one.
fn read_version(alloc: Global, text: &[u8]) -> Result<Option<Version>, AllocError>
    ensures { IfOk result (λ version. MatchOption version (is_version text.now ≡ false)
        (λ v. (v ≡ text.now) × (is_version text.now ≡ true))) }
{
    match Version::parse(alloc, text) {
        Ok(version) => Ok(Some(version)),
        Err(VersionError::Shape) => Ok(None),
        Err(VersionError::Memory) => Err(AllocError),
    }
}

// The first line, a class, a conflict or the end line.
fn read_numbered(word: &[u8], rest: &[u8]) -> Option<LineContent>
    requires needs { word.now ≡ codes "needs" → ⊥ }
    requires member { word.now ≡ codes "member" → ⊥ }
    ensures { WordsAreRead word.now (Some rest.now) result }
{
    if word == b"coinst-kernel".as_slice() {
        return read_head(rest);
    }
    if word == b"class".as_slice() {
        let number = read_number(rest)?;
        return Some(LineContent::Class { number });
    }
    if word == b"against".as_slice() {
        let class = read_number(rest)?;
        return Some(LineContent::Against { class });
    }
    if word == b"end".as_slice() {
        return read_end(rest);
    }
    None
}

// The first line by its version of the format.
fn read_head(rest: &[u8]) -> Option<LineContent>
    ensures { (word : List ℕ) → word ≡ codes "coinst-kernel" →
        WordsAreRead word (Some rest.now) result }
{
    let Some(format) = read_number(rest) else {
        return None;
    };
    if is_format(format) {
        Some(LineContent::Head { format })
    } else {
        None
    }
}

// Whether there is a format with the number.
fn is_format(number: u32) -> bool
    ensures { IsTrue result ↔ IsFormat number }
{
    number == 1 || number == 2
}

// The end line from its two numbers.
fn read_end(rest: &[u8]) -> Option<LineContent>
    ensures { (word : List ℕ) → word ≡ codes "end" → WordsAreRead word (Some rest.now) result }
{
    let (first, behind) = cut_at_space(rest);
    let Some(second) = behind else {
        return None;
    };
    let Some(classes) = read_number(first) else {
        return None;
    };
    let Some(members) = read_number(second) else {
        return None;
    };
    Some(LineContent::End { classes, members })
}
