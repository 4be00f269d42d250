//! The names of a stanza's fields, noted one by one.
//!
//! The first 64 are compared one by one. A number of each name and a mark of the numbers seen (a
//! Bloom filter of 64 bits) make most comparisons needless. Further names go into an ordered set,
//! so a stanza takes time nearly linear in its length, whatever its names are.

ghost use Rattle.std.specs.Prelude.{◌≡◌, ◌<◌, ◌≤◌, [], ◌∷◌, None, true, not, length, OnOk, IfOk};
ghost use Rattle.std.specs.Prelude.{All, List, ℕ};
ghost use Rattle.stanza_reader.specs.Fields.{is_same_name, lowered};
ghost use Rattle.stanza_reader.specs.Note.{Holds, IsKeyed, IsMarked, IsNoted, key_of, long_key};
ghost use Rattle.stanza_reader.specs.{Note.{mark_of, names_in, short_key}, Stanzas.{has_name}};

use crate::fault::StanzaFault;
use std::alloc::{AllocError, Global};
use std::collections::BTreeSet;

/// The first names are compared one by one, and further ones stand in an ordered set.
const FEW: usize = 64;

/// The number of a longer name is made of all its bytes. To compare two of them takes long, so few
/// should share one.
const SHORT: usize = 16;

/// A name with its number. Names that differ only in the case of letters have one number.
#[derive(Clone, Copy)]
pub(crate) struct KeyedName<'a> {
    pub(crate) key: u32,
    pub(crate) name: &'a [u8],
}

/// The names of a stanza's field lines, up to the first that an earlier line has; and the fault of
/// that one.
#[derive(Drop)]
pub(crate) struct Names<'a> {
    pub(crate) few: Vec<KeyedName<'a>>,
    pub(crate) others: BTreeSet<Vec<u8>>,
    pub(crate) repeat: Option<StanzaFault>,
    /// The marks of the numbers of the names that are compared one by one.
    pub(crate) marks: u64,
}

impl<'a> Names<'a> {
    /// No names, and room for those of a common stanza.
    pub(crate) fn new(alloc: Global) -> Result<Self, AllocError>
        ensures keys { IfOk result (λ names. All IsKeyed names.few.items) }
        ensures marks { IfOk result (λ names. All (IsMarked names.marks) names.few.items) }
        ensures holds { IfOk result (λ names. Holds names []) }
        ensures repeat { IfOk result (λ names. names.repeat ≡ None) }
    {
        Ok(Names {
            few: Vec::with_capacity(alloc, 32)?,
            others: BTreeSet::new(alloc),
            repeat: None,
            marks: 0,
        })
    }

    /// Notes the name of the next field line, which has this number.
    pub(crate) fn note(
        &mut self,
        alloc: Global,
        name: &'a [u8],
        line: u64,
    ) -> Result<(), AllocError>
        requires keys { All IsKeyed self.old.few.items }
        requires marks { All (IsMarked self.old.marks) self.old.few.items }
        ensures keys { OnOk result (All IsKeyed self.new.few.items) }
        ensures marks { OnOk result (All (IsMarked self.new.marks) self.new.few.items) }
        ensures noted { OnOk result (IsNoted self.old self.new name.now line) }
        ensures first { OnOk result (self.new.repeat ≡ None → self.old.repeat ≡ None) }
    {
        if self.repeat.is_none() && !self.add(alloc, name)? {
            self.repeat = Some(StanzaFault::Repeated { line });
        }
        Ok(())
    }

    /// Adds a name if it is new, and returns whether it was.
    fn add(&mut self, alloc: Global, name: &'a [u8]) -> Result<bool, AllocError>
        requires keys { All IsKeyed self.old.few.items }
        requires marks { All (IsMarked self.old.marks) self.old.few.items }
        ensures keys { OnOk result (All IsKeyed self.new.few.items) }
        ensures marks { OnOk result (All (IsMarked self.new.marks) self.new.few.items) }
        ensures answer { IfOk result (λ is_new. (before : List (List ℕ)) → Holds self.old before →
            is_new ≡ not (has_name before name.now)) }
        ensures added { IfOk result (λ is_new. (before : List (List ℕ)) → Holds self.old before →
            is_new ≡ true → Holds self.new (name.now ∷ before)) }
        ensures repeat { self.new.repeat ≡ self.old.repeat }
    {
        let key = key_of(name);
        if is_among(self.few.as_slice(), self.marks, key, name) {
            return Ok(false);
        }
        if self.few.len() < FEW {
            self.few.push(KeyedName { key, name })?;
            self.marks |= mark_of(key);
            return Ok(true);
        }
        let name = lowered(alloc, name)?;
        Ok(self.others.insert(name)?)
    }
}

// The number of a name.
fn key_of(name: &[u8]) -> u32
    ensures { result ≡ key_of name.now }
{
    if name.is_empty() || name.len() > SHORT {
        long_key(name)
    } else {
        short_key(name)
    }
}

// The number of a short name: its first byte, one in the middle, the last one and its length. With
// the bit 32 set a letter is the same in both cases.
fn short_key(name: &[u8]) -> u32
    requires some { 0 < length name.now }
    requires short { length name.now ≤ 16 }
    ensures { result ≡ short_key (lowered name.now) }
{
    let len = name.len();
    u32::from_be_bytes([
        name[0] | 32,
        name[len / 2] | 32,
        name[len - 1] | 32,
        len as u8,
    ])
}

// The number of a long name, made of all its bytes.
fn long_key(name: &[u8]) -> u32
    ensures { result ≡ long_key (lowered name.now) }
{
    let mut key: u32 = 0;
    for byte in name {
        key = key
            .wrapping_mul(31)
            .wrapping_add(byte.to_ascii_lowercase() as u32);
    }
    key
}

// The mark of a number: one of 64 bits.
fn mark_of(key: u32) -> u64
    ensures { result ≡ mark_of key }
{
    1u64 << (key.wrapping_mul(2_654_435_769) >> 26)
}

// Whether one of the names is this one, without regard to the case of letters. If the mark of its
// number is down, as it mostly is, none is.
fn is_among(few: &[KeyedName<'_>], marks: u64, key: u32, name: &[u8]) -> bool
    requires keys { All IsKeyed few.now }
    requires marks { All (IsMarked marks) few.now }
    requires key { key ≡ key_of name.now }
    ensures { result ≡ has_name (names_in few.now) name.now }
{
    marks & mark_of(key) != 0 && has_name(few, key, name)
}

// Whether one of the names is this one, by a comparison with each.
fn has_name(few: &[KeyedName<'_>], key: u32, name: &[u8]) -> bool
    requires keys { All IsKeyed few.now }
    requires key { key ≡ key_of name.now }
    ensures { result ≡ has_name (names_in few.now) name.now }
{
    for one in few {
        if is_name(one.key, one.name, key, name) {
            return true;
        }
    }
    false
}

// Whether two names are the same; most that are not differ in their numbers.
fn is_name(other_key: u32, other: &[u8], key: u32, name: &[u8]) -> bool
    requires other { other_key ≡ key_of other.now }
    requires key { key ≡ key_of name.now }
    ensures { result ≡ is_same_name other.now name.now }
{
    if other_key != key {
        return false;
    }
    is_same(other, name)
}

fn is_same(a: &[u8], b: &[u8]) -> bool
    ensures { result ≡ is_same_name a.now b.now }
{
    a.eq_ignore_ascii_case(b)
}

fn lowered(alloc: Global, name: &[u8]) -> Result<Vec<u8>, AllocError>
    ensures { IfOk result (λ text. text.items ≡ lowered name.now) }
{
    name.iter()
        .map(|byte| byte.to_ascii_lowercase())
        .collect(alloc)
}
