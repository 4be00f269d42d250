//! The groups of packages of a mask that are alike. In a pool equal rows have one number, so
//! packages have the same clauses exactly if they have the same row: a key of numbers is compared,
//! and no clause.
ghost use Rattle.std.specs.Prelude.{◌≡◌, ◌<◌, ◌∷◌, ◌++◌, [], ℕ, List, IfOk, OnOk, cond, filter};
ghost use Rattle.std.specs.{Prelude.{length, map, nat_eq, position}, Cmp.Lexicographic.{pointwise}};
ghost use Rattle.listed.specs.Lists.{In};
ghost use Rattle.row_book.specs.Flags.{flag};
ghost use Rattle.class_merge.specs.Grouping.{key_of, AreClasses, IsPlaceAmong};
ghost use Rattle.class_merge.specs.Masks.{IsMaskOfRows};

use crate::key_table::KeyTable;
use crate::masked::MaskedRows;
use std::alloc::{AllocError, Global};

/// The least package of each class, ascending, and for each package of a mask its class, in the
/// numbers of all packages. The class of any other package is 0.
#[derive(Drop)]
pub(crate) struct Classes {
    pub(crate) firsts: Vec<u32>,
    pub(crate) class_of: Vec<u32>,
}

/// Fills the key anew: with the row of a package and its conflicts with packages of the mask.
fn put_key(key: &mut Vec<u64>, masked: &MaskedRows, number: usize) -> Result<(), AllocError>
    requires mask { IsMaskOfRows masked.now }
    requires number { number < length masked.now.rows.now }
    ensures { OnOk result (key.new.items ≡ key_of masked.now number) }
{
    key.clear();
    key.push(masked.rows[number].place() as u64)?;
    put_flagged(key, masked.conflicts[number].as_slice(), masked.flags)
}

/// Appends the numbers whose flags are up.
fn put_flagged(key: &mut Vec<u64>, numbers: &[u32], flags: &[bool]) -> Result<(), AllocError>
    requires { (n : ℕ) → In n numbers.now → n < length flags.now }
    ensures { OnOk result (key.new.items ≡ key.old.items ++ filter (flag flags.now) numbers.now) }
{
    for number in numbers {
        if flags[*number as usize] {
            key.push(u64::from(*number))?;
        }
    }
    Ok(())
}

/// The number of a key. A new key gets the next number, and its package begins a class.
fn place_among(
    seen: &mut KeyTable,
    firsts: &mut Vec<u32>,
    number: u32,
    key: &[u64],
) -> Result<usize, AllocError>
    ensures { IfOk result
        (IsPlaceAmong seen.old seen.new firsts.old.items firsts.new.items number key.now) }
{
    if let Some(place) = seen.find(key) {
        return Ok(place);
    }
    firsts.push(number)?;
    seen.push(key)
}

/// The classes of the packages of a mask.
pub(crate) fn classes_of(alloc: Global, masked: &MaskedRows) -> Result<Classes, AllocError>
    requires { IsMaskOfRows masked.now }
    ensures { IfOk result (AreClasses masked.now) }
{
    let mut seen = KeyTable::new(alloc);
    let mut firsts = Vec::new(alloc);
    let mut class_of = Vec::new(alloc);
    let mut key = Vec::new(alloc);
    for number in 0..masked.flags.len() {
        if !masked.flags[number] {
            class_of.push(0)?;
            continue;
        }
        put_key(&mut key, masked, number)?;
        let class = place_among(&mut seen, &mut firsts, number as u32, key.as_slice())?;
        class_of.push(class as u32)?;
    }
    Ok(Classes { firsts, class_of })
}
