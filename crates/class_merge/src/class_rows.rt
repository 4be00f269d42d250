//! The rows of classes and their conflicts.
ghost use Rattle.std.specs.Prelude.{◌≡◌, ◌<◌, ◌∷◌, ◌++◌, [], ℕ, List, IfOk, OnOk, cond, filter};
ghost use Rattle.std.specs.Prelude.{length, map};
ghost use Rattle.clause_pool.specs.Interned.{clauses_at, row_at, IsPool, Kept, OfPool};
ghost use Rattle.clause_pool.specs.Clauses.{apart_from, in_row_order, minimal_of};
ghost use Rattle.row_book.specs.{Flags.{flag}, Numbers.{numbers}};
ghost use Rattle.listed.specs.Lists.{has, In};
ghost use Rattle.class_merge.specs.Classes.{image_in, HasClasses};
ghost use Rattle.class_merge.specs.Grouping.{group_family, AreClasses, AreFamilies};
ghost use Rattle.class_merge.specs.Masks.{group_conflicts, masked_repository, IsMaskOfRows};

use crate::grouping::Classes;
use crate::images::{image, image_list};
use crate::masked::MaskedRows;
use clause_families::{Clause, intern_minimal, put_in_order};
use clause_pool::{ClauseId, NumList, Pool, RowId};
use listed::Listed;
use row_book::holds;
use std::alloc::{AllocError, Global};

/// Appends the image, unless it holds the class.
fn push_apart(family: &mut Vec<Clause>, image: Clause, class: u32) -> Result<(), AllocError>
    ensures { OnOk result (family.new.items
        ≡ family.old.items ++ cond (has image class) [] (image ∷ [])) }
{
    if !holds(image.as_slice(), class) {
        family.push(image)?;
    }
    Ok(())
}

/// The images of a row's clauses that do not hold the class.
fn images_apart(
    alloc: Global,
    pool: &Pool,
    count: u32,
    class_of: &[u32],
    class: u32,
    row: &[ClauseId],
) -> Result<Vec<Clause>, AllocError>
    requires of_pool { OfPool pool.now row.now }
    requires has { (c : List ℕ) → In c (clauses_at pool.now row.now) →
        HasClasses count class_of.now c }
    ensures { IfOk result (λ family. family.items
        ≡ apart_from class (map (image_in count class_of.now) (clauses_at pool.now row.now))) }
{
    let mut family = Vec::new(alloc);
    for id in row {
        let mapped = image(alloc, count, class_of, pool.slice(*id))?;
        push_apart(&mut family, mapped, class)?;
    }
    Ok(family)
}

/// The images of the clauses of a class that do not hold it, in order.
fn class_family(
    alloc: Global,
    pool: &Pool,
    row: RowId,
    count: u32,
    class_of: &[u32],
    class: u32,
) -> Result<Listed<Clause>, AllocError>
    requires row { row < length pool.now.rows }
    requires has { (c : List ℕ) → In c (row_at pool.now row) → HasClasses count class_of.now c }
    ensures { IfOk result (λ family. family ≡ in_row_order
        (apart_from class (map (image_in count class_of.now) (row_at pool.now row)))) }
{
    let mut family = images_apart(alloc, pool, count, class_of, class, pool.row(row))?;
    put_in_order(&mut family);
    Ok(Listed::of(family))
}

/// The images of the clauses of each class that do not hold it, in order.
pub(crate) fn class_families(
    alloc: Global,
    masked: &MaskedRows,
    classes: &Classes,
) -> Result<Vec<Listed<Clause>>, AllocError>
    requires mask { IsMaskOfRows masked.now }
    requires classes { AreClasses masked.now classes.now }
    ensures { let firsts = classes.now.firsts.items in IfOk result (λ made. made.items
        ≡ map (group_family (masked_repository masked.now) firsts classes.now.class_of.items)
        (numbers (length firsts) 0)) }
{
    let count = classes.firsts.len() as u32;
    let class_of = classes.class_of.as_slice();
    let mut made = Vec::new(alloc);
    for (class, first) in classes.firsts.iter().enumerate() {
        let row = masked.rows[*first as usize];
        let family = class_family(alloc, masked.pool, row, count, class_of, class as u32)?;
        made.push(family)?;
    }
    Ok(made)
}

/// The rows of the minimal clauses of each family, in the pool.
pub(crate) fn family_rows(
    alloc: Global,
    pool: &mut Pool,
    families: &[Listed<Clause>],
) -> Result<Vec<RowId>, AllocError>
    requires pool { IsPool pool.old }
    requires families { AreFamilies families.now }
    ensures rows { IfOk result (λ rows. map (row_at pool.new) rows.items
        ≡ map minimal_of families.now) }
    ensures of_pool { IfOk result (λ rows. (id : ℕ) → In id rows.items →
        id < length pool.new.rows) }
    ensures kept { Kept pool.old pool.new }
{
    let mut rows = Vec::new(alloc);
    for family in families {
        rows.push(intern_minimal(alloc, pool, family.as_slice())?)?;
    }
    Ok(rows)
}

/// The conflicts of each class with classes of the mask.
pub(crate) fn class_conflicts(
    alloc: Global,
    masked: &MaskedRows,
    classes: &Classes,
) -> Result<Vec<NumList>, AllocError>
    requires mask { IsMaskOfRows masked.now }
    requires classes { AreClasses masked.now classes.now }
    ensures { let firsts = classes.now.firsts.items in
        IfOk result (λ lists. lists.items ≡ map (group_conflicts (masked_repository masked.now)
        masked.now.flags.now firsts classes.now.class_of.items) (numbers (length firsts) 0)) }
{
    let count = classes.firsts.len() as u32;
    let class_of = classes.class_of.as_slice();
    let mut lists = Vec::new(alloc);
    for first in &classes.firsts {
        let chosen = flagged(
            alloc,
            masked.conflicts[*first as usize].as_slice(),
            masked.flags,
        )?;
        lists.push(image_list(alloc, count, class_of, chosen.as_slice())?)?;
    }
    Ok(lists)
}

/// Those of the numbers whose flags are up.
fn flagged(alloc: Global, numbers: &[u32], flags: &[bool]) -> Result<Vec<u32>, AllocError>
    requires { (n : ℕ) → In n numbers.now → n < length flags.now }
    ensures { IfOk result (λ made. made.items ≡ filter (flag flags.now) numbers.now) }
{
    let mut made = Vec::new(alloc);
    for number in numbers {
        if flags[*number as usize] {
            made.push(*number)?;
        }
    }
    Ok(made)
}
