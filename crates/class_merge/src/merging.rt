//! Merging of a book, and of packages of a mask.
ghost use Rattle.std.specs.Prelude.{◌≡◌, true, IfOk, length, replicate};
ghost use Rattle.clause_pool.specs.Interned.{IsPool, Kept};
ghost use Rattle.row_book.specs.{Book.{repository_of, RowsTidy, Sound}, Keeping.{KeepsImages}};
ghost use Rattle.row_book.specs.{Merging.{class_list, image, quotient}, Parts.{part}};
ghost use Rattle.row_book.specs.Repository.{Repository};
ghost use Rattle.class_merge.specs.Grouping.{FitsBook, IsTidyBook, IsUnpooled};
ghost use Rattle.class_merge.specs.Masks.{masked_repository, AreClassesOfPart, IsMaskOfRows};

use crate::class_rows::{class_conflicts, class_families, family_rows};
use crate::grouping::classes_of;
use crate::masked::MaskedRows;
use clause_families::Clause;
use clause_pool::{NumList, Pool};
use listed::Listed;
use row_book::Book;
use std::alloc::{AllocError, Global};

/// A merged book, with the class of each package of the old one.
#[derive(Drop)]
pub struct Merged {
    /// The classes as packages.
    pub book: Book,
    /// For each package of the old book its class.
    pub class_of: NumList,
}

/// The merged book: packages with the same clauses and the same conflicts become one class. What
/// the pool held stays.
pub fn merge(alloc: Global, pool: &mut Pool, book: &Book) -> Result<Merged, AllocError>
    requires { Sound pool.old book.now }
    ensures quotient { IfOk result (λ made. repository_of pool.new made.book
        ≡ quotient (repository_of pool.old book.now)) }
    ensures class_of { IfOk result (λ made. made.class_of
        ≡ class_list (repository_of pool.old book.now)) }
    ensures keeps { IfOk result (λ made. KeepsImages (repository_of pool.old book.now)
        (repository_of pool.new made.book) (image (repository_of pool.old book.now))) }
    ensures sound { IfOk result (λ made. Sound pool.new made.book) }
    ensures tidy { IfOk result (λ made. RowsTidy pool.new made.book.rows) }
    ensures kept { Kept pool.old pool.new }
{
    let made = families_of_book(alloc, pool, book)?;
    interned(alloc, pool, made)
}

/// The merged book of the packages of a mask, in a pool of its own. Packages with the same clauses
/// and the same conflicts with packages of the mask become one class. The class of each package of
/// the mask is in the numbers of all packages; that of another package says nothing.
pub fn merge_chosen(
    alloc: Global,
    pool: &mut Pool,
    masked: &MaskedRows,
) -> Result<Merged, AllocError>
    requires pool { IsPool pool.old }
    requires mask { IsMaskOfRows masked.now }
    ensures quotient { IfOk result (λ made. repository_of pool.new made.book
        ≡ quotient (part masked.now.flags.now (masked_repository masked.now))) }
    ensures class_of { IfOk result (λ made.
        AreClassesOfPart (masked_repository masked.now) masked.now.flags.now made.class_of) }
    ensures size { IfOk result (λ made. length made.class_of ≡ length masked.now.flags.now) }
    ensures sound { IfOk result (λ made. Sound pool.new made.book) }
    ensures tidy { IfOk result (λ made. RowsTidy pool.new made.book.rows) }
    ensures kept { Kept pool.old pool.new }
{
    let made = families_of(alloc, masked)?;
    interned(alloc, pool, made)
}

// Classes whose clauses are in no pool.
#[derive(Drop)]
struct Families {
    clauses: Vec<Listed<Clause>>,
    conflicts: Vec<NumList>,
    class_of: Vec<u32>,
}

// The classes of the packages of a mask.
fn families_of(alloc: Global, masked: &MaskedRows) -> Result<Families, AllocError>
    requires { IsMaskOfRows masked.now }
    ensures quotient { IfOk result
        (IsUnpooled (quotient (part masked.now.flags.now (masked_repository masked.now)))) }
    ensures class_of { IfOk result (λ made.
        AreClassesOfPart (masked_repository masked.now) masked.now.flags.now made.class_of.items) }
    ensures size { IfOk result (λ made. length made.class_of.items ≡ length masked.now.flags.now) }
{
    let classes = classes_of(alloc, masked)?;
    let conflicts = class_conflicts(alloc, masked, &classes)?;
    let clauses = class_families(alloc, masked, &classes)?;
    Ok(Families {
        clauses,
        conflicts,
        class_of: classes.class_of,
    })
}

// The classes of a book: all its packages are in the mask.
fn families_of_book(alloc: Global, pool: &Pool, book: &Book) -> Result<Families, AllocError>
    requires { Sound pool.now book.now }
    ensures quotient { IfOk result (IsUnpooled (quotient (repository_of pool.now book.now))) }
    ensures class_of { IfOk result (λ made. made.class_of.items
        ≡ class_list (repository_of pool.now book.now)) }
{
    let flags = all_flags(alloc, book.size())?;
    let masked = MaskedRows {
        pool,
        rows: book.rows.as_slice(),
        conflicts: book.conflicts.as_slice(),
        flags: &flags,
    };
    families_of(alloc, &masked)
}

// Flags for all packages, all of them up.
fn all_flags(alloc: Global, count: u32) -> Result<Vec<bool>, AllocError>
    ensures { IfOk result (λ flags. flags.items ≡ replicate count true) }
{
    vec![in alloc; true; count as usize]
}

// The book of classes, in a pool.
fn interned(alloc: Global, pool: &mut Pool, made: Families) -> Result<Merged, AllocError>
    requires pool { IsPool pool.old }
    requires fits { FitsBook made }
    ensures book { (Q : Repository) → IsUnpooled Q made →
        IfOk result (λ merged. IsTidyBook pool.new merged.book Q) }
    ensures class_of { IfOk result (λ merged. merged.class_of ≡ made.class_of.items) }
    ensures kept { Kept pool.old pool.new }
{
    let rows = family_rows(alloc, pool, &made.clauses)?;
    let book = Book {
        rows: Listed::of(rows),
        conflicts: Listed::of(made.conflicts),
    };
    Ok(Merged {
        book,
        class_of: Listed::of(made.class_of),
    })
}
