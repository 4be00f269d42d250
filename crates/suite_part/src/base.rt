//! A part of a book that is flattened, so that another part that differs little from it is soon
//! flattened. Take packages that name only each other and are in both parts. If each has conflicts
//! in both or in neither, their rows are the same in both parts.
ghost use Rattle.std.specs.Prelude.{length};
ghost use Rattle.suite_part.specs.BaseRows.{AreBaseRows};

use crate::changed::{first_chosen, none_flagged, put_changed};
use crate::part::part_of;
use crate::renewed::{renewed_rows, with_empty};
use crate::small::{SmallBook, small_book};
use crate::subset::has_one;
use class_merge::MaskedRows;
use clause_flatten::{FlatError, flatten};
use clause_pool::{Pool, RowId};
use row_book::{Book, UseTable};
use std::alloc::{AllocError, Global};

/// What is known of a part of a book.
#[derive(Drop)]
pub struct Base {
    // For each package of the book whether the part has it.
    flags: Vec<bool>,
    // The most clauses that a row of it may have.
    limit: u32,
    // The pool of the rows.
    pool: Pool,
    // For each package of the book its row over the core of the part, in the numbers of the book.
    // If the part lacks the package, it is any row.
    rows: Vec<RowId>,
    // Which packages name which in the whole book.
    users: UseTable,
    ghost rows_are: { AreBaseRows pool rows.items (length flags.items) },
}

impl Base {
    ghost use Rattle.std.specs.Prelude.{◌≡◌, ◌<◌, ◌≤◌, ℕ, false, None, IfOk, length};
    ghost use Rattle.std.specs.{Bool.{OnFalse}, Option.{ForSome}};
    ghost use Rattle.class_merge.specs.Masks.{masked_repository, IsMaskOfRows};
    ghost use Rattle.clause_pool.specs.Interned.{Interned};
    ghost use Rattle.listed.specs.Lists.{In};
    ghost use Rattle.row_book.specs.declared.book.Book.{Book};
    ghost use Rattle.row_book.specs.Book.{listed_for, repository_of, Sound};
    ghost use Rattle.row_book.specs.{Flattening.{flat, passes}, Parts.{part}, Uses.{uses_of}};
    ghost use Rattle.suite_part.specs.Bases.{first_flags, first_part, AreChanged, FitsIn, IsBase};
    ghost use Rattle.suite_part.specs.{Bases.{StandsAlike}, BaseRows.{AreBaseRows}};
    ghost use Rattle.suite_part.specs.Mixes.{AreMixRows};

    /// The base of the first `count` packages of a book, without hold. `None` if one of their rows
    /// has more clauses than the limit allows at some stage of flattening.
    pub fn of(
        alloc: Global,
        from: &Pool,
        book: &Book,
        count: u32,
        limit: u32,
    ) -> Result<Option<Base>, AllocError>
        requires book { Sound from.now book.now }
        requires count { count ≤ length book.now.rows }
        requires limit { 0 < limit }
        ensures base { IfOk result (λ base. ForSome base (λ made. IsBase from.now book.now made
            × (made.flags.items ≡ first_flags count (length book.now.rows))
            × (made.limit ≡ limit))) }
        ensures passed { IfOk result (λ base. base ≡ None →
            passes limit false (first_part count (repository_of from.now book.now)) ≡ None → ⊥) }
    {
        let users = UseTable::of(alloc, from, book.rows.as_slice())?;
        let first = first_chosen(alloc, count, book.size())?;
        let mut work = Pool::new(alloc)?;
        let part = part_of(alloc, &mut work, from, book, &first)?;
        let flat = match flatten(alloc, &mut work, &part, limit, false) {
            Ok(made) => made.book,
            Err(FlatError::Limit { .. }) => return Ok(None),
            Err(FlatError::Memory) => return Err(AllocError),
        };
        // The work's own pool also has rows that are no longer used.
        let mut pool = Pool::new(alloc)?;
        let first_rows = pool.carry_rows(&work, flat.rows.as_slice())?;
        let rows = with_empty(&mut pool, first_rows, book.size() - count)?;
        let flags = Vec::from_slice(alloc, &first.flags)?;
        Ok(Some(Base {
            flags,
            limit,
            pool,
            rows,
            users,
        }))
    }

    /// The rows over the core of the packages of a mix, in the numbers of the book and the pool of
    /// this base. For a package that the mix lacks it is any row. `None` if a row has more clauses
    /// than the limit allows at some stage of flattening.
    ///
    /// Rows are made anew only for packages that are in one of the two parts alone, or have
    /// conflicts in one alone, or need such a package. This stays a base of its part.
    pub fn rows_in(
        &mut self,
        alloc: Global,
        from: &Pool,
        book: &Book,
        flags: &[bool],
    ) -> Result<Option<Vec<RowId>>, AllocError>
        requires book { Sound from.now book.now }
        requires base { IsBase from.now book.now self.old }
        requires limit { 0 < self.old.limit }
        requires flags { length flags.now ≡ length book.now.rows }
        ensures rows { IfOk result (λ made.
            ForSome made (λ rows. AreMixRows from.now book.now self.new flags.now rows.items)) }
        ensures passed { IfOk result (λ made. made ≡ None → passes self.old.limit false
            (part flags.now (repository_of from.now book.now)) ≡ None → ⊥) }
        ensures base { IsBase from.now book.now self.new }
        ensures limit { self.new.limit ≡ self.old.limit }
    {
        let changed = self.changed_by(alloc, book, flags)?;
        let small = small_book(alloc, from, book, flags, &changed)?;
        let SmallBook {
            pool: mut work,
            book: part,
            apart,
        } = small;
        let flat = match flatten(alloc, &mut work, &part, self.limit, false) {
            Ok(made) => made.book,
            Err(FlatError::Limit { .. }) => return Ok(None),
            Err(FlatError::Memory) => return Err(AllocError),
        };
        let rows = renewed_rows(
            alloc,
            &mut self.pool,
            &self.rows,
            &work,
            flat.rows.as_slice(),
            &changed,
            &apart,
        )?;
        Ok(Some(rows))
    }

    /// The packages of a mix with their rows, which are in the pool of this base.
    pub fn masked<'a>(
        &'a self,
        rows: &'a [RowId],
        book: &'a Book,
        flags: &'a [bool],
    ) -> MaskedRows<'a>
        ensures mask { (from : Interned) → AreMixRows from book.now self.now flags.now rows.now →
            IsMaskOfRows result }
        ensures flat { (from : Interned) → AreMixRows from book.now self.now flags.now rows.now →
            part flags.now (masked_repository result)
            ≡ flat self.now.limit false (part flags.now (repository_of from book.now)) }
        ensures flags { result.flags.now ≡ flags.now }
    {
        MaskedRows {
            pool: &self.pool,
            rows,
            conflicts: book.conflicts.as_slice(),
            flags,
        }
    }

    /// Makes this the base of a mix, given the rows of the mix.
    pub fn follow(&mut self, flags: Vec<bool>, rows: Vec<RowId>)
        requires { AreBaseRows self.old.pool rows.items (length flags.items) }
        ensures base { (from : Interned) (book : Book) → IsBase from book self.old →
            AreMixRows from book self.old flags.items rows.items → IsBase from book self.new }
        ensures limit { self.new.limit ≡ self.old.limit }
    {
        self.flags = flags;
        self.rows = rows;
    }

    /// A set with each package that differs between the part of this base and that of the chosen
    /// packages, or needs such a package. A package differs if it is in only one of the two parts,
    /// or has a conflict in only one. The set may have others.
    fn changed_by(
        &self,
        alloc: Global,
        book: &Book,
        flags: &[bool],
    ) -> Result<Vec<bool>, AllocError>
        requires fits { FitsIn book.now self.now }
        requires flags { length flags.now ≡ length book.now.rows }
        ensures size { IfOk result (λ changed. length changed.items ≡ length book.now.rows) }
        ensures changed { IfOk result (λ changed. (from : Interned) → Sound from book.now →
            self.now.users ≡ uses_of from book.now.rows →
            AreChanged (repository_of from book.now) self.now.flags.items flags.now changed.items) }
    {
        let mut changed = none_flagged(alloc, book.size() as usize)?;
        let mut work = Vec::new(alloc);
        for number in 0..book.size() {
            if self.differs(book, flags, number) {
                put_changed(&[number], &mut changed, &mut work)?;
            }
        }
        while let Some(number) = work.pop() {
            put_changed(self.users.packages(number), &mut changed, &mut work)?;
        }
        Ok(changed)
    }

    /// Whether a package is in only one of the two parts, or conflicts with packages in only one of
    /// them.
    fn differs(&self, book: &Book, flags: &[bool], number: u32) -> bool
        requires number { number < length book.now.rows }
        requires own { length self.now.flags.items ≡ length book.now.rows }
        requires flags { length flags.now ≡ length book.now.rows }
        requires conflicts { (n : ℕ) → In n (listed_for book.now.conflicts number) →
            n < length book.now.rows }
        ensures { OnFalse result
            (StandsAlike book.now.conflicts self.now.flags.items flags.now number) }
    {
        if self.flags[number as usize] != flags[number as usize] {
            return true;
        }
        let against = book.against(number);
        has_one(&self.flags, against) != has_one(flags, against)
    }
}
