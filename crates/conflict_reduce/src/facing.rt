//! Whether two packages exclude each other by other conflicts that are left. No list of conflicts
//! is gone through if a look at the members of a clause is enough.
ghost use Rattle.std.specs.Prelude.{◌≡◌};
ghost use Rattle.row_book.specs.Thinning.{is_pair};
ghost use Rattle.conflict_reduce.specs.Ascending.{AreAscending, AreAscending-prop};

use crate::live::LiveBook;
use clause_pool::{ClauseId, NumList, Pool, has_side_within};
use row_book::{Pair, are_against, conflicts_of};
use std::alloc::{AllocError, Global};

/// The conflicts of a table that are not gone, without that of one pair.
#[derive(Clone, Copy)]
pub(crate) struct OtherConflicts<'a> {
    /// The conflicts of each package.
    pub(crate) table: &'a [NumList],
    /// The conflicts that are gone, for each package.
    pub(crate) gone: &'a [NumList],
    /// The pair whose conflict does not count.
    pub(crate) pair: Pair,
    ghost table_ascends: { AreAscending table.now } by { AreAscending-prop table.now },
    ghost gone_ascends: { AreAscending gone.now } by { AreAscending-prop gone.now },
}

// Whether m and n are the two of the pair.
fn is_the_pair(pair: Pair, m: u32, n: u32) -> bool
    ensures { result ≡ is_pair pair.low pair.high m n }
{
    (m == pair.low && n == pair.high) || (m == pair.high && n == pair.low)
}

impl OtherConflicts<'_> {
    ghost use Rattle.std.specs.{Prelude.{◌≡◌, ◌∷◌, [], ℕ, List, IfOk}, List.{list_all, list_any}};
    ghost use Rattle.clause_pool.specs.{Interned.{clauses_at, OfPool, IsPool}, Lists.{InOrder}};
    ghost use Rattle.row_book.specs.Facing.{against_in, all_against, face};
    ghost use Rattle.conflict_reduce.specs.Others.{common_others, is_other_conflict};
    ghost use Rattle.conflict_reduce.specs.Tests.{left_of};

    // Whether m and n conflict by the table, and not by what is gone.
    fn are_left(&self, m: u32, n: u32) -> bool
        ensures { result ≡ against_in (left_of self.now.table.now self.now.gone.now) m n }
    {
        are_against(self.table, m, n) && !are_against(self.gone, m, n)
    }

    // Whether a conflict of m and n is left, and they are not the given pair.
    fn conflict(&self, m: u32, n: u32) -> bool
        ensures { result ≡ is_other_conflict self.now m n }
    {
        !is_the_pair(self.pair, m, n) && self.are_left(m, n)
    }

    // Whether each number of the list has such a conflict with the package.
    fn each_conflicts(&self, list: &[u32], number: u32) -> bool
        ensures { result ≡ list_all (λ m. is_other_conflict self.now m number) list.now }
    {
        for member in list {
            if !self.conflict(*member, number) {
                return false;
            }
        }
        true
    }

    // The conflicts of the first package, by the table, that have such a conflict with each number
    // of the list.
    fn common(&self, alloc: Global, first: u32, list: &[u32]) -> Result<Vec<u32>, AllocError>
        ensures { IfOk result (λ common. common.items ≡ common_others self.now first list.now) }
    {
        let mut common = Vec::new(alloc);
        for number in conflicts_of(self.table, first) {
            if self.each_conflicts(list, *number) {
                common.push(*number)?;
            }
        }
        Ok(common)
    }

    // Whether the package has such a conflict with each number of the list.
    fn conflicts_with_each(&self, number: u32, list: &[u32]) -> bool
        ensures { result ≡ list_all (is_other_conflict self.now number) list.now }
    {
        for member in list {
            if !self.conflict(number, *member) {
                return false;
            }
        }
        true
    }

    // Whether the lists conflict as a whole, by such conflicts.
    fn all_conflict(&self, list: &[u32], other: &[u32]) -> bool
        ensures { result ≡ all_against (is_other_conflict self.now) list.now other.now }
    {
        for number in list {
            if !self.conflicts_with_each(*number, other) {
                return false;
            }
        }
        true
    }

    // Whether the list conflicts as a whole with a clause of the row, by a look at each.
    fn faces_clause(&self, pool: &Pool, list: &[u32], row: &[ClauseId]) -> bool
        requires row { OfPool pool.now row.now }
        ensures { result ≡ list_any (all_against (is_other_conflict self.now) list.now)
            (clauses_at pool.now row.now) }
    {
        for id in row {
            if self.all_conflict(list, pool.slice(*id)) {
                return true;
            }
        }
        false
    }

    // Whether the list, which begins with the first number, conflicts as a whole with the greater
    // package of the pair, or with a clause of its row. It does if that lies within the packages
    // that conflict with each member of the list.
    fn faces_common(
        &self,
        alloc: Global,
        pool: &Pool,
        first: u32,
        list: &[u32],
        row: &[ClauseId],
    ) -> Result<bool, AllocError>
        requires pool { IsPool pool.now }
        requires first { (others : List ℕ) × (list.now ≡ first ∷ others) }
        requires row { OfPool pool.now row.now }
        requires order { InOrder (clauses_at pool.now row.now) }
        ensures { IfOk result (λ faces. faces ≡ list_any (all_against (is_other_conflict self.now)
            list.now) ((self.now.pair.high ∷ []) ∷ clauses_at pool.now row.now)) }
    {
        let common = self.common(alloc, first, list)?;
        let faces = has_side_within(pool, self.pair.high, row, common.as_slice());
        Ok(faces)
    }

    // Whether the list conflicts as a whole with the greater package of the pair, or with a clause
    // of its row. A row that is longer than the list of a member's conflicts is not gone through.
    fn faces_greater(
        &self,
        alloc: Global,
        pool: &Pool,
        list: &[u32],
        row: &[ClauseId],
    ) -> Result<bool, AllocError>
        requires pool { IsPool pool.now }
        requires row { OfPool pool.now row.now }
        requires order { InOrder (clauses_at pool.now row.now) }
        ensures { IfOk result (λ faces. faces ≡ list_any (all_against (is_other_conflict self.now)
            list.now) ((self.now.pair.high ∷ []) ∷ clauses_at pool.now row.now)) }
    {
        match list.split_first() {
            None => Ok(true),
            Some((first, _others)) => {
                if row.len() > conflicts_of(self.table, *first).len() {
                    return self.faces_common(alloc, pool, *first, list, row);
                }
                Ok(self.all_conflict(list, &[self.pair.high]) || self.faces_clause(pool, list, row))
            }
        }
    }

    // Whether a clause of the first row conflicts as a whole with a side of the greater package.
    fn rows_face(
        &self,
        alloc: Global,
        pool: &Pool,
        first: &[ClauseId],
        second: &[ClauseId],
    ) -> Result<bool, AllocError>
        requires pool { IsPool pool.now }
        requires first { OfPool pool.now first.now }
        requires second { OfPool pool.now second.now }
        requires order { InOrder (clauses_at pool.now second.now) }
        ensures { IfOk result (λ faces. faces ≡ face (is_other_conflict self.now) (clauses_at
            pool.now first.now) ((self.now.pair.high ∷ []) ∷ clauses_at pool.now second.now)) }
    {
        for id in first {
            let faces = self.faces_greater(alloc, pool, pool.slice(*id), second)?;
            if faces {
                return Ok(true);
            }
        }
        Ok(false)
    }

    // Whether a side of the lesser package conflicts as a whole with a side of the greater one, by
    // their rows.
    fn sides_face(
        &self,
        alloc: Global,
        pool: &Pool,
        first: &[ClauseId],
        second: &[ClauseId],
    ) -> Result<bool, AllocError>
        requires pool { IsPool pool.now }
        requires first { OfPool pool.now first.now }
        requires second { OfPool pool.now second.now }
        requires order { InOrder (clauses_at pool.now second.now) }
        ensures { IfOk result (λ faces. faces ≡ face (is_other_conflict self.now)
            ((self.now.pair.low ∷ []) ∷ clauses_at pool.now first.now) ((self.now.pair.high ∷ [])
            ∷ clauses_at pool.now second.now)) }
    {
        let faces = self.faces_greater(alloc, pool, &[self.pair.low], second)?;
        if faces {
            return Ok(true);
        }
        self.rows_face(alloc, pool, first, second)
    }
}

impl LiveBook<'_> {
    ghost use Rattle.std.specs.Prelude.{◌≡◌, ◌<◌, IfOk, length};
    ghost use Rattle.row_book.specs.Thinning.{is_redundant};
    ghost use Rattle.conflict_reduce.specs.{Ascending.{AreAscending}, Live.{IsLiveBook}};
    ghost use Rattle.conflict_reduce.specs.Tests.{book_left};

    /// Whether the packages of the pair exclude each other by other conflicts of the book that are
    /// left.
    pub(crate) fn is_redundant(
        &self,
        alloc: Global,
        gone: &[NumList],
        pair: Pair,
    ) -> Result<bool, AllocError>
        requires live { IsLiveBook self.now }
        requires low { pair.low < length self.now.book.now.rows }
        requires high { pair.high < length self.now.book.now.rows }
        requires gone { AreAscending gone.now }
        ensures { IfOk result (λ redundant. redundant ≡ is_redundant
            (book_left self.now.pool.now self.now.book.now gone.now) pair.low pair.high) }
    {
        let others = OtherConflicts {
            table: self.book.conflicts.as_slice(),
            gone,
            pair,
        };
        let first = self.live_for(pair.low);
        let second = self.live_for(pair.high);
        let faces = others.sides_face(alloc, self.pool, first, second)?;
        Ok(faces)
    }
}
