//! The clauses that can take part in thinning. Conflicts only go away in the pass, so a clause
//! whose members have no conflict in common when it begins excludes no package.
ghost use Rattle.std.specs.Prelude.{◌≡◌, IfOk, filter};
ghost use Rattle.clause_pool.specs.Interned.{clause_at, OfPool};
ghost use Rattle.row_book.specs.Book.{listed_for, Sound};
ghost use Rattle.conflict_reduce.specs.{Ascending.{AreAscending}, Live.{live_of, may_face}};

use clause_pool::{ClauseId, NumList, Pool};
use listed::Listed;
use row_book::{Book, common_conflicts};
use std::alloc::{AllocError, Global};

/// Ids of clauses.
pub(crate) type IdList = Listed<ClauseId>;

// Whether the clause is empty, or its members have a conflict in common.
fn may_face(alloc: Global, table: &[NumList], clause: &[u32]) -> Result<bool, AllocError>
    requires { AreAscending table.now }
    ensures { IfOk result (λ may. may ≡ may_face table.now clause.now) }
{
    match clause.split_first() {
        None => Ok(true),
        Some((first, others)) => {
            let common = common_conflicts(alloc, table, *first, others)?;
            Ok(!common.as_slice().is_empty())
        }
    }
}

// The clauses of the row that can take part.
fn live_row(
    alloc: Global,
    pool: &Pool,
    table: &[NumList],
    row: &[ClauseId],
) -> Result<IdList, AllocError>
    requires row { OfPool pool.now row.now }
    requires table { AreAscending table.now }
    ensures { IfOk result (λ made. made
        ≡ filter (λ id. may_face table.now (clause_at pool.now id)) row.now) }
{
    let mut made = IdList::new(alloc);
    for id in row {
        let may = may_face(alloc, table, pool.slice(*id))?;
        if may {
            made.push(*id)?;
        }
    }
    Ok(made)
}

/// A book that is thinned, over its pool, with the clauses that can take part.
#[derive(Drop)]
pub(crate) struct LiveBook<'a> {
    /// The pool of the rows.
    pub(crate) pool: &'a Pool,
    /// The book as it was before any conflict went.
    pub(crate) book: &'a Book,
    /// For each package its clauses that can take part.
    pub(crate) live: Vec<IdList>,
}

impl LiveBook<'_> {
    /// The clauses of a package that can take part.
    pub(crate) fn live_for(&self, number: u32) -> &[ClauseId]
        ensures { result.now ≡ listed_for self.now.live.items number }
    {
        match self.live.get(number as usize) {
            Some(list) => list.as_slice(),
            None => &[],
        }
    }
}

/// For each package the clauses of its row that can take part.
pub(crate) fn live_rows(alloc: Global, pool: &Pool, book: &Book) -> Result<Vec<IdList>, AllocError>
    requires { Sound pool.now book.now }
    ensures { IfOk result (λ made. made.items ≡ live_of pool.now book.now) }
{
    let table = book.conflicts.as_slice();
    let mut made = Vec::new(alloc);
    for number in 0..book.size() {
        let clauses = pool.row(book.row(number));
        let live = live_row(alloc, pool, table, clauses)?;
        made.push(live)?;
    }
    Ok(made)
}
