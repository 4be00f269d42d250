//! Books: for each package its row in a pool and the packages that conflict with it.
ghost use Rattle.std.specs.Prelude.{◌≡◌, ◌<◌, IfOk, length};

use crate::pair::Pair;
use crate::pairing::conflict_lists;
use clause_pool::{NumList, Pool, RowId};
use listed::Listed;
use std::alloc::{AllocError, Global};

/// A row for each package.
pub type RowList = Listed<RowId>;

/// For each package the packages that conflict with it: in a sound book ascending.
pub type ConflictTable = Listed<NumList>;

/// The packages of a repository, numbered from 0: fewer than 4,294,967,295.
#[derive(Drop)]
pub struct Book {
    /// The row of each package, in one pool.
    pub rows: RowList,
    /// The packages that conflict with each package.
    pub conflicts: ConflictTable,
    ghost few: { length rows < 4294967295 },
    ghost paired: { length conflicts ≡ length rows },
}

impl Book {
    ghost use Rattle.std.specs.Prelude.{◌≡◌, ◌<◌, List, [], IfOk, length, slice_index_or};
    ghost use Rattle.listed.specs.Lists.{has};
    ghost use Rattle.clause_pool.specs.Compacting.{RowsOf};
    ghost use Rattle.row_book.specs.Book.{listed_for, lists_of_pairs, NumbersFit, PairsFit, Sound};

    /// The book of these rows of the pool, in which the packages of each pair conflict. A pair may
    /// be listed twice.
    pub fn build(
        alloc: Global,
        pool: &Pool,
        rows: &[RowId],
        pairs: &[Pair],
    ) -> Result<Book, AllocError>
        requires few { length rows.now < u32.MAX }
        requires rows { RowsOf pool.now rows.now }
        requires numbers { NumbersFit pool.now rows.now }
        requires pairs { PairsFit pairs.now (length rows.now) }
        ensures rows { IfOk result (λ book. book.rows ≡ rows.now) }
        ensures conflicts { IfOk result (λ book. book.conflicts
            ≡ lists_of_pairs pairs.now (length rows.now)) }
        ensures sound { IfOk result (Sound pool.now) }
    {
        // This call is here for its contract: what holds of every pool. From here on the sound book
        // says so.
        pool.clause_count();
        let conflicts = conflict_lists(alloc, pairs, rows.len())?;
        let rows = Vec::from_slice(alloc, rows)?;
        Ok(Book {
            rows: Listed::of(rows),
            conflicts: Listed::of(conflicts),
        })
    }

    /// A book with the same conflicts and these rows.
    pub fn with_rows(&self, alloc: Global, rows: RowList) -> Result<Book, AllocError>
        requires { length rows ≡ length self.now.rows }
        ensures rows { IfOk result (λ book. book.rows ≡ rows) }
        ensures conflicts { IfOk result (λ book. book.conflicts ≡ self.now.conflicts) }
    {
        let conflicts = copied(alloc, self.conflicts.as_slice())?;
        Ok(Book {
            rows,
            conflicts: Listed::of(conflicts),
        })
    }

    /// A book with the same rows and conflicts.
    pub fn copy(&self, alloc: Global) -> Result<Book, AllocError>
        ensures rows { IfOk result (λ book. book.rows ≡ self.now.rows) }
        ensures conflicts { IfOk result (λ book. book.conflicts ≡ self.now.conflicts) }
    {
        let rows = Vec::from_slice(alloc, self.rows.as_slice())?;
        self.with_rows(alloc, Listed::of(rows))
    }

    /// The number of packages.
    pub fn size(&self) -> u32
        ensures { result ≡ length self.now.rows }
    {
        self.rows.as_slice().len() as u32
    }

    /// The row of a package below the size.
    pub fn row(&self, package: u32) -> RowId
        requires { «package» < length self.now.rows }
        ensures { result ≡ slice_index_or self.now.rows «package» 0 }
    {
        self.rows.as_slice()[package as usize]
    }

    /// Lends the packages that conflict with a package below the size, in a sound book ascending.
    pub fn against(&self, package: u32) -> &[u32]
        requires { «package» < length self.now.rows }
        ensures { result.now ≡ listed_for self.now.conflicts «package» }
    {
        self.conflicts.as_slice()[package as usize].as_slice()
    }

    /// Whether the second package is among the conflicts of the first, both below the size.
    pub fn conflicts_with(&self, a: u32, b: u32) -> bool
        requires a { a < length self.now.rows }
        requires b { b < length self.now.rows }
        ensures { result ≡ has (listed_for self.now.conflicts a) b }
    {
        self.against(a).iter().any(|&other| b == other)
    }
}

/// A copy of the lists.
fn copied(alloc: Global, lists: &[NumList]) -> Result<Vec<NumList>, AllocError>
    ensures { IfOk result (λ made. made.items ≡ lists.now) }
{
    let mut made = Vec::new(alloc);
    for list in lists {
        made.push(Listed::of(Vec::from_slice(alloc, list.as_slice())?))?;
    }
    Ok(made)
}
