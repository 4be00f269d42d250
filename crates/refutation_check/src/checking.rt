//! The checker of logs.
//!
//! Plain scans on purpose: no table is shared with the search, so a fault of one cannot agree with
//! itself.
ghost use Rattle.std.specs.{Prelude.{IfOk, IsTrue, ◌↔◌, length}, Bool.{OnTrue}};
ghost use Rattle.row_book.specs.{Book.{repository_of, Sound}, Needs.{NeedsFit}};
ghost use Rattle.search_terms.specs.{Closure.{InRange}, Derives.{Derives}, Form.{form}};
ghost use Rattle.search_terms.specs.Laws.{HasNoSolution};

use crate::derivation::derives;
use crate::formula::form_of;
use clause_pool::Pool;
use row_book::{Book, Needs};
use search_terms::Log;
use std::alloc::{AllocError, Global};

/// Whether the log derives the empty entry over the formula of the book and the goals. If it does,
/// no healthy set of the book hits every goal. The formula and the earlier entries are scanned once
/// for each unit step of each entry.
pub fn check(
    alloc: Global,
    pool: &Pool,
    book: &Book,
    goals: &Needs,
    log: &Log,
) -> Result<bool, AllocError>
    requires sound { Sound pool.now book.now }
    requires goals { NeedsFit (length book.now.rows) goals.now }
    requires log { InRange (length book.now.rows) log.now.entries }
    ensures derives { IfOk result (λ r. IsTrue r
        ↔ Derives (form (repository_of pool.now book.now) goals.now) log.now.entries) }
    ensures refutes { IfOk result (λ r.
        OnTrue r (HasNoSolution (repository_of pool.now book.now) goals.now)) }
{
    let formula = form_of(alloc, pool, book, goals)?;
    let answer = derives(alloc, book.size(), &formula, log.entries.as_slice())?;
    Ok(answer)
}
