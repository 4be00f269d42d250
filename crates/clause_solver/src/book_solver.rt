//! A book with its solver, and the search.
//!
//! It is the procedure of Davis, Logemann and Loveland ("A machine program for theorem-proving",
//! Communications of the ACM 5, 1962). It propagates units, decides if nothing is forced any more,
//! and backtracks if propagation comes upon a contradiction. It has no rule for literals of one
//! sign, and learns nothing from a contradiction, since the tree and the number of its failed
//! leaves are specified. What the book says by itself is propagated once, for all searches.
ghost use Rattle.std.specs.Prelude.{◌≤◌, ◌^◌, IfOk, length};
ghost use Rattle.row_book.specs.{Book.{repository_of, Sound}, Needs.{NeedsFit}};
ghost use Rattle.clause_solver.specs.Outcomes.{IsBudget, IsCertified, IsDecided, IsSearchOutcome};

use crate::formula::Formula;
use crate::nodes::chosen;
use crate::outcomes::{Outcome, Verdict};
use crate::solver::{Solver, start};
use crate::trail::Trail;
use crate::tree_walk::walk;
use clause_pool::Pool;
use listed::Listed;
use row_book::{Book, LentBook, Needs};
use search_terms::{EntryList, Log, goal_sentences};
use std::alloc::{AllocError, Global};
use std::marker::Model;

/// A book with its solver; contracts see the repository of the book.
#[derive(Drop)]
pub struct BookSolver<'a> {
    book: LentBook<'a>,
    solver: Solver,
}

impl<'a> Model for BookSolver<'a> {
    ghost use Rattle.row_book.specs.{Lent.{repository_in}, Repository.{Repository}};
    ghost use Rattle.clause_solver.specs.Solvers.{IsReady};

    ghost Value = { Repository };

    ghost view = { λ s. repository_in s.book };

    ghost invariant = { λ s. IsReady (repository_in s.book) s.solver };
}

/// How a walk of the tree ended: the verdict, with the trail of a found leaf and the log of a tree
/// without one.
#[derive(Drop)]
struct Run {
    verdict: Verdict,
    trail: Trail,
    log: EntryList,
}

impl<'a> BookSolver<'a> {
    ghost use Rattle.std.specs.Prelude.{◌≡◌, IfOk, length};
    ghost use Rattle.row_book.specs.{Lent.{repository_in}, Needs.{NeedsFit}};
    ghost use Rattle.clause_solver.specs.Outcomes.{IsBudget, IsCertified, IsSearchOutcome};
    ghost use Rattle.clause_solver.specs.Verdicts.{EndsSearch, IsSearchVerdict};

    /// A book with a solver of it.
    pub fn new(alloc: Global, book: &LentBook<'a>) -> Result<BookSolver<'a>, AllocError>
        ensures { IfOk result (λ made. made ≡ repository_in book.now) }
    {
        let solver = Solver::new(alloc, book)?;
        Ok(BookSolver {
            book: *book,
            solver,
        })
    }

    /// The answer of the tree of the book's formula with these goals, within the budget, with its
    /// certificate.
    fn solve(&self, alloc: Global, goals: &Needs, budget: u64) -> Result<Outcome, AllocError>
        requires goals { NeedsFit (length self.now.clauses) goals.now }
        requires budget { IsBudget budget }
        ensures tree { IfOk result (IsSearchOutcome self.now goals.now budget) }
        ensures certified { IfOk result (IsCertified self.now goals.now) }
    {
        let walked = self.run(alloc, &self.book, goals, budget, true)?;
        match walked.verdict {
            Verdict::Yes => {
                let flags = chosen(alloc, self.solver.classes, &walked.trail)?;
                Ok(Outcome::Found {
                    chosen: Listed::of(flags),
                })
            }
            Verdict::No => Ok(Outcome::Refuted {
                log: Log {
                    entries: walked.log,
                },
            }),
            Verdict::Spent => Ok(Outcome::Spent { failed: budget + 1 }),
        }
    }

    /// The verdict alone: no log and no list of classes is made.
    pub fn verdict(&self, alloc: Global, goals: &Needs, budget: u64) -> Result<Verdict, AllocError>
        requires goals { NeedsFit (length self.now.clauses) goals.now }
        requires budget { IsBudget budget }
        ensures { IfOk result (IsSearchVerdict self.now goals.now budget) }
    {
        let walked = self.run(alloc, &self.book, goals, budget, false)?;
        Ok(walked.verdict)
    }

    /// The verdict in another book, which has the same clauses, whichever packages conflict there.
    pub fn verdict_in(
        &self,
        alloc: Global,
        other: &LentBook,
        goals: &Needs,
        budget: u64,
    ) -> Result<Verdict, AllocError>
        requires clauses { (repository_in other.now).clauses ≡ self.now.clauses }
        requires goals { NeedsFit (length self.now.clauses) goals.now }
        requires budget { IsBudget budget }
        ensures { IfOk result (IsSearchVerdict (repository_in other.now) goals.now budget) }
    {
        let walked = self.run(alloc, other, goals, budget, false)?;
        Ok(walked.verdict)
    }

    /// Walks the tree of a book with the same clauses, from what follows without goals. That does
    /// not depend on the conflicts.
    fn run(
        &self,
        alloc: Global,
        asked: &LentBook,
        goals: &Needs,
        budget: u64,
        keeps: bool,
    ) -> Result<Run, AllocError>
        requires clauses { (repository_in asked.now).clauses ≡ self.now.clauses }
        requires goals { NeedsFit (length self.now.clauses) goals.now }
        requires budget { IsBudget budget }
        ensures { IfOk result (λ run. EndsSearch keeps
            (repository_in asked.now) goals.now budget run.verdict run.trail.1 run.log) }
    {
        let wanted = goal_sentences(alloc, goals)?;
        let formula = Formula {
            classes: self.solver.classes,
            goals: &wanted,
            own: &self.solver.own,
            uses: &self.solver.uses,
            conflicts: asked.book.conflicts.as_slice(),
        };
        let mut trail = self.solver.base.copy(alloc)?;
        let mut log = Listed::new(alloc);
        let contradicted = start(self.solver.dead, &mut trail, &formula)?;
        let verdict = walk(
            alloc,
            &formula,
            budget,
            contradicted,
            keeps,
            &mut trail,
            &mut log,
        )?;
        Ok(Run {
            verdict,
            trail,
            log,
        })
    }
}

/// Searches for a healthy set of the book that hits every goal, within a budget of failed leaves,
/// from 1 to 1,000,000. The answer is the classes that are found, or the log of a tree that finds
/// nothing. If the tree has more failed leaves than the budget, it is the budget and one.
pub fn search(
    alloc: Global,
    pool: &Pool,
    book: &Book,
    goals: &Needs,
    budget: u64,
) -> Result<Outcome, AllocError>
    requires sound { Sound pool.now book.now }
    requires goals { NeedsFit (length book.now.rows) goals.now }
    requires budget { IsBudget budget }
    ensures tree { IfOk result
        (IsSearchOutcome (repository_of pool.now book.now) goals.now budget) }
    ensures certified { IfOk result (IsCertified (repository_of pool.now book.now) goals.now) }
    ensures enough { IfOk result (λ outcome. 2 ^ length book.now.rows ≤ budget →
        IsDecided outcome) }
{
    let lent = LentBook { pool, book };
    let solver = BookSolver::new(alloc, &lent)?;
    let outcome = solver.solve(alloc, goals, budget)?;
    Ok(outcome)
}
