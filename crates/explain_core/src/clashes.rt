//! The conflicts that matter: one conflict after another is left out, as long as the search with
//! the others finds nothing.
ghost use Rattle.std.specs.{Prelude.{◌≡◌, ◌++◌, IfOk, OnOk, length}, Option.{option_map}};
ghost use Rattle.clause_solver.specs.Outcomes.{IsBudget};
ghost use Rattle.row_book.specs.{Book.{repository_of, PairsFit}, Lent.{repository_in}};
ghost use Rattle.row_book.specs.{Needs.{NeedsFit}, declared.pair.Pair.{Pair}};
ghost use Rattle.explain_core.specs.Deletion.{is_no, kept_by, kept_of};
ghost use Rattle.explain_core.specs.Reasons.{clashes_of, is_spent_verdict, reasons_of, clash_pairs};
ghost use Rattle.explain_core.specs.Reasons.{verdict_over};

use crate::blocks::{block_behind, count_of, half, is_no, twice};
use crate::conflicts::conflicts_within;
use crate::explanation::{Clash, ClashList};
use crate::reach::reach_of;
use crate::solved::SolvedBook;
use clause_solver::{BookSolver, Verdict};
use row_book::{Book, LentBook, Needs, Pair};
use std::alloc::{AllocError, Global};
use suite_compare::SuiteView;

/// Whether the search was spent.
fn is_spent_verdict(verdict: Verdict) -> bool
    ensures { result ≡ is_spent_verdict verdict }
{
    match verdict {
        Verdict::Spent => true,
        Verdict::Yes => false,
        Verdict::No => false,
    }
}

/// The verdict on the goals if only these pairs conflict. The solver has the formula of the
/// clauses, made once; the pairs are those of a book of their own.
fn verdict_over(
    alloc: Global,
    asked: &SolvedBook,
    goals: &Needs,
    pairs: &[Pair],
    budget: u64,
) -> Result<Verdict, AllocError>
    requires goals { NeedsFit (length asked.now.book.book.now.rows) goals.now }
    requires pairs { PairsFit pairs.now (length asked.now.book.book.now.rows) }
    requires budget { IsBudget budget }
    ensures { IfOk result (λ verdict. verdict
        ≡ verdict_over (repository_in asked.now.book) budget goals.now pairs.now) }
{
    let pool = asked.book.pool;
    let chosen = Book::build(alloc, pool, asked.book.book.rows.as_slice(), pairs)?;
    let other = LentBook {
        pool,
        book: &chosen,
    };
    let verdict = asked.solver.verdict_in(alloc, &other, goals, budget)?;
    Ok(verdict)
}

/// Whether the goals clash at once if only these pairs conflict: the whole tree is one failed leaf.
fn clash_at_once(
    alloc: Global,
    asked: &SolvedBook,
    goals: &Needs,
    pairs: &[Pair],
) -> Result<bool, AllocError>
    requires goals { NeedsFit (length asked.now.book.book.now.rows) goals.now }
    requires pairs { PairsFit pairs.now (length asked.now.book.book.now.rows) }
    ensures { IfOk result (λ clash. clash
        ≡ is_no (verdict_over (repository_in asked.now.book) 1 goals.now pairs.now)) }
{
    let verdict = verdict_over(alloc, asked, goals, pairs, 1)?;
    Ok(is_no(verdict))
}

/// The others of a conflict: those before it that were kept, and all after it.
fn others(alloc: Global, clashes: &[Clash], behind: &[Pair]) -> Result<Vec<Pair>, AllocError>
    ensures { IfOk result (λ made. made.items ≡ clash_pairs clashes.now ++ behind.now) }
{
    let mut made = Vec::new(alloc);
    for clash in clashes {
        made.push(Pair {
            low: clash.first,
            high: clash.second,
        })?;
    }
    made.extend_from_slice(behind)?;
    Ok(made)
}

/// Appends a conflict, unless the verdict on the others is no.
fn tell_by(clashes: &mut ClashList, pair: Pair, verdict: Verdict) -> Result<(), AllocError>
    ensures { OnOk result (clashes.new ≡ clashes.old ++ clashes_of (kept_by pair verdict)) }
{
    match verdict {
        Verdict::No => Ok(()),
        Verdict::Yes => clashes.push(Clash {
            first: pair.low,
            second: pair.high,
            unsettled: false,
        }),
        Verdict::Spent => clashes.push(Clash {
            first: pair.low,
            second: pair.high,
            unsettled: true,
        }),
    }
}

/// The conflicts among the pairs that matter for the goals.
fn reasons_among(
    alloc: Global,
    asked: &SolvedBook,
    goals: &Needs,
    pairs: &[Pair],
    budget: u64,
) -> Result<ClashList, AllocError>
    requires goals { NeedsFit (length asked.now.book.book.now.rows) goals.now }
    requires pairs { PairsFit pairs.now (length asked.now.book.book.now.rows) }
    requires budget { IsBudget budget }
    ensures { IfOk result (λ clashes. clashes ≡ clashes_of
        (kept_of (verdict_over (repository_in asked.now.book) budget goals.now) pairs.now)) }
{
    let mut clashes = ClashList::new(alloc);
    let mut at_once = clash_at_once(alloc, asked, goals, pairs)?;
    let mut block: u64 = 1;
    let mut place: usize = 0;
    while place < pairs.len() {
        let count = count_of(block, (pairs.len() - place) as u64) as usize;
        let made = others(alloc, clashes.as_slice(), &pairs[place + count..])?;
        let rest = made.as_slice();
        if count > 1 {
            // If the goals clash at once by the others of the whole block, they do by more, and no
            // pair of the block matters.
            if clash_at_once(alloc, asked, goals, rest)? {
                place += count;
                block = twice(count as u64);
                continue;
            }
            block = half(count as u64);
            continue;
        }
        let verdict = verdict_over(alloc, asked, goals, rest, budget)?;
        if at_once && is_no(verdict) {
            at_once = clash_at_once(alloc, asked, goals, rest)?;
        }
        block = block_behind(at_once, verdict);
        tell_by(&mut clashes, pairs[place], verdict)?;
        place += 1;
    }
    Ok(clashes)
}

/// The conflicts that matter for goals, each a set of packages. None if the search with all that
/// are within reach is spent.
pub(crate) fn clashes_for(
    alloc: Global,
    view: &SuiteView,
    goals: &Needs,
    budget: u64,
) -> Result<Option<ClashList>, AllocError>
    requires goals { NeedsFit (length view.now.book.rows) goals.now }
    requires budget { IsBudget budget }
    ensures { IfOk result (λ clashes. clashes ≡ option_map clashes_of
        (reasons_of (repository_of view.now.pool view.now.book) budget goals.now)) }
{
    let pool = &view.pool;
    let book = &view.book;
    let reach = reach_of(alloc, pool, book, goals)?;
    let pairs = conflicts_within(alloc, pool, book, reach.as_slice())?;
    let lent = LentBook { pool, book };
    let solver = BookSolver::new(alloc, &lent)?;
    let asked = SolvedBook { book: lent, solver };
    let verdict = verdict_over(alloc, &asked, goals, pairs.as_slice(), budget)?;
    if is_spent_verdict(verdict) {
        return Ok(None);
    }
    let clashes = reasons_among(alloc, &asked, goals, pairs.as_slice(), budget)?;
    Ok(Some(clashes))
}
