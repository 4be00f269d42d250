//! What a new suite has broken of an old one.
//!
//! Names with the same classes have the same verdicts, so kinds are asked. A pair is searched in
//! the order of its names, since the number of failed leaves may depend on it.
ghost use Rattle.std.specs.Prelude.{◌≡◌, ◌<◌, ◌++◌, [], ℕ, List, IfOk, OnOk, length};
ghost use Rattle.std.specs.{Prelude.{slice_index_or}, Option.{ForSome}};
ghost use Rattle.listed.specs.Lists.{In};
ghost use Rattle.relation_fields.specs.declared.packages.Home.{Home};
ghost use Rattle.relation_fields.specs.declared.packages.PackageFacts.{PackageFacts};
ghost use Rattle.repo_model.specs.Repository.{suite_repository};
ghost use Rattle.clause_solver.specs.{Outcomes.{IsBudget}, declared.outcomes.Verdict.{Verdict}};
ghost use Rattle.suite_compare.specs.{Asking.{verdict_in}, declared.verdicts.Bad.{Bad}};
ghost use Rattle.suite_compare.specs.{Bad.{AreAllBad}, Known.{AreKnownPairs}};
ghost use Rattle.suite_compare.specs.{Bearers.{bearer_classes, FitsKernel}, Names.{names_of_both}};
ghost use Rattle.suite_compare.specs.Comparing.{told_pairs, told_report, told_singles};
ghost use Rattle.suite_compare.specs.Comparing.{AreBothVerdicts, IsTable};
ghost use Rattle.suite_compare.specs.Partners.{old_kind, IsKindPairTable};
ghost use Rattle.suite_compare.specs.{Report.{first_told, report}, Lent.{IsLentKernel}};

use crate::few::FewNumbers;
use crate::gather::{KindPairTable, Partners, kind_pair_table, new_kind, old_kind, partners_of};
use crate::judge::Judge;
use crate::known::{KnownPairs, pairs_of};
use crate::new_side::NewSide;
use crate::old_side::OldSide;
use crate::places::name_at;
use crate::report::{LineList, Report, ReportLine, copy_of_first, finding_of};
use crate::sides::{new_side_by, new_side_of, verdict_of};
use crate::tell::{push_single, tell_pairs};
use crate::verdicts::{BadList, bad_lists, bads_at};
use crate::view::SuiteView;
use row_book::LentBook;
use std::alloc::{AllocError, Global};

/// For each pair of a kind in the old suite with one in the new, the names that are broken or open
/// beside its names.
fn all_partners(
    alloc: Global,
    old: &Judge,
    table: &KindPairTable,
    bad: &[BadList],
) -> Result<Vec<Partners>, AllocError>
    requires fits { IsKindPairTable table.now }
    requires olds { (a : ℕ) → a < length table.now.kind_pairs.old.items →
        old_kind table.now a < length old.now.kinds.items }
    requires count { length table.now.by_new.items ≡ length bad.now }
    requires bad { (k : ℕ) (b : Bad) → In b (slice_index_or bad.now k []) →
        b.kind < length bad.now }
    ensures { IfOk result (λ partners. IsTable old.now table.now bad.now partners.items) }
{
    let mut made = Vec::new(alloc);
    for kind_pair in 0..table.kind_pairs.new.len() {
        let first = old_kind(table, kind_pair);
        let kind = new_kind(table, kind_pair);
        let partners = partners_of(alloc, old, table, bads_at(bad, kind), first)?;
        made.push(partners)?;
    }
    Ok(made)
}

/// The lines of the names by themselves.
fn single_lines(alloc: Global, sides: &NewSide) -> Result<LineList, AllocError>
    ensures { (v w : List (List ℕ) → Verdict) → AreBothVerdicts sides.now v w →
        IfOk result (λ lines. lines ≡ told_singles v w sides.now.common.names.items) }
{
    let common = &sides.common;
    let mut lines = LineList::new(alloc);
    for place in 0..common.names.len() {
        let before = verdict_of(sides.old, &common.kind_of, place);
        let after = verdict_of(&sides.side, &sides.side.kind_of, place);
        let finding = finding_of(before, after);
        push_single(alloc, name_at(&common.names, place), finding, &mut lines)?;
    }
    Ok(lines)
}

/// Appends the lines of the pairs of names, by the bad kinds of each kind in the new suite.
fn put_pair_lines(
    alloc: Global,
    sides: &NewSide,
    bad: &[BadList],
    lines: &mut LineList,
) -> Result<(), AllocError>
    requires { AreAllBad sides.now.side.judge bad.now }
    ensures { (v w : List (List ℕ) → Verdict) → AreBothVerdicts sides.now v w →
        OnOk result (lines.new ≡ lines.old ++ told_pairs v w sides.now.common.names.items) }
{
    let table = kind_pair_table(alloc, sides)?;
    let partners = all_partners(alloc, &sides.old.judge, &table, bad)?;
    tell_pairs(alloc, sides, &table, &partners, lines)?;
    Ok(())
}

/// The lines of a report on the names of both sides.
fn lines_of(alloc: Global, sides: &NewSide) -> Result<LineList, AllocError>
    ensures { (v w : List (List ℕ) → Verdict) → AreBothVerdicts sides.now v w →
        IfOk result (λ lines. lines ≡ told_report v w sides.now.common.names.items) }
{
    let mut lines = single_lines(alloc, sides)?;
    let bad = bad_lists(alloc, &sides.side.judge, &sides.side.singles)?;
    put_pair_lines(alloc, sides, &bad, &mut lines)?;
    Ok(lines)
}

/// The lines of names by themselves, or those of pairs if there are none, and the judged pairs for
/// a later comparison.
#[derive(Drop)]
struct FirstLines {
    lines: LineList,
    known: Option<KnownPairs>,
}

/// The lines of a report on the names of both sides, but none of pairs if a name has a line by
/// itself. Pairs judged in an earlier comparison are reused if it asked the same.
fn first_lines_of(
    alloc: Global,
    sides: &NewSide,
    known: Option<KnownPairs>,
) -> Result<FirstLines, AllocError>
    requires { ForSome known AreKnownPairs }
    ensures lines { (v w : List (List ℕ) → Verdict) → AreBothVerdicts sides.now v w → IfOk result
        (λ made. first_told made.lines
        ≡ first_told (told_report v w sides.now.common.names.items)) }
    ensures known { IfOk result (λ made. ForSome made.known AreKnownPairs) }
{
    let mut lines = single_lines(alloc, sides)?;
    if !lines.as_slice().is_empty() {
        return Ok(FirstLines { lines, known });
    }
    let pairs = pairs_of(alloc, &sides.side.judge, &sides.side.singles, known)?;
    put_pair_lines(alloc, sides, &pairs.lists, &mut lines)?;
    Ok(FirstLines {
        lines,
        known: Some(pairs),
    })
}

/// What the new suite has broken of the old one, within a budget of failed leaves a search, from 1
/// to 1,000,000. A name of both is broken if it is not installable any more. A pair of names of
/// both is broken if each is installable in the new suite, and the two together are not any more. A
/// name or a pair is open if a search that was needed spent the budget. Both views were made at one
/// and the same clause limit, and both with hold or both without.
pub fn compare(
    alloc: Global,
    old: &SuiteView,
    new: &SuiteView,
    budget: u64,
) -> Result<Report, AllocError>
    requires budget { IsBudget budget }
    requires limit { new.now.limit ≡ old.now.limit }
    requires hold { new.now.kernel.hold ≡ old.now.kernel.hold }
    ensures { IfOk result (λ made. made.lines ≡ report
        (verdict_in old.now.limit old.now.kernel.hold
        old.now.suite.home old.now.suite.packages budget)
        (verdict_in old.now.limit old.now.kernel.hold
        new.now.suite.home new.now.suite.packages budget)
        (names_of_both old.now.suite.packages new.now.suite.packages)) }
{
    let before = OldSide::new(alloc, old, budget)?;
    let report = report_of(alloc, &before, new);
    // Its one end: a proof follows each field at every end of the body that owns it.
    drop(before);
    report
}

/// What a new suite has broken of an old one. Both views were made at one and the same clause
/// limit, and both with hold or both without.
fn report_of(alloc: Global, old: &OldSide, new: &SuiteView) -> Result<Report, AllocError>
    requires limit { new.now.limit ≡ old.now.view.now.limit }
    requires hold { new.now.kernel.hold ≡ old.now.view.now.kernel.hold }
    ensures { let view = old.now.view.now in IfOk result (λ made. made.lines ≡ report
        (verdict_in view.limit view.kernel.hold
        view.suite.home view.suite.packages old.now.budget)
        (verdict_in view.limit view.kernel.hold
        new.now.suite.home new.now.suite.packages old.now.budget)
        (names_of_both view.suite.packages new.now.suite.packages)) }
{
    let after = new_side_of(alloc, old, new)?;
    let report = report_beside(alloc, &after);
    // Its one end: a proof follows each field at every end of the body that owns it.
    drop(after);
    report
}

/// What a new side has broken of an old one.
fn report_beside(alloc: Global, sides: &NewSide) -> Result<Report, AllocError>
    ensures { (v w : List (List ℕ) → Verdict) → AreBothVerdicts sides.now v w →
        IfOk result (λ made. made.lines ≡ told_report v w sides.now.common.names.items) }
{
    let lines = lines_of(alloc, sides)?;
    Ok(Report { lines })
}

/// The first line of the report of `compare` on a new suite against an old one, or none. No two
/// names are asked together if one has a line by itself. Both views were made at one and the same
/// clause limit, and both with hold or both without.
pub fn first_line(
    alloc: Global,
    old: &OldSide,
    new: &SuiteView,
) -> Result<Option<ReportLine>, AllocError>
    requires limit { new.now.limit ≡ old.now.view.now.limit }
    requires hold { new.now.kernel.hold ≡ old.now.view.now.kernel.hold }
    ensures { let view = old.now.view.now in
        IfOk result (λ first. first ≡ first_told (report (verdict_in view.limit view.kernel.hold
        view.suite.home view.suite.packages old.now.budget) (verdict_in view.limit view.kernel.hold
        new.now.suite.home new.now.suite.packages old.now.budget)
        (names_of_both view.suite.packages new.now.suite.packages))) }
{
    let made = new_side_of(alloc, old, new)?;
    let first = first_beside(alloc, &made, None);
    // Its one end: a proof follows each field at every end of the body that owns it.
    drop(made);
    Ok(first?.line)
}

/// The first line of a comparison, or none, and the judged pairs for a later comparison.
#[derive(Drop)]
pub struct FirstLine {
    /// The line.
    pub line: Option<ReportLine>,
    /// The judged pairs, for a later comparison. If a name has a line by itself, they are those
    /// that were given.
    pub known: Option<KnownPairs>,
}

/// The first line of the report on other packages against the suite of an old side, or none. It
/// goes by the kernel of these packages, and by the classes of the packages that bear each name of
/// the old side. The kernel was made at the clause limit of the old view, and both with hold or
/// both without. Pairs judged in an earlier such comparison may be given: they save searches, and
/// change no line.
pub fn first_line_by(
    alloc: Global,
    old: &OldSide,
    kernel: &LentBook,
    classes: Vec<FewNumbers>,
    known: Option<KnownPairs>,
) -> Result<FirstLine, AllocError>
    requires fits { FitsKernel kernel.now classes.items }
    requires count { length classes.items ≡ length old.now.names }
    requires known { ForSome known AreKnownPairs }
    ensures first { let view = old.now.view.now in (home : Home) (stanzas : List PackageFacts) →
        IsLentKernel kernel.now view.limit view.kernel.hold (suite_repository home stanzas)
        → classes.items ≡ bearer_classes view.limit view.kernel.hold home stanzas old.now.names
        → IfOk result (λ made. made.line ≡ first_told (report
        (verdict_in view.limit view.kernel.hold
        view.suite.home view.suite.packages old.now.budget)
        (verdict_in view.limit view.kernel.hold home stanzas old.now.budget)
        (names_of_both view.suite.packages stanzas))) }
    ensures known { IfOk result (λ made. ForSome made.known AreKnownPairs) }
{
    let made = new_side_by(alloc, old, kernel, classes)?;
    let first = first_beside(alloc, &made, known);
    // Its one end: a proof follows each field at every end of the body that owns it.
    drop(made);
    first
}

/// The first line of what a new side has broken of an old one, or none.
fn first_beside(
    alloc: Global,
    sides: &NewSide,
    known: Option<KnownPairs>,
) -> Result<FirstLine, AllocError>
    requires { ForSome known AreKnownPairs }
    ensures first { (v w : List (List ℕ) → Verdict) → AreBothVerdicts sides.now v w →
        IfOk result (λ made. made.line
        ≡ first_told (told_report v w sides.now.common.names.items)) }
    ensures known { IfOk result (λ made. ForSome made.known AreKnownPairs) }
{
    let FirstLines { lines, known } = first_lines_of(alloc, sides, known)?;
    let line = copy_of_first(alloc, &lines)?;
    Ok(FirstLine { line, known })
}
