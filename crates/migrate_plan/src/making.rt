//! Makes a plan: which names of a newer index can be taken over into an older one.
ghost use Rattle.std.specs.Prelude.{◌≡◌, ◌<◌, ◌≤◌, ◌++◌, ◌∷◌, ℕ, List, [], None, length, map, IfOk};
ghost use Rattle.std.specs.Prelude.{IfErr, OnOk};
ghost use Rattle.clause_solver.specs.Outcomes.{IsBudget};
ghost use Rattle.repo_model.specs.{Feeding.{IsSuiteOf}, Limits.{most_bytes, most_packages}};
ghost use Rattle.listed.specs.Lists.{In};
ghost use Rattle.migrate_plan.specs.{Differing.{differing}, Indexes.{AreMeasured, AreTexts, Texts}};
ghost use Rattle.migrate_plan.specs.Plan.{line_behind, lines_behind, plan, plan_settings, taken_in};
ghost use Rattle.migrate_plan.specs.Promises.{AreRight, MixesAreIndexes, TakesSafely, planned_name};
ghost use Rattle.migrate_plan.specs.Refusals.{RefusesPlan, packages_with, plan_refusal};
ghost use Rattle.migrate_plan.specs.BothSuites.{names_between, settings_between, AreTextsOf};
ghost use Rattle.migrate_plan.specs.BothSuites.{IsReuse, AreBothSuites};
ghost use Rattle.migrate_plan.specs.declared.plan.PlanLine.{PlanLine};
ghost use Rattle.suite_compare.specs.Refusals.{packages_in};

use crate::both_suites::{BothSuites, both_suites_of};
use crate::checks::{check_homes, check_length, check_names, check_packages};
use crate::differing::differing_names;
use crate::lengths::TextLengths;
use crate::mixing::{is_same_home, mix_with, suite_of};
use crate::parting::{flags_in, line_in};
use crate::plan::{Plan, PlanLine, PlanList};
use crate::refusals::PlanError;
use crate::reuse::{Reuse, first_reuse};
use crate::trying::line_of;
use deb_version::Bytes;
use repo_model::Suite;
use std::alloc::{AllocError, Global};
use suite_compare::{OldSide, SuiteView};

/// Which of the names that differ can be taken over from a new index into an old one. Each is tried
/// in turn, ascending by bytes, in the mix of the two with it and the names taken before. It is
/// taken if this mix is within the clause limit, breaks nothing of the old index and leaves nothing
/// open. Each search has a budget of failed leaves, from 1 to 1,000,000. The old view is that of
/// the old bytes at the clause limit, with hold or without; the new suite is that of the new bytes.
/// At most 256 names may differ; for each of them a mix is made, reduced and compared.
pub fn make_plan(
    alloc: Global,
    old_bytes: &[u8],
    old: &SuiteView,
    new_bytes: &[u8],
    new: &Suite,
    limit: u32,
    hold: bool,
    budget: u64,
) -> Result<Plan, PlanError>
    requires old_short { length old_bytes.now ≤ most_bytes }
    requires old { IsSuiteOf old_bytes.now old.now.suite.packages old.now.suite.home.name }
    requires old_limit { old.now.limit ≡ limit }
    requires old_hold { old.now.kernel.hold ≡ hold }
    requires new_short { length new_bytes.now ≤ most_bytes }
    requires new { IsSuiteOf new_bytes.now new.now.packages new.now.home.name }
    requires limit { 0 < limit }
    requires budget { IsBudget budget }
    ensures refused { IfErr result (λ error.
        RefusesPlan error (plan_refusal old_bytes.now new_bytes.now)) }
    ensures accepted { OnOk result (plan_refusal old_bytes.now new_bytes.now ≡ None) }
    ensures plan { IfOk result (λ made. made.lines
        ≡ plan (plan_settings budget limit hold) old_bytes.now new_bytes.now) }
    ensures mixes { OnOk result (MixesAreIndexes old_bytes.now new_bytes.now) }
    ensures names { IfOk result (λ made. map planned_name made.lines
        ≡ differing (packages_in old_bytes.now) (packages_in new_bytes.now)) }
    ensures each { IfOk result (λ made.
        AreRight (plan_settings budget limit hold) old_bytes.now new_bytes.now [] made.lines) }
    ensures safely { IfOk result (λ made.
        TakesSafely (plan_settings budget limit hold) old_bytes.now new_bytes.now made.lines) }
{
    let lengths = lengths_of(old_bytes, new_bytes);
    plan_between(alloc, old, new, lengths, budget)
}

// How long the two texts are.
fn lengths_of(old: &[u8], new: &[u8]) -> TextLengths
    ensures old { result.old ≡ length old.now }
    ensures new { result.new ≡ length new.now }
{
    TextLengths {
        old: old.len() as u64,
        new: new.len() as u64,
    }
}

/// The plan that `make_plan` makes, by the lengths of the two texts, which need not be kept. The
/// old view is that of the old text, and the new suite that of the new one; the clause limit and
/// hold are those of the view. The budget of failed leaves a search is from 1 to 1,000,000. The
/// error is the first refusal of the two texts, or want of memory.
pub fn plan_between(
    alloc: Global,
    old: &SuiteView,
    new: &Suite,
    lengths: TextLengths,
    budget: u64,
) -> Result<Plan, PlanError>
    requires old_short { lengths.old ≤ most_bytes }
    requires new_short { lengths.new ≤ most_bytes }
    requires limit { 0 < old.now.limit }
    requires budget { IsBudget budget }
    ensures refused { IfErr result (λ error. (texts : Texts) →
        AreMeasured texts old.now.suite new.now lengths →
        RefusesPlan error (plan_refusal texts.old texts.new)) }
    ensures accepted { OnOk result ((texts : Texts) →
        AreMeasured texts old.now.suite new.now lengths → plan_refusal texts.old texts.new ≡ None) }
    ensures plan { let settings = plan_settings budget old.now.limit old.now.kernel.hold in
        IfOk result (λ made. (texts : Texts) → AreMeasured texts old.now.suite new.now lengths →
        made.lines ≡ plan settings texts.old texts.new) }
    ensures mixes { OnOk result ((texts : Texts) → AreMeasured texts old.now.suite new.now lengths →
        MixesAreIndexes texts.old texts.new) }
    ensures names { IfOk result (λ made. (texts : Texts) →
        AreMeasured texts old.now.suite new.now lengths →
        map planned_name made.lines ≡ differing (packages_in texts.old) (packages_in texts.new)) }
    ensures each { let settings = plan_settings budget old.now.limit old.now.kernel.hold in
        IfOk result (λ made. (texts : Texts) → AreMeasured texts old.now.suite new.now lengths →
        AreRight settings texts.old texts.new [] made.lines) }
    ensures safely { let settings = plan_settings budget old.now.limit old.now.kernel.hold in
        IfOk result (λ made. (texts : Texts) → AreMeasured texts old.now.suite new.now lengths →
        TakesSafely settings texts.old texts.new made.lines) }
{
    check_homes(&old.suite.home, &new.home)?;
    let found = differing_names(alloc, &old.suite, new)?;
    let names = found.as_slice();
    check_names(names)?;
    check_packages(alloc, &old.suite, new, names)?;
    check_length(lengths.old, lengths.new)?;
    let lines = lines_of(alloc, old, new, names, budget)?;
    Ok(Plan { lines })
}

// The lines of the names that differ, one after the other.
fn lines_of(
    alloc: Global,
    old: &SuiteView,
    new: &Suite,
    names: &[Bytes],
    budget: u64,
) -> Result<PlanList, AllocError>
    requires names { names.now ≡ differing old.now.suite.packages new.now.packages }
    requires few { packages_with old.now.suite.packages new.now.packages names.now ≤ most_packages }
    requires limit { 0 < old.now.limit }
    requires budget { IsBudget budget }
    ensures { let settings = plan_settings budget old.now.limit old.now.kernel.hold in
        IfOk result (λ lines. (texts : Texts) → AreTexts texts old.now.suite new.now →
        lines ≡ lines_behind (line_behind settings texts.old texts.new) [] names.now) }
{
    let side = OldSide::new(alloc, old, budget)?;
    let lines = lines_by_side(alloc, &side, new, names);
    // Its one end: a proof follows each field at every end of the body that owns it.
    drop(side);
    lines
}

// The lines, by the side of the old view.
fn lines_by_side(
    alloc: Global,
    old: &OldSide,
    new: &Suite,
    names: &[Bytes],
) -> Result<PlanList, AllocError>
    requires names { names.now ≡ differing old.now.view.now.suite.packages new.now.packages }
    requires few { packages_with old.now.view.now.suite.packages new.now.packages names.now
        ≤ most_packages }
    requires limit { 0 < old.now.view.now.limit }
    ensures { let settings = plan_settings old.now.budget old.now.view.now.limit
        old.now.view.now.kernel.hold in
        IfOk result (λ lines. (texts : Texts) → AreTexts texts old.now.view.now.suite new.now →
        lines ≡ lines_behind (line_behind settings texts.old texts.new) [] names.now) }
{
    let both = both_suites_of(alloc, old, new, names)?;
    let lines = lines_by_mixes(alloc, &both, names);
    // Its one end: a proof follows each field at every end of the body that owns it.
    drop(both);
    lines
}

// The lines, by what all mixes are made of.
fn lines_by_mixes(alloc: Global, both: &BothSuites, names: &[Bytes]) -> Result<PlanList, AllocError>
    requires both { AreBothSuites both.now }
    requires names { names.now ≡ names_between both.now }
    requires limit { 0 < both.now.old.now.view.now.limit }
    ensures { IfOk result (λ lines. (texts : Texts) → AreTextsOf texts both.now →
        lines ≡ lines_behind
        (line_behind (settings_between both.now) texts.old texts.new) [] names.now) }
{
    let mut reuse = first_reuse(alloc, both)?;
    let lines = lines_in_turn(alloc, both, names, &mut reuse);
    // Its one end: a proof follows each field at every end of the body that owns it.
    drop(reuse);
    lines
}

// The lines, by what is handed on from mix to mix.
fn lines_in_turn(
    alloc: Global,
    both: &BothSuites,
    names: &[Bytes],
    reuse: &mut Reuse,
) -> Result<PlanList, AllocError>
    requires both { AreBothSuites both.now }
    requires names { names.now ≡ names_between both.now }
    requires limit { 0 < both.now.old.now.view.now.limit }
    requires reuse { IsReuse both.now reuse.old }
    ensures { IfOk result (λ lines. (texts : Texts) → AreTextsOf texts both.now →
        lines ≡ lines_behind
        (line_behind (settings_between both.now) texts.old texts.new) [] names.now) }
{
    let mut lines = PlanList::new(alloc);
    let mut taken = Vec::new(alloc);
    for name in names {
        let line = try_name(alloc, both, taken.as_slice(), name.as_slice(), reuse)?;
        put_taken(alloc, &mut taken, &line)?;
        lines.push(line)?;
    }
    Ok(lines)
}

// The line of a name after lines that take these names.
fn try_name(
    alloc: Global,
    both: &BothSuites,
    taken: &[Bytes],
    name: &[u8],
    reuse: &mut Reuse,
) -> Result<PlanLine, AllocError>
    requires both { AreBothSuites both.now }
    requires taken { (other : List ℕ) → In other taken.now → In other (names_between both.now) }
    requires name { In name.now (names_between both.now) }
    requires limit { 0 < both.now.old.now.view.now.limit }
    requires reuse { IsReuse both.now reuse.old }
    ensures named { IfOk result (λ line. planned_name line ≡ name.now) }
    ensures line { IfOk result (λ line. (texts : Texts) → AreTextsOf texts both.now →
        (lines : List PlanLine) → taken.now ≡ taken_in lines →
        line ≡ line_behind (settings_between both.now) texts.old texts.new lines name.now) }
    ensures reuse { OnOk result (IsReuse both.now reuse.new) }
{
    let suite = &both.old.view.suite;
    let mix = mix_with(alloc, suite, both.new, taken, name)?;
    if is_same_home(&mix.home, &both.home) {
        let flags = flags_in(alloc, &mix.left, &mix.kept, &both.added)?;
        let found = line_in(alloc, both, flags, name, reuse)?;
        return Ok(found);
    }
    // If no package of that architecture is in the mix, packages meet each other in another way
    // than in the whole.
    let made = suite_of(alloc, suite, both.new, mix)?;
    let line = line_of(alloc, both.old, made, name)?;
    Ok(line)
}

// Appends the name to the taken ones, if the line takes it.
fn put_taken(alloc: Global, taken: &mut Vec<Bytes>, line: &PlanLine) -> Result<(), AllocError>
    ensures { OnOk result (taken.new.items ≡ taken.old.items ++ taken_in (line.now ∷ [])) }
{
    match line {
        PlanLine::Take { name } => {
            taken.push(Bytes::copy(alloc, name.as_slice())?)?;
            Ok(())
        }
        PlanLine::LeftLimit { name: _ } => Ok(()),
        PlanLine::LeftLine { name: _, line: _ } => Ok(()),
    }
}
