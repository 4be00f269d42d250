//! The line of a plan for one name. The packages of the name's mix are given by flags over all
//! packages that mixes are made of.
ghost use Rattle.std.specs.Prelude.{◌≡◌, ◌<◌, ◌++◌, Option, Some, None, false, length, IfOk, OnOk};
ghost use Rattle.std.specs.{List.{items_where_true}, Option.{ForSome, option_map}};
ghost use Rattle.kernel_rounds.specs.Known.{AreKnownRounds};
ghost use Rattle.row_book.specs.Book.{repository_of, Sound};
ghost use Rattle.suite_compare.specs.{Known.{AreKnownPairs}, Report.{first_told}};
ghost use Rattle.suite_part.specs.declared.base.Base.{Base};
ghost use Rattle.migrate_plan.specs.Trying.{outcome_by, told_of};
ghost use Rattle.migrate_plan.specs.declared.kernels.MadeKernel.TheVariants.{Beside};
ghost use Rattle.migrate_plan.specs.BothSuites.{packages_of_both, settings_between, HasMixRows};
ghost use Rattle.migrate_plan.specs.BothSuites.{IsBaseFor, IsReuse, IsKernelAt, IsMadeKernel};
ghost use Rattle.migrate_plan.specs.BothSuites.{AreBothSuites, KnowsRounds};

use crate::both_suites::BothSuites;
use crate::kernels::{MadeKernel, classes_in, lent_kernel};
use crate::plan::PlanLine;
use crate::reuse::{Reuse, keep};
use crate::trying::plan_line;
use clause_pool::{Pool, RowId};
use deb_version::Bytes;
use kernel_rounds::{Classified, KnownRounds, RoundError, classes_of_part, extract};
use std::alloc::{AllocError, Global};
use suite_compare::{FirstLine, ReportLine, classes_of_chosen, first_line_by};
use suite_part::{Base, Subset, part_of};

/// For each package of both suites whether it is in a mix: those of the old suite come first, and
/// of the new one only those that were added.
pub(crate) fn flags_in(
    alloc: Global,
    left: &[bool],
    kept: &[bool],
    added: &[bool],
) -> Result<Vec<bool>, AllocError>
    requires { length added.now ≡ length kept.now }
    ensures { IfOk result (λ flags. flags.items ≡ left.now ++ items_where_true added.now kept.now) }
{
    let mut flags = Vec::from_slice(alloc, left)?;
    for (place, is_kept) in kept.iter().enumerate() {
        let is_one = added[place];
        if !is_one {
            continue;
        }
        flags.push(*is_kept)?;
    }
    Ok(flags)
}

/// The line of a name whose mix has those packages of both suites whose flags are up.
pub(crate) fn line_in(
    alloc: Global,
    both: &BothSuites,
    flags: Vec<bool>,
    name: &[u8],
    reuse: &mut Reuse,
) -> Result<PlanLine, AllocError>
    requires limit { 0 < both.now.old.now.view.now.limit }
    requires both { AreBothSuites both.now }
    requires flags { length flags.items ≡ length (packages_of_both both.now) }
    requires reuse { IsReuse both.now reuse.old }
    ensures line { let before = both.now.old.now.view.now in
        IfOk result (λ line. line
        ≡ outcome_by (settings_between both.now) before.suite.home before.suite.packages
        both.now.home (items_where_true flags.items (packages_of_both both.now)) name.now) }
    ensures reuse { OnOk result (IsReuse both.now reuse.new) }
{
    let Some(made) = kernel_in(alloc, both, &flags, reuse)? else {
        let name = Bytes::copy(alloc, name)?;
        return Ok(PlanLine::LeftLimit { name });
    };
    let told = mix_line_by(alloc, both, &flags, &made, reuse)?;
    keep(reuse, made, flags, told.is_none());
    plan_line(alloc, name, told)
}

// The first line of the comparison of a mix with the old side, by the kernel of the mix.
fn mix_line_by(
    alloc: Global,
    both: &BothSuites,
    flags: &[bool],
    made: &MadeKernel,
    reuse: &mut Reuse,
) -> Result<Option<ReportLine>, AllocError>
    requires both { AreBothSuites both.now }
    requires flags { length flags.now ≡ length (packages_of_both both.now) }
    requires kernel { let before = both.now.old.now.view.now in IsMadeKernel before.limit
        before.kernel.hold (repository_of both.now.pool both.now.book) flags.now made.now }
    requires known { ForSome reuse.old.known AreKnownPairs }
    ensures told { let before = both.now.old.now.view.now in
        IfOk result (λ told. told
        ≡ first_told (told_of (settings_between both.now) before.suite.home before.suite.packages
        both.now.home (items_where_true flags.now (packages_of_both both.now)))) }
    ensures base { reuse.new.base ≡ reuse.old.base }
    ensures rounds { reuse.new.rounds ≡ reuse.old.rounds }
    ensures known { OnOk result (ForSome reuse.new.known AreKnownPairs) }
{
    let kernel = lent_kernel(made);
    let classes = classes_of_chosen(alloc, classes_in(made), &both.named, flags)?;
    let first = first_line_by(alloc, both.old, &kernel, classes, reuse.known.take());
    let FirstLine { line, known } = first?;
    reuse.known = known;
    Ok(line)
}

// The kernel of a mix, at the limit and hold of the old view; none if it passes the clause limit.
fn kernel_in(
    alloc: Global,
    both: &BothSuites,
    flags: &[bool],
    reuse: &mut Reuse,
) -> Result<Option<MadeKernel>, AllocError>
    requires limit { 0 < both.now.old.now.view.now.limit }
    requires book { Sound both.now.pool both.now.book }
    requires flags { length flags.now ≡ length both.now.book.rows }
    requires reuse { IsReuse both.now reuse.old }
    ensures kernel { let before = both.now.old.now.view.now in IfOk result (IsKernelAt before.limit
        before.kernel.hold (repository_of both.now.pool both.now.book) flags.now) }
    ensures known { IfOk result (λ made. ForSome made KnowsRounds) }
    ensures rows { IfOk result (λ made.
        ForSome made (HasMixRows both.now reuse.new.base flags.now)) }
    ensures reuse { IsReuse both.now reuse.new }
{
    match &mut reuse.base {
        Some(base) => kernel_by(alloc, both, flags, base, &mut reuse.rounds),
        None => kernel_alone(alloc, both, flags),
    }
}

// The kernel of a mix, by what is known of a part of both suites. If no row of the mix passes the
// limit without hold, hold changes neither the kernel nor a class.
fn kernel_by(
    alloc: Global,
    both: &BothSuites,
    flags: &[bool],
    base: &mut Base,
    rounds: &mut Option<KnownRounds>,
) -> Result<Option<MadeKernel>, AllocError>
    requires limit { 0 < both.now.old.now.view.now.limit }
    requires book { Sound both.now.pool both.now.book }
    requires flags { length flags.now ≡ length both.now.book.rows }
    requires base { IsBaseFor both.now base.old }
    requires rounds { ForSome rounds.old AreKnownRounds }
    ensures kernel { let before = both.now.old.now.view.now in IfOk result (IsKernelAt before.limit
        before.kernel.hold (repository_of both.now.pool both.now.book) flags.now) }
    ensures known { IfOk result (λ made. ForSome made KnowsRounds) }
    ensures rows { IfOk result (λ made.
        ForSome made (HasMixRows both.now (Some base.new) flags.now)) }
    ensures base { IsBaseFor both.now base.new }
    ensures rounds { ForSome rounds.new AreKnownRounds }
{
    match kernel_beside(alloc, both, flags, base, rounds)? {
        Some(made) => Ok(Some(made)),
        None => kernel_over(alloc, both, flags),
    }
}

// The kernel of a mix that passes the limit without hold.
fn kernel_over(
    alloc: Global,
    both: &BothSuites,
    flags: &[bool],
) -> Result<Option<MadeKernel>, AllocError>
    requires limit { 0 < both.now.old.now.view.now.limit }
    requires book { Sound both.now.pool both.now.book }
    requires flags { length flags.now ≡ length both.now.book.rows }
    requires over { IsKernelAt both.now.old.now.view.now.limit false
        (repository_of both.now.pool both.now.book) flags.now None }
    ensures kernel { let before = both.now.old.now.view.now in IfOk result (IsKernelAt before.limit
        before.kernel.hold (repository_of both.now.pool both.now.book) flags.now) }
    ensures known { IfOk result (λ made. ForSome made KnowsRounds) }
    ensures rows { (base : Option Base) →
        IfOk result (λ made. ForSome made (HasMixRows both.now base flags.now)) }
{
    if !both.old.view.kernel.hold {
        return Ok(None);
    }
    kernel_alone(alloc, both, flags)
}

// The kernel of a mix without hold, by the rows of the base and those that have changed; none if it
// passes the clause limit.
fn kernel_beside(
    alloc: Global,
    both: &BothSuites,
    flags: &[bool],
    base: &mut Base,
    rounds: &mut Option<KnownRounds>,
) -> Result<Option<MadeKernel>, AllocError>
    requires limit { 0 < both.now.old.now.view.now.limit }
    requires book { Sound both.now.pool both.now.book }
    requires flags { length flags.now ≡ length both.now.book.rows }
    requires base { IsBaseFor both.now base.old }
    requires rounds { ForSome rounds.old AreKnownRounds }
    ensures kernel { IfOk result (IsKernelAt both.now.old.now.view.now.limit false
        (repository_of both.now.pool both.now.book) flags.now) }
    ensures known { IfOk result (λ made. ForSome made KnowsRounds) }
    ensures rows { IfOk result (λ made.
        ForSome made (HasMixRows both.now (Some base.new) flags.now)) }
    ensures base { IsBaseFor both.now base.new }
    ensures rounds { ForSome rounds.new AreKnownRounds }
{
    let Some(rows) = base.rows_in(alloc, &both.pool, &both.book, flags)? else {
        return Ok(None);
    };
    let limit = both.old.view.limit;
    let masked = base.masked(&rows, &both.book, flags);
    let made = classes_of_part(alloc, &masked, limit, rounds)?;
    Ok(beside(made, rows))
}

// The kernel with the rows of its mix.
fn beside(made: Option<Classified>, rows: Vec<RowId>) -> Option<MadeKernel>
    ensures { result ≡ option_map (λ classified. Beside classified rows) made }
{
    match made {
        Some(classified) => Some(MadeKernel::Beside { classified, rows }),
        None => None,
    }
}

// The kernel of a mix at the limit and hold of the old view, from the book of the mix; none if it
// passes the clause limit.
fn kernel_alone(
    alloc: Global,
    both: &BothSuites,
    flags: &[bool],
) -> Result<Option<MadeKernel>, AllocError>
    requires limit { 0 < both.now.old.now.view.now.limit }
    requires book { Sound both.now.pool both.now.book }
    requires flags { length flags.now ≡ length both.now.book.rows }
    ensures kernel { let before = both.now.old.now.view.now in IfOk result (IsKernelAt before.limit
        before.kernel.hold (repository_of both.now.pool both.now.book) flags.now) }
    ensures known { IfOk result (λ made. ForSome made KnowsRounds) }
    ensures rows { (base : Option Base) →
        IfOk result (λ made. ForSome made (HasMixRows both.now base flags.now)) }
{
    let chosen = Subset::of(alloc, Vec::from_slice(alloc, flags)?)?;
    let mut pool = Pool::new(alloc)?;
    let book = part_of(alloc, &mut pool, &both.pool, &both.book, &chosen)?;
    let view = both.old.view;
    let kernel = match extract(alloc, &mut pool, &book, view.limit, view.kernel.hold) {
        Ok(kernel) => kernel,
        Err(RoundError::Limit { .. }) => return Ok(None),
        Err(RoundError::Memory) => return Err(AllocError),
    };
    let class_of = chosen.spread(alloc, kernel.class_of.as_slice())?;
    Ok(Some(MadeKernel::Own {
        pool,
        kernel,
        class_of,
    }))
}
