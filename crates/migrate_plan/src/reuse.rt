//! What is handed on from mix to mix.
ghost use Rattle.std.specs.{Prelude.{◌≡◌, ◌<◌, false, IfOk, length}, Option.{ForSome}};
ghost use Rattle.kernel_rounds.specs.Known.{AreKnownRounds};
ghost use Rattle.suite_part.specs.{BaseRows.{AreBaseRows}, Mixes.{AreMixRows}};
ghost use Rattle.migrate_plan.specs.declared.both_suites.BothSuites.{BothSuites};
ghost use Rattle.migrate_plan.specs.BothSuites.{CanFollow, HasMixRows, IsBaseFor, IsReuse};
ghost use Rattle.migrate_plan.specs.BothSuites.{AreBothSuites, KnowsRounds};

use crate::both_suites::BothSuites;
use crate::kernels::MadeKernel;
use clause_pool::RowId;
use kernel_rounds::KnownRounds;
use std::alloc::{AllocError, Global};
use suite_compare::KnownPairs;
use suite_part::Base;

/// What is handed on from mix to mix.
#[derive(Drop)]
pub(crate) struct Reuse {
    /// The flattened rows, without hold, of the last taken mix whose rows are known; at first those
    /// of the old packages. None if the old packages pass the limit among those of both.
    pub(crate) base: Option<Base>,
    /// The judged pairs of the last comparison that judged pairs.
    pub(crate) known: Option<KnownPairs>,
    /// The rounds after the first of the last mix that was taken. As long as none is taken, they
    /// are those of the first mix with a kernel. None if there is no base.
    pub(crate) rounds: Option<KnownRounds>,
}

/// What is handed to the first mix.
pub(crate) fn first_reuse(alloc: Global, both: &BothSuites) -> Result<Reuse, AllocError>
    requires both { AreBothSuites both.now }
    requires limit { 0 < both.now.old.now.view.now.limit }
    ensures { IfOk result (IsReuse both.now) }
{
    let base = base_of(alloc, both)?;
    Ok(Reuse {
        base,
        known: None,
        rounds: None,
    })
}

// The base that the old packages make, without hold.
fn base_of(alloc: Global, both: &BothSuites) -> Result<Option<Base>, AllocError>
    requires both { AreBothSuites both.now }
    requires limit { 0 < both.now.old.now.view.now.limit }
    ensures { IfOk result (λ base. ForSome base (IsBaseFor both.now)) }
{
    let view = both.old.view;
    let base = Base::of(
        alloc,
        &both.pool,
        &both.book,
        view.suite.count(),
        view.limit,
    )?;
    Ok(base)
}

/// Keeps what a later mix can reuse. The rows of a mix, if they are known, become the base if its
/// name was taken. Its rounds after the first are stored if it was taken, or if none are stored.
/// Which are stored affects time alone.
pub(crate) fn keep(reuse: &mut Reuse, made: MadeKernel, flags: Vec<bool>, is_taken: bool)
    requires { CanFollow reuse.old.base flags.items made }
    ensures refused { is_taken ≡ false → reuse.new.base ≡ reuse.old.base }
    ensures reuse { (both : BothSuites) → IsReuse both reuse.old → KnowsRounds made →
        HasMixRows both reuse.old.base flags.items made → IsReuse both reuse.new }
{
    let MadeKernel::Beside { classified, rows } = made else {
        return;
    };
    keep_rounds(&mut reuse.rounds, classified.rounds, is_taken);
    if is_taken {
        follow(&mut reuse.base, flags, rows);
    }
}

// Keeps the rounds after the first.
fn keep_rounds(kept: &mut Option<KnownRounds>, rounds: KnownRounds, is_taken: bool)
    ensures { ForSome kept.old AreKnownRounds → AreKnownRounds rounds →
        ForSome kept.new AreKnownRounds }
{
    if is_taken || kept.is_none() {
        *kept = Some(rounds);
    }
}

// Makes the base that of a mix.
fn follow(base: &mut Option<Base>, flags: Vec<bool>, rows: Vec<RowId>)
    requires { ForSome base.old (λ before.
        AreBaseRows before.pool rows.items (length flags.items)) }
    ensures { (both : BothSuites) → ForSome base.old (IsBaseFor both) → ForSome base.old (λ before.
        AreMixRows both.pool both.book before flags.items rows.items) →
        ForSome base.new (IsBaseFor both) }
{
    if let Some(base) = base {
        base.follow(flags, rows);
    }
}
