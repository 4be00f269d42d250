//! The laws of elimination and of the flattened repository.

ghost use Rattle.clause_flatten.specs.FlatLaws.{CoreIsReached, CoreStays, FlatByStages, FlatKeeps};
ghost use Rattle.clause_flatten.specs.FlatLaws.{HeldIsUsed, HoldStaysWithin, NextIsLeast};
ghost use Rattle.clause_flatten.specs.FlatLaws.{PassesByStages, StagesRun, TableStep, WithoutHold};

/// A set is co-installable in the flattened repository exactly if it is in the repository.
pub fn flat_keeps()
    ensures { FlatKeeps }
{}

/// The package that is taken out next is the one without conflicts, and not held, whose row has the
/// fewest clauses, and of these the one of least number.
pub fn next_is_least()
    ensures { NextIsLeast }
{}

/// The core has the packages with a conflict and those that are held, and no others.
pub fn core_stays()
    ensures { CoreStays }
{}

/// A held package has no conflict, and some clause names it.
pub fn held_is_used()
    ensures { HeldIsUsed }
{}

/// With hold no step makes a row pass the limit.
pub fn hold_stays_within()
    ensures { HoldStaysWithin }
{}

/// Without hold no package is held, and the limit does not change which packages are left.
pub fn without_hold()
    ensures { WithoutHold }
{}

/// The core is what is left once no package can be taken out any more.
pub fn core_is_reached()
    ensures { CoreIsReached }
{}

/// Substitution in all rows gives the next table of rows.
pub fn table_step()
    ensures { TableStep }
{}

/// An elimination that only looks at its table of rows takes out and holds the same packages at
/// each stage. It has the same rows over those that are left.
pub fn stages_run()
    ensures { StagesRun }
{}

/// The flattened repository has the table of rows of the last stage.
pub fn flat_by_stages()
    ensures { FlatByStages }
{}

/// The clause limit is passed at the same stage and by the same row as in the tables of the stages.
pub fn passes_by_stages()
    ensures { PassesByStages }
{}
