//! The laws of explanations: the functions do nothing, and the contract of each is one law.
ghost use Rattle.explain_core.specs.Laws.{ReachIsLeast};
ghost use Rattle.explain_core.specs.OnStanzas.{ExplanationsAreTellable, ExplanationsHold};

/// The test of the packages within reach is the least set that has the packages of the goals and,
/// with a package, the members of its clauses.
pub fn reach_is_least()
    ensures { ReachIsLeast }
{}

/// What an explanation says of goals and of conflicts holds on the stanzas alone.
pub fn explanations_hold()
    ensures { ExplanationsHold }
{}

/// An explanation names goals that were asked and packages that are there.
pub fn explanations_are_tellable()
    ensures { ExplanationsAreTellable }
{}
