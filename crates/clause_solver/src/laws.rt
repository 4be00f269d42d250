//! The law of verdicts: the function does nothing, and its contract is the law.
ghost use Rattle.clause_solver.specs.Laws.{VerdictIsLocal};

/// A verdict, a spent budget included, depends on nothing but what the goals reach.
pub fn verdict_is_local()
    ensures { VerdictIsLocal }
{}
