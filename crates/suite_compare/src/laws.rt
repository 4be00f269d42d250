//! The laws of goals and verdicts: the functions do nothing, and the contract of each is one law.
ghost use Rattle.suite_compare.specs.Laws.{AnswerIsVerdict, InstallationsServe, KernelDecides};
ghost use Rattle.suite_compare.specs.Laws.{VerdictIsJudged};

/// Goals are co-installable, judged on the stanzas, exactly if some healthy set of classes has a
/// class of each goal.
pub fn kernel_decides()
    ensures { KernelDecides }
{}

/// The verdict that the search tree gives is the one that is judged on the stanzas.
#[tactic(auto, using(crate::proofs::Deciding::verdict_is_judged))]
pub fn verdict_is_judged()
    ensures { VerdictIsJudged }
{}

/// An answer on goals has the verdict that the search tree gives.
pub fn answer_is_verdict()
    ensures { AnswerIsVerdict }
{}

/// What is installed for classes that the search tree of goals finds is a healthy set of stanzas
/// with a package for each goal.
#[tactic(auto, using(crate::proofs::Installed::installations_serve))]
pub fn installations_serve()
    ensures { InstallationsServe }
{}
