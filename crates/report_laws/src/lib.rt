//! The laws of reports: when the answer to a command is a report, what each report says, and that a
//! stored kernel answers as its index does. The functions do nothing: the contract of each is one
//! law.
#![tactic(auto)]

ghost use Rattle.coinst_run.specs.CompareMeaning.{CompareIsMeant};
ghost use Rattle.coinst_run.specs.ExplainMeaning.{ExplainIsMeant};
ghost use Rattle.coinst_run.specs.{MigrateMeaning.{MigrateIsMeant}, QueryMeaning.{QueryIsMeant}};
ghost use Rattle.coinst_run.specs.StoredMeaning.{StoredQueryIsMeant};
ghost use Rattle.coinst_run.specs.SystemMeaning.{SystemIsMeant};
ghost use Rattle.report_laws.specs.Complete.{CompleteJobsReport};
ghost use Rattle.report_laws.specs.StoredAgrees.{StoredAnswersAsIndex, StoredImagesAreOfIndex};

/// Words that ask for a job are answered by a report exactly if its files are there, accepted and
/// within the limits, and its goals are known.
pub fn complete_jobs_report()
    ensures { CompleteJobsReport }
{}

/// What the report of a query of an index means.
pub fn query_is_meant()
    ensures { QueryIsMeant }
{}

/// What the report of a query of a stored kernel means.
pub fn stored_query_is_meant()
    ensures { StoredQueryIsMeant }
{}

/// What the report of a comparison means.
pub fn comparison_is_meant()
    ensures { CompareIsMeant }
{}

/// What the report on a plan means.
pub fn plan_is_meant()
    ensures { MigrateIsMeant }
{}

/// What the report of an explanation means.
pub fn explanation_is_meant()
    ensures { ExplainIsMeant }
{}

/// What the report on an installed system means.
pub fn system_is_meant()
    ensures { SystemIsMeant }
{}

/// In the kernel text of an index, goals name the classes of the packages that they name in the
/// index.
pub fn stored_images_are_of_index()
    ensures { StoredImagesAreOfIndex }
{}

/// The kernel text of an index answers goals as the index does. Both say yes, with classes in the
/// place of the packages that are installed for them. Or both say no with the same log, or are
/// undecided, or name the same unknown goal.
pub fn stored_answers_as_index()
    ensures { StoredAnswersAsIndex }
{}
