//! Views of suites, what goals ask of them, and what a new suite has broken of an old one.
#![tactic(auto)]

mod answers;
mod ask;
mod bearers;
mod choose;
mod class_set;
mod comparison;
mod decision;
mod few;
mod gather;
mod install;
mod judge;
mod kinds;
mod known;
mod laws;
mod lent;
mod listing_laws;
mod new_side;
mod old_side;
mod places;
mod refusals;
mod report;
mod side;
mod sides;
mod suspect;
mod tell;
mod verdicts;
mod view;
mod view_of;

// A view: a suite with its kernel.
pub use refusals::{LimitError, ViewError};
pub use view::SuiteView;

// What goals ask of a view, and the answer.
pub use answers::{Answer, DecideError};
pub use ask::image_of;
pub use decision::decide;

// What a new suite has broken of an old one.
pub use bearers::{bearers_of, classes_of_chosen};
pub use comparison::{FirstLine, compare, first_line, first_line_by};
pub use few::FewNumbers;
pub use known::KnownPairs;
pub use old_side::OldSide;
pub use report::{Finding, LineList, Report, ReportLine};

// Laws.
pub use laws::{answer_is_verdict, installations_serve, kernel_decides, verdict_is_judged};
pub use listing_laws::{
    empty_list_loses_nothing, names_are_theirs, one_list_is_exact, report_lists_exactly,
    without_open_lines,
};
