//! A suite: the packages of an index, or its first fault, and the repository of the packages.
#![tactic(auto)]

mod blank;
mod building;
mod choose;
mod clauses;
mod copying;
mod facts;
mod fault;
mod feed;
mod fields;
mod goals;
mod laws;
mod names;
mod pairs;
mod picked;
mod plain;
mod progress;
mod ranks;
mod reading;
mod relations;
mod repository;
mod rows;
mod select;
mod suite;

// A suite: the packages of an index, read whole or piece by piece.
pub use fault::IndexFault;
pub use feed::SuiteFeed;
pub use picked::suite_of_picked;
pub use suite::{PackageList, Suite, read_suite};

// Goals, and the packages that they name.
pub use goals::{Goal, GoalError, GoalList};
pub use names::{LentName, LentNames, NameList, distinct_names};

// The repository in plain lists, for those who check answers.
pub use plain::{PlainRepository, are_coinstallable, plain_repository};

// Fields and architectures of a stanza.
pub use facts::is_all;
pub use fields::find_field;

// Laws.
pub use laws::{health_is_kept, lines_are_ignored, repository_is_of_packages};
