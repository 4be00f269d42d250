//! The program `coinst`: from words, files and streams to a status.
#![tactic(auto)]

mod answer;
mod compare;
mod compare_text;
mod deliver;
mod explain;
mod explain_text;
mod kernel;
mod lines;
mod migrate;
mod migrate_text;
mod query;
mod query_text;
mod sample;
mod stages;
mod status;
mod stored_query;
mod streams;
mod system_status;
mod system_text;
mod top;
mod views;

// A run, from words to a status.
pub use coinst_words::{Job, PathText, WordError, read_words};
pub use sample_suite::sample_text;
pub use status::Status;
pub use streams::run_streams;
pub use top::run;
