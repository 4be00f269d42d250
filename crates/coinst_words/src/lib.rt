//! The words of the command line: what each command takes, and the job that words ask for.
#![tactic(auto)]

mod error;
mod goals;
mod job;
mod jobs;
mod numbers;
mod parse;
mod path;
mod read;

// Words are read as a job, or refused.
pub use error::WordError;
pub use job::{Job, Settings};
pub use path::PathText;
pub use read::read_words;
