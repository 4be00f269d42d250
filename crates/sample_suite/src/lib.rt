//! Suites made from a number: an index of up to 200,000 packages that are drawn, which is always
//! accepted.
#![tactic(auto)]

mod draws;
mod laws;
mod package;
mod push_stanza;
#[cfg(test)]
mod tests;
mod text;

// A sample is written.
pub use text::sample_text;

// Laws.
pub use laws::samples_are_accepted;
