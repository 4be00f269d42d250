//! Tests that run whole commands over files and streams in memory. They have a crate of their own,
//! so that the code that they run is not proved again for them.
#![tactic(auto)]

#[cfg(test)]
mod runs;
