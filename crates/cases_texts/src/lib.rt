//! Tests of files, and of calls that no command makes. They have a crate of their own, so that the
//! code that they run is not proved again for them.
#![tactic(auto)]

#[cfg(test)]
mod calls;
#[cfg(test)]
mod files;
