//! Public calls that no command shows: each is asked once, so that a body that always answers want
//! of memory is noticed. A crate of tests alone.
#![tactic(auto)]

#[cfg(test)]
mod blanked;
#[cfg(test)]
mod counts;
#[cfg(test)]
mod health;
#[cfg(test)]
mod samples;
#[cfg(test)]
mod suites;
