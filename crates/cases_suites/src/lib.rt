//! Tests of calls that no command makes, and of what pools and rounds keep. They have a crate of
//! their own, so that the code that they run is not proved again for them. Whole commands are cases
//! of `conformance/cases`. Each function owns few values, since at each `?` in it all of them are
//! dropped.
#![tactic(auto)]

#[cfg(test)]
mod choices;
#[cfg(test)]
mod logs;
#[cfg(test)]
mod plans;
#[cfg(test)]
mod pools;
#[cfg(test)]
mod rounds;
#[cfg(test)]
mod samples;
#[cfg(test)]
mod taking_out;
