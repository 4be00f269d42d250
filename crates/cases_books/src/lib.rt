//! In proofs/ the definitions of flattening are computed on small repositories, and laws that do
//! not hold are refuted. This has a crate of its own, so that no other crate proves it again.
#![tactic(auto)]
