//! Relations between Debian packages: what a relation field says, and when a package meets an atom
//! of it.
#![tactic(auto)]

mod atom_lists;
mod atoms;
mod elements;
mod fields;
mod grammar;
mod meeting;
mod packages;
mod relations;
mod shared;
mod table;
mod texts;

// What a relation field says.
pub use fields::{RelationError, parse_against, parse_needs, parse_provides, read_elements};
pub use relations::{Atom, Bound, ElementList, Op, Provide, ProvideList};

// Elements that are read once.
pub use atom_lists::AtomList;
pub use elements::{AtomReader, ElementReader, NeedReader, ProvideReader};
pub use shared::SharedElements;
pub use table::ElementTable;

// Packages that meet atoms.
pub use packages::{Home, PackageFacts};

// The grammar.
pub use grammar::{is_architecture, readings_are_spellings};
