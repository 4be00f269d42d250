//! The stanzas of a Debian control file, or the first fault with its line.
#![tactic(auto)]

mod blanking;
mod check;
mod close;
mod fault;
mod fields;
mod groups;
mod laws;
mod lines;
mod names;
mod note;
mod place;
mod reading;
mod scan;
mod stanza;
mod values;

// Stanzas are read, all at once or one after another.
pub use fault::StanzaFault;
pub use place::Place;
pub use reading::{Next, next_stanza, read_stanzas};
pub use stanza::{FieldKind, FieldList, RawField, RawStanza, StanzaList};

// Texts are cut between stanzas, and stanzas are made blank.
pub use blanking::blank_lines;
pub use close::closed_front;

// Laws.
pub use laws::{
    closed_front_is_closed, closed_front_is_one, closed_texts_join, reads_in_parts,
    stanzas_in_parts,
};
