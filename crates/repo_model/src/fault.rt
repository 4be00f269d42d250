//! Why an index was refused.
ghost use Rattle.std.specs.Prelude.{◌≡◌};
ghost use Rattle.repo_model.specs.declared.fault.IndexFault.TheVariants.{Memory};

use stanza_reader::StanzaFault;
use std::alloc::AllocError;
use thiserror::Error;

/// What is wrong with an index, with the line, counted from 1, at which it is seen.
#[derive(Clone, Copy, Debug, PartialEq, Eq, Error)]
pub enum IndexFault {
    /// The lines of a stanza are no fields, or a field is there twice; it is never want of memory.
    #[error("{0}")]
    Stanza(StanzaFault),
    /// The stanza that begins at the line has no field `Package`.
    #[error("line {line}: no Package field")]
    MissingPackage { line: u64 },
    /// The stanza that begins at the line has no field `Version`.
    #[error("line {line}: no Version field")]
    MissingVersion { line: u64 },
    /// The field `Package` that begins at the line has a value that is no package name.
    #[error("line {line}: bad Package value")]
    BadPackage { line: u64 },
    /// The field `Version` that begins at the line has a value that is no version.
    #[error("line {line}: bad Version value")]
    BadVersion { line: u64 },
    /// The field `Architecture` that begins at the line has a value that is no name of an
    /// architecture.
    #[error("line {line}: bad Architecture value")]
    BadArchitecture { line: u64 },
    /// The relation field that begins at the line has an element, counted from 1, outside the
    /// grammar.
    #[error("line {line}: bad relation, element {element}")]
    BadRelation { line: u64, element: u32 },
    /// The stanza that begins at `line` has the name of the one that begins at `first_line`, and an
    /// equal version.
    #[error("line {line}: same package as line {first_line}")]
    Duplicate { first_line: u64, line: u64 },
    /// The field `Architecture` that begins at the line names an architecture that is neither `all`
    /// nor that of the first earlier stanza that is not of `all`.
    #[error("line {line}: second architecture")]
    Mixed { line: u64 },
    /// There are more than 200,000 stanzas.
    #[error("more than 200000 packages")]
    TooMany,
    /// No memory was found.
    #[error("out of memory")]
    Memory,
}

impl From<AllocError> for IndexFault {
    ghost from_gives = { λ _ e. e ≡ Memory };

    fn from(_e: AllocError) -> IndexFault {
        IndexFault::Memory
    }
}
