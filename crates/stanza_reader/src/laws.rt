//! The laws of texts that are read in parts.

ghost use Rattle.stanza_reader.specs.Close.{ClosedFrontIsClosed, ClosedFrontIsOne, ClosedTextsJoin};
ghost use Rattle.stanza_reader.specs.Close.{ReadsInParts, StanzasInParts};

/// A text reads as its two parts, one after the other, if the first part is closed.
pub fn reads_in_parts()
    ensures { ReadsInParts }
{}

/// The stanzas of a text, or its first fault, are those of its two parts, if the first part is
/// closed.
pub fn stanzas_in_parts()
    ensures { StanzasInParts }
{}

/// The closed front of a text is closed.
pub fn closed_front_is_closed()
    ensures { ClosedFrontIsClosed }
{}

/// The closed front of a text reads as one stanza or as its fault.
pub fn closed_front_is_one()
    ensures { ClosedFrontIsOne }
{}

/// Two closed texts, one after the other, are a closed text.
pub fn closed_texts_join()
    ensures { ClosedTextsJoin }
{}
