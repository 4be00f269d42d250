//! How long two texts are, so that they need not be kept.

/// How many bytes the text of an old index has, and that of a new one.
#[derive(Clone, Copy)]
pub struct TextLengths {
    /// The bytes of the old text.
    pub old: u64,
    /// The bytes of the new text.
    pub new: u64,
}
