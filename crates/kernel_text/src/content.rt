//! What a line of a kernel text says.
use clause_pool::NumList;
use deb_version::{Bytes, Version};

/// A line by what it says.
#[derive(Drop)]
pub(crate) enum LineContent {
    /// The first line of a format.
    Head { format: u32 },
    /// The class with the number begins.
    Class { number: u32 },
    /// A member of the class.
    Member { name: Bytes, version: Version },
    /// The class is held.
    Held,
    /// A clause of the class.
    Needs { clause: NumList },
    /// The class conflicts with one of a greater number.
    Against { class: u32 },
    /// The numbers of class and member lines.
    End { classes: u32, members: u32 },
}
