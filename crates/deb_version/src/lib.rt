//! Texts, package names and versions of Debian packages.
#![tactic(auto)]

mod classes;
mod cuts;
mod digits;
mod keys;
mod named;
mod names;
mod parts;
mod texts;
mod versions;

// Texts and names, and what has a name and a version.
pub use named::Named;
pub use names::is_package_name;
pub use texts::Bytes;

// Versions and their order.
pub use versions::{Version, VersionError, keys_are_shared, order_is_total};
