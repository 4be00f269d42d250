//! The report on an installed system against an index.

use deb_version::Bytes;
use listed::Listed;

/// An own package of a status file: one that is installed and not foreign to the index.
#[derive(Drop)]
pub struct HaveLine {
    /// The name of the package.
    pub name: Bytes,
    /// The version of the package, as the status file writes it.
    pub version: Bytes,
    /// Whether the index has a package of that name and an equal version.
    pub had: bool,
}

/// Own packages in the order of the file.
pub type HaveList = Listed<HaveLine>;

/// Whether the own packages are a healthy set, or the first reason why not.
#[derive(Clone, Copy, Debug, PartialEq, Eq)]
pub enum OwnState {
    /// Every need of every own package is met, and no two of them conflict.
    Healthy,
    /// The least own package with a need that none of them meets.
    Unhit {
        /// The number of the package, from 0.
        package: u32,
    },
    /// Every need is met, and these are the first two own packages that conflict.
    Clash {
        /// The number of the lesser one, from 0.
        first: u32,
        /// The number of the greater one.
        second: u32,
    },
}

/// Whether the packages that the index has can be installed from it together.
#[derive(Clone, Copy, Debug, PartialEq, Eq)]
pub enum SuiteState {
    /// They can.
    Yes,
    /// They cannot.
    No,
    /// The search tree has more failed leaves than the budget allows.
    Spent {
        /// The failed leaves that were met: one more than the budget.
        failed: u64,
    },
}

/// The report on an installed system against an index.
#[derive(Drop)]
pub struct StatusReport {
    /// The own packages, in the order of the file.
    pub lines: HaveList,
    /// How many installed packages are of another architecture than `all` and the home of the
    /// index.
    pub foreign: u64,
    /// Whether the own packages are a healthy set, by what the file says of them.
    pub own: OwnState,
    /// Whether those that the index has can be installed from it together.
    pub verdict: SuiteState,
}
