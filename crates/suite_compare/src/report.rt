//! What a comparison finds.
ghost use Rattle.std.specs.Prelude.{◌≡◌, IfOk};
ghost use Rattle.suite_compare.specs.Report.{finding, first_told, is_yes};

use clause_solver::Verdict;
use deb_version::Bytes;
use listed::Listed;
use std::alloc::{AllocError, Global};

/// What is found of a name, or of two names together.
#[derive(Clone, Copy, Debug, PartialEq, Eq)]
pub enum Finding {
    /// It was installable in the old suite, and is not in the new one.
    Broken,
    /// A search that was needed spent its budget.
    Open,
}

/// A line of a report.
#[derive(Drop)]
pub enum ReportLine {
    /// The name is broken.
    Broken1 {
        /// The name.
        name: Bytes,
    },
    /// The two names are broken together.
    Broken2 {
        /// The lesser name.
        first: Bytes,
        /// The greater name.
        second: Bytes,
    },
    /// The name is open.
    Open1 {
        /// The name.
        name: Bytes,
    },
    /// The two names are open together.
    Open2 {
        /// The lesser name.
        first: Bytes,
        /// The greater name.
        second: Bytes,
    },
}

/// The lines of a report, in their order.
pub type LineList = Listed<ReportLine>;

/// What a new suite has broken of an old one.
#[derive(Drop)]
pub struct Report {
    /// The lines on single names, ascending, and then those on pairs.
    pub lines: LineList,
}

/// The finding, by the verdicts in the old and in the new suite.
pub(crate) fn finding_of(old: Verdict, new: Verdict) -> Option<Finding>
    ensures { result ≡ finding old new }
{
    match new {
        Verdict::Yes => None,
        Verdict::Spent => Some(Finding::Open),
        Verdict::No => match old {
            Verdict::Yes => Some(Finding::Broken),
            Verdict::No => None,
            Verdict::Spent => Some(Finding::Open),
        },
    }
}

/// Whether the verdict is yes.
pub(crate) fn is_yes(verdict: Verdict) -> bool
    ensures { result ≡ is_yes verdict }
{
    match verdict {
        Verdict::Yes => true,
        Verdict::No => false,
        Verdict::Spent => false,
    }
}

/// A copy of the first of some lines, or none.
pub(crate) fn copy_of_first(
    alloc: Global,
    lines: &LineList,
) -> Result<Option<ReportLine>, AllocError>
    ensures { IfOk result (λ made. made ≡ first_told lines.now) }
{
    match lines.as_slice().first() {
        None => Ok(None),
        Some(first) => {
            let line = copy_of_line(alloc, first)?;
            Ok(Some(line))
        }
    }
}

/// A copy of a line.
fn copy_of_line(alloc: Global, line: &ReportLine) -> Result<ReportLine, AllocError>
    ensures { IfOk result (λ made. made ≡ line.now) }
{
    match line {
        ReportLine::Broken1 { name } => {
            let name = Bytes::copy(alloc, name.as_slice())?;
            Ok(ReportLine::Broken1 { name })
        }
        ReportLine::Broken2 { first, second } => {
            let first = Bytes::copy(alloc, first.as_slice())?;
            let second = Bytes::copy(alloc, second.as_slice())?;
            Ok(ReportLine::Broken2 { first, second })
        }
        ReportLine::Open1 { name } => {
            let name = Bytes::copy(alloc, name.as_slice())?;
            Ok(ReportLine::Open1 { name })
        }
        ReportLine::Open2 { first, second } => {
            let first = Bytes::copy(alloc, first.as_slice())?;
            let second = Bytes::copy(alloc, second.as_slice())?;
            Ok(ReportLine::Open2 { first, second })
        }
    }
}
