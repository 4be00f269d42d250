//! Plans, line by line.
use deb_version::Bytes;
use listed::Listed;
use suite_compare::ReportLine;

/// What becomes of a name that differs.
#[derive(Drop)]
pub enum PlanLine {
    /// It is taken: its packages are those of the new index.
    Take {
        /// The name.
        name: Bytes,
    },
    /// It is left, since the mix with it passes the clause limit.
    LeftLimit {
        /// The name.
        name: Bytes,
    },
    /// It is left, since the mix with it breaks something of the old index, or may.
    LeftLine {
        /// The name.
        name: Bytes,
        /// The first line of the comparison with the mix.
        line: ReportLine,
    },
}

/// The lines of a plan, in their order.
pub type PlanList = Listed<PlanLine>;

/// Which names are taken over, and which are left.
#[derive(Drop)]
pub struct Plan {
    /// A line for each name that differs, ascending by bytes.
    pub lines: PlanList,
}
