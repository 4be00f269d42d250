//! What the program can be asked for.
use crate::path::PathText;
use repo_model::GoalList;

/// What the words ask for.
#[derive(Drop)]
pub enum Job {
    /// Print the kernel of an index.
    Kernel {
        /// The path of the index.
        index: PathText,
        /// Whether the kernel is printed as JSON.
        json: bool,
        /// The most clauses that a row may have, from 1 to 1,000,000.
        clause_limit: u32,
        /// Whether a package stays in the kernel if its elimination would make a row pass the
        /// clause limit.
        hold: bool,
    },
    /// Say whether one package for each goal can be installed together.
    Query {
        /// The path of the index.
        index: PathText,
        /// The goals, at least one.
        goals: GoalList,
        /// The most failed leaves of the search, from 1 to 1,000,000.
        budget: u64,
        /// The most clauses that a row may have, from 1 to 1,000,000.
        clause_limit: u32,
        /// Whether a package stays in the kernel if its elimination would make a row pass the
        /// clause limit.
        hold: bool,
    },
    /// Say on a stored kernel whether one package for each goal can be installed together.
    StoredQuery {
        /// The path of the kernel.
        kernel: PathText,
        /// The goals, at least one.
        goals: GoalList,
        /// The most failed leaves of the search, from 1 to 1,000,000.
        budget: u64,
    },
    /// List what a newer index has broken.
    Compare {
        /// The path of the older index.
        old: PathText,
        /// The path of the newer index.
        new: PathText,
        /// The most failed leaves of each search, from 1 to 1,000,000.
        budget: u64,
        /// The most clauses that a row may have, from 1 to 1,000,000.
        clause_limit: u32,
        /// Whether a package stays in the kernel if its elimination would make a row pass the
        /// clause limit.
        hold: bool,
    },
    /// Find the goals and the conflicts for which no installation has a package for each goal.
    Explain {
        /// The path of the index.
        index: PathText,
        /// The goals, at least one.
        goals: GoalList,
        /// The most failed leaves of each search, from 1 to 1,000,000.
        budget: u64,
        /// The most clauses that a row may have, from 1 to 1,000,000.
        clause_limit: u32,
        /// Whether a package stays in the kernel if its elimination would make a row pass the
        /// clause limit.
        hold: bool,
    },
    /// Compare an installed system with an index.
    Status {
        /// The path of the status file.
        file: PathText,
        /// The path of the index.
        index: PathText,
        /// The most failed leaves of each search, from 1 to 1,000,000.
        budget: u64,
        /// The most clauses that a row may have, from 1 to 1,000,000.
        clause_limit: u32,
        /// Whether a package stays in the kernel if its elimination would make a row pass the
        /// clause limit.
        hold: bool,
    },
    /// Say which names an older index can take over from a newer one with nothing broken.
    Migrate {
        /// The path of the older index.
        old: PathText,
        /// The path of the newer index.
        new: PathText,
        /// The most failed leaves of each search, from 1 to 1,000,000.
        budget: u64,
        /// The most clauses that a row may have, from 1 to 1,000,000.
        clause_limit: u32,
        /// Whether a package stays in the kernel if its elimination would make a row pass the
        /// clause limit.
        hold: bool,
    },
    /// Extract the kernel of a suite made from a number, and print its measures.
    Sample {
        /// The number that the suite is made from.
        seed: u64,
        /// How many packages the suite has, from 1 to 200,000.
        count: u32,
    },
}

/// How far a job may go.
#[derive(Clone, Copy, Debug, PartialEq, Eq)]
pub struct Settings {
    /// The most failed leaves of each search, from 1 to 1,000,000.
    pub budget: u64,
    /// The most clauses that a row may have, from 1 to 1,000,000.
    pub clause_limit: u32,
    /// Whether a package stays in the kernel if its elimination would make a row pass the clause
    /// limit.
    pub hold: bool,
}

// The settings of a job that has none of its own.
const DEFAULTS: Settings = Settings {
    budget: 10_000,
    clause_limit: 65_536,
    hold: false,
};

impl Job {
    ghost use Rattle.std.specs.Prelude.{◌≡◌};
    ghost use Rattle.coinst_words.specs.Jobs.{AreInLimits, IsInLimits, settings_of};

    /// The settings of the job; the default for each that it does not have.
    pub fn settings(&self) -> Settings
        ensures is { result ≡ settings_of self.now }
        ensures within { IsInLimits self.now → AreInLimits result }
    {
        match self {
            Job::Kernel {
                clause_limit,
                hold,
                ..
            } => Settings {
                clause_limit: *clause_limit,
                hold: *hold,
                ..DEFAULTS
            },
            Job::StoredQuery { budget, .. } => Settings {
                budget: *budget,
                ..DEFAULTS
            },
            Job::Sample { .. } => DEFAULTS,
            Job::Query {
                budget,
                clause_limit,
                hold,
                ..
            }
            | Job::Compare {
                budget,
                clause_limit,
                hold,
                ..
            }
            | Job::Explain {
                budget,
                clause_limit,
                hold,
                ..
            }
            | Job::Status {
                budget,
                clause_limit,
                hold,
                ..
            }
            | Job::Migrate {
                budget,
                clause_limit,
                hold,
                ..
            } => Settings {
                budget: *budget,
                clause_limit: *clause_limit,
                hold: *hold,
            },
        }
    }
}
