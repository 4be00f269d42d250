//! What a command answers: a report, or why there is none.
use crate::status::Status;
use coinst_words::{PathText, WordError};
use std::alloc::AllocError;

/// What a report says as a whole.
#[derive(Clone, Copy, Debug, PartialEq, Eq)]
pub enum ReportVerdict {
    /// Done; yes; nothing broken and nothing open; a system that stands; every name taken.
    Done,
    /// No; a core; something broken; a system that does not stand; a name left since something
    /// would be broken.
    Negative,
    /// A search spent its budget; names left, and none for something broken.
    Undecided,
}

impl ReportVerdict {
    ghost use Rattle.std.specs.Prelude.{◌≡◌};
    ghost use Rattle.coinst_run.specs.Status.{verdict_status};

    /// The status of a run whose report was written whole.
    pub fn status(&self) -> Status
        ensures { result ≡ verdict_status self.now }
    {
        match self {
            ReportVerdict::Done => Status::Done,
            ReportVerdict::Negative => Status::Negative,
            ReportVerdict::Undecided => Status::Undecided,
        }
    }
}

/// What was refused.
#[derive(Clone, Copy, Debug, PartialEq, Eq)]
pub enum Cause {
    /// The content of a file, or two indexes of different architectures.
    Content,
    /// A package with more clauses than the limit allows.
    ClauseLimit,
    /// A goal that names no package, or no member of a stored kernel.
    UnknownGoal,
    /// A file that is too long or has too many packages, or a plan that is too large.
    TooLarge,
}

impl Cause {
    ghost use Rattle.std.specs.Prelude.{◌≡◌};
    ghost use Rattle.coinst_run.specs.Status.{cause_status};

    /// The status of a run that refused for this cause.
    pub fn status(&self) -> Status
        ensures { result ≡ cause_status self.now }
    {
        match self {
            Cause::Content => Status::Content,
            Cause::ClauseLimit => Status::ClauseLimit,
            Cause::UnknownGoal => Status::UnknownGoal,
            Cause::TooLarge => Status::TooLarge,
        }
    }
}

/// A report, made whole before its first byte is written.
#[derive(Drop)]
pub struct Report {
    /// What it says as a whole.
    pub verdict: ReportVerdict,
    /// Its bytes.
    pub text: Vec<u8>,
}

/// Why there is no report.
#[derive(Drop)]
pub enum Stop {
    /// The words are no command of the program.
    NotACommand,
    /// Something was refused.
    Refused {
        /// What was refused.
        cause: Cause,
        /// The line that says so, with its line feed.
        line: Vec<u8>,
    },
    /// The file at a path could not be read.
    Unread {
        /// The path.
        path: PathText,
    },
    /// No memory was found.
    Memory,
}

impl Report {
    ghost use Rattle.std.specs.Prelude.{◌≡◌};

    /// A report that says this as a whole, with these bytes.
    pub(crate) fn of(verdict: ReportVerdict, text: Vec<u8>) -> Self
        ensures { result ≡ record { verdict = verdict; text = text } }
    {
        Report { verdict, text }
    }
}

impl Stop {
    ghost use Rattle.std.specs.Prelude.{◌≡◌, ℕ, IfOk, IfSome, List};
    ghost use Rattle.coinst_run.specs.{Answer.{refused}, Ending.{stop_ending}, Outcome.{answered}};

    /// The refusal of a cause with the line that says so, unless no memory was found for the line.
    pub(crate) fn refused(cause: Cause, line: Result<Vec<u8>, AllocError>) -> Self
        ensures { (text : List ℕ) → IfOk line (λ line. line.items ≡ text) →
            IfSome (stop_ending result) (λ outcome. outcome ≡ answered (refused cause text)) }
    {
        match line {
            Ok(line) => Stop::Refused { cause, line },
            Err(_) => Stop::Memory,
        }
    }
}

impl From<AllocError> for Stop {
    ghost use Rattle.std.specs.Prelude.{◌≡◌};
    ghost use Rattle.coinst_run.specs.declared.answer.Stop.TheVariants.{Memory};

    ghost from_gives = { λ _ e. e ≡ Memory };

    fn from(_error: AllocError) -> Self {
        Stop::Memory
    }
}

impl From<WordError> for Stop {
    ghost use Rattle.std.specs.Prelude.{◌≡◌};
    ghost use Rattle.coinst_run.specs.Ending.{word_stop};

    ghost from_gives = { λ error e. e ≡ word_stop error };

    fn from(error: WordError) -> Self {
        match error {
            WordError::NotACommand => Stop::NotACommand,
            WordError::Memory => Stop::Memory,
        }
    }
}
