//! The statuses with which the program ends.

/// How a run ended; its code is the exit status of the program.
#[derive(Clone, Copy, Debug, PartialEq, Eq)]
pub enum Status {
    /// 0: done; yes; nothing broken and nothing open; a system that stands, by itself and from the
    /// index; every name taken.
    Done,
    /// 1: no; a core; something broken; a system that does not stand; a name left since something
    /// would be broken.
    Negative,
    /// 2: the words are no command of the program.
    Words,
    /// 3: a fault in the content of a file, or two indexes of different architectures.
    Content,
    /// 4: the clause limit was passed.
    ClauseLimit,
    /// 5: a file could not be read.
    ReadFault,
    /// 6: the report could not be written whole.
    WriteFault,
    /// 7: no memory was found.
    Memory,
    /// 8: a search spent its budget; names left, and none for something broken.
    Undecided,
    /// 9: a goal names no package, or no member of a stored kernel.
    UnknownGoal,
    /// 10: a file is too long or has too many packages, or a plan is too large.
    TooLarge,
}

impl Status {
    ghost use Rattle.std.specs.Prelude.{◌≡◌};
    ghost use Rattle.coinst_run.specs.Status.{code_of};

    /// The exit status, from 0 to 10.
    pub fn code(&self) -> u8
        ensures { result ≡ code_of self.now }
    {
        match self {
            Status::Done => 0,
            Status::Negative => 1,
            Status::Words => 2,
            Status::Content => 3,
            Status::ClauseLimit => 4,
            Status::ReadFault => 5,
            Status::WriteFault => 6,
            Status::Memory => 7,
            Status::Undecided => 8,
            Status::UnknownGoal => 9,
            Status::TooLarge => 10,
        }
    }
}
