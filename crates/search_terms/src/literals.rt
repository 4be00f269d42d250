//! Signed classes and lists of them.
ghost use Rattle.std.specs.Prelude.{◌≡◌, map, IfOk};
ghost use Rattle.search_terms.specs.Closure.{negation};

use listed::Listed;
use std::alloc::{AllocError, Global};

/// A class with a sign: that it is chosen, or that it is not.
#[derive(Clone, Copy, Debug, PartialEq, Eq)]
pub struct Literal {
    /// The number of the class.
    pub class: u32,
    /// Whether the class is chosen.
    pub positive: bool,
}

/// A list of signed classes: a sentence, an entry of a log, or decisions.
pub type LiteralList = Listed<Literal>;

/// The entries of a log.
pub type EntryList = Listed<LiteralList>;

/// A refutation: each entry follows by unit steps from the formula and the entries before it.
#[derive(Drop)]
pub struct Log {
    /// The entries in their order; in a refutation the last one is empty.
    pub entries: EntryList,
}

impl Literal {
    ghost use Rattle.std.specs.Prelude.{◌≡◌};
    ghost use Rattle.search_terms.specs.{Closure.{negation, is_same}, Marks.{flag_place}};

    /// The class with the other sign.
    pub fn negation(self) -> Literal
        ensures { result ≡ negation self }
    {
        Literal {
            class: self.class,
            positive: !self.positive,
        }
    }

    /// Whether both are one.
    pub fn is_same(self, other: Literal) -> bool
        ensures { result ≡ is_same self other }
    {
        self.class == other.class
            && if self.positive {
                other.positive
            } else {
                !other.positive
            }
    }

    /// The place of the literal among flags, two for each class.
    pub fn place(self) -> usize
        ensures { result ≡ flag_place self }
    {
        self.class as usize * 2 + if self.positive { 1 } else { 0 }
    }
}

/// The literals with their other signs.
pub fn negated(alloc: Global, literals: &[Literal]) -> Result<Vec<Literal>, AllocError>
    ensures { IfOk result (λ v. v.items ≡ map negation literals.now) }
{
    literals.iter().map(|l| l.negation()).collect(alloc)
}
