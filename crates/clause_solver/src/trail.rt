//! The trail: the literals that are true so far, which can be taken back.
ghost use Rattle.std.specs.Prelude.{◌≡◌, ◌<◌, ◌≤◌, ◌+◌, ◌*◌, ◌∷◌, ◌++◌, [], length, take, false};
ghost use Rattle.std.specs.Prelude.{IfOk, OnOk, OnErr, All};
ghost use Rattle.search_terms.specs.{declared.literals.Literal.{Literal}, Marks.{flag_place}};
ghost use Rattle.clause_solver.specs.Marking.{set_of_trail, EachOnce};

use search_terms::Literal;
use std::alloc::{AllocError, Global};
use std::marker::Model;

/// The literals that are marked: a flag for each, and their order.
#[derive(Drop)]
pub(crate) struct Trail {
    classes: u32,
    flags: Vec<bool>,
    literals: Vec<Literal>,
}

impl Model for Trail {
    ghost use Rattle.std.specs.Prelude.{ℕ, List};
    ghost use Rattle.search_terms.specs.declared.literals.Literal.{Literal};
    ghost use Rattle.clause_solver.specs.Marking.{IsMarked};

    ghost Value = { ℕ × List Literal };

    ghost view = { λ s. (s.classes, s.literals.items) };

    ghost invariant = { λ s. IsMarked s.classes s.flags.items s.literals.items };
}

impl Trail {
    /// An empty trail.
    pub(crate) fn new(alloc: Global, classes: u32) -> Result<Trail, AllocError>
        ensures { IfOk result (λ trail. trail ≡ (classes, [])) }
    {
        Ok(Trail {
            classes,
            flags: vec![in alloc; false; classes as usize * 2]?,
            literals: Vec::new(alloc),
        })
    }

    /// Whether the literal is marked.
    pub(crate) fn has(&self, l: Literal) -> bool
        ensures { result ≡ set_of_trail self.now.1 l }
    {
        self.flags.get(l.place()).copied().unwrap_or(false)
    }

    /// Whether the flag is up.
    pub(crate) fn is_up(&self, flag: usize) -> bool
        ensures { (l : Literal) → flag ≡ flag_place l → result ≡ set_of_trail self.now.1 l }
    {
        self.flags.get(flag).copied().unwrap_or(false)
    }

    /// The marked literals, in their order.
    pub(crate) fn as_slice(&self) -> &[Literal]
        ensures items { result.now ≡ self.now.1 }
        ensures once { EachOnce self.now.1 }
        ensures few { length self.now.1 ≤ self.now.0 * 2 }
        ensures ranged { All (λ l. l.class < self.now.0) self.now.1 }
    {
        self.literals.as_slice()
    }

    /// Appends a literal that is not marked.
    pub(crate) fn put(&mut self, l: Literal) -> Result<(), AllocError>
        requires class { l.class < self.old.0 }
        requires new { set_of_trail self.old.1 l ≡ false }
        ensures ok { OnOk result (self.new ≡ (self.old.0, self.old.1 ++ l ∷ [])) }
        ensures err { OnErr result (self.new ≡ self.old) }
    {
        self.literals.push(l)?;
        self.flags[l.place()] = true;
        Ok(())
    }

    /// A copy of the trail.
    pub(crate) fn copy(&self, alloc: Global) -> Result<Trail, AllocError>
        ensures { IfOk result (λ trail. trail ≡ self.now) }
    {
        Ok(Trail {
            classes: self.classes,
            flags: Vec::from_slice(alloc, self.flags.as_slice())?,
            literals: Vec::from_slice(alloc, self.literals.as_slice())?,
        })
    }

    /// Takes the trail back to its first `keep` literals.
    pub(crate) fn undo(&mut self, keep: usize)
        requires { keep ≤ length self.old.1 }
        ensures { self.new ≡ (self.old.0, take keep self.old.1) }
    {
        while self.literals.len() > keep {
            let Some(l) = self.literals.pop() else {
                unreachable!();
            };
            self.flags[l.place()] = false;
        }
    }
}
