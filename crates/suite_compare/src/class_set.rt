//! Sets of classes that are filled and emptied again and again.
ghost use Rattle.std.specs.Prelude.{◌≡◌, ◌<◌, [], IfOk, OnOk};
ghost use Rattle.listed.specs.Lists.{has};
ghost use Rattle.suite_compare.specs.Choices.{with_class, AreBelow};

use std::alloc::{AllocError, Global};
use std::marker::Model;

/// Classes, each once, in the order in which they were added, and a flag for each class that there
/// is.
#[derive(Drop)]
pub(crate) struct ClassSet {
    flags: Vec<bool>,
    members: Vec<u32>,
}

impl Model for ClassSet {
    ghost use Rattle.std.specs.Prelude.{ℕ, List, length};
    ghost use Rattle.suite_compare.specs.Choices.{AreFlagged};

    ghost Value = { ℕ × List ℕ };

    ghost view = { λ s. (length s.flags.items, s.members.items) };

    ghost invariant = { λ s. AreFlagged s.flags.items s.members.items };
}

impl ClassSet {
    /// The empty set of `classes` classes.
    pub(crate) fn new(alloc: Global, classes: u32) -> Result<ClassSet, AllocError>
        ensures { IfOk result (λ set. set ≡ (classes, [])) }
    {
        Ok(ClassSet {
            flags: vec![in alloc; false; classes as usize]?,
            members: Vec::new(alloc),
        })
    }

    /// Whether the class is in the set.
    pub(crate) fn has(&self, class: u32) -> bool
        ensures { result ≡ has self.now.1 class }
    {
        self.flags.get(class as usize).copied().unwrap_or(false)
    }

    /// The members, in their order.
    pub(crate) fn as_slice(&self) -> &[u32]
        ensures items { result.now ≡ self.now.1 }
        ensures below { AreBelow self.now.0 result.now }
    {
        self.members.as_slice()
    }

    /// Appends the class, unless it is there already.
    pub(crate) fn put(&mut self, class: u32) -> Result<(), AllocError>
        requires { class < self.old.0 }
        ensures { OnOk result (self.new ≡ (self.old.0, with_class self.old.1 class)) }
    {
        if self.has(class) {
            return Ok(());
        }
        self.members.push(class)?;
        self.flags[class as usize] = true;
        Ok(())
    }

    /// Removes all classes.
    pub(crate) fn clear(&mut self)
        ensures { self.new ≡ (self.old.0, []) }
    {
        while let Some(class) = self.members.pop() {
            self.flags[class as usize] = false;
        }
    }
}
