//! Elements of the relation fields of many packages. Equal ones are kept once, and shared.
ghost use Rattle.relation_fields.specs.Shared.{AreMarked, AreMarked-prop};

use crate::atom_lists::AtomList;
use std::alloc::{AllocError, Global};

/// A list of elements. An element is a list of alternatives, and equal lists are kept once. The
/// place of its list is the mark of an element.
#[derive(Drop)]
pub struct SharedElements {
    /// The lists of alternatives, in the order in which they first come.
    pub distinct: Vec<AtomList>,
    /// For each element, in order, its mark: the place of its list in `distinct`.
    pub marks: Vec<u32>,
    ghost marked: { AreMarked distinct.items marks.items } by { AreMarked-prop
        distinct.items marks.items },
}

impl SharedElements {
    ghost use Rattle.std.specs.Prelude.{◌≡◌, ◌∷◌, ◌++◌, ◌<◌, [], length, slice_index_or, OnOk};
    ghost use Rattle.std.specs.Prelude.{OnErr};
    ghost use Rattle.relation_fields.specs.Elements.{elements_of, HasRoom};

    /// No elements.
    pub fn new(alloc: Global) -> Self
        ensures elements { elements_of result ≡ [] }
        ensures distinct { result.distinct.items ≡ [] }
    {
        SharedElements {
            distinct: Vec::new(alloc),
            marks: Vec::new(alloc),
        }
    }

    /// Makes room for one more element.
    pub fn reserve(&mut self) -> Result<(), AllocError>
        ensures room { OnOk result (HasRoom self.new) }
        ensures distinct { self.new.distinct.items ≡ self.old.distinct.items }
        ensures marks { self.new.marks.items ≡ self.old.marks.items }
        ensures full { OnErr result (HasRoom self.old → ⊥) }
    {
        if self.distinct.len() > u32::MAX as usize {
            return Err(AllocError);
        }
        self.distinct.reserve(1)?;
        self.marks.reserve(1)
    }

    /// Appends an element whose list is not there yet, and the list with it. Memory is taken only
    /// if no room was reserved.
    pub fn push(&mut self, said: AtomList) -> Result<(), AllocError>
        ensures elements { OnOk result (elements_of self.new ≡ elements_of self.old ++ said ∷ []) }
        ensures distinct { OnOk result (self.new.distinct.items
            ≡ self.old.distinct.items ++ said ∷ []) }
        ensures err { OnErr result (self.new.distinct.items ≡ self.old.distinct.items) }
        ensures full { OnErr result (HasRoom self.old → ⊥) }
    {
        self.reserve()?;
        let mark = self.distinct.len() as u32;
        self.distinct.push(said)?;
        self.marks.push(mark)?;
        Ok(())
    }

    /// Appends an element whose list is there already, at this place.
    pub fn push_again(&mut self, place: usize) -> Result<(), AllocError>
        requires { place < length self.old.distinct.items }
        ensures elements { OnOk result (elements_of self.new
            ≡ elements_of self.old ++ slice_index_or self.old.distinct.items place [] ∷ []) }
        ensures distinct { self.new.distinct.items ≡ self.old.distinct.items }
    {
        let Ok(mark) = u32::try_from(place) else {
            return Err(AllocError);
        };
        self.marks.push(mark)?;
        Ok(())
    }
}
