//! Elements that were read, so that equal ones are read once.
//!
//! Their texts are found by a hash in a table that is in one piece, so an element takes no block of
//! its own.
ghost use Rattle.std.specs.Prelude.{◌≡◌, ◌∷◌, ◌++◌, [], Some, IfOk, IfSome, OnOk};
ghost use Rattle.std.specs.Option.{option_to_list};
ghost use Rattle.list_table.specs.Hash.{hash_of_bytes};
ghost use Rattle.relation_fields.specs.{Elements.{elements_of}, Shared.{none_behind, behind_both}};
ghost use Rattle.relation_fields.specs.Grammar.{alternatives_of};

use crate::atom_lists::AtomList;
use crate::elements::{ElementReader, read_alternatives};
use crate::shared::SharedElements;
use list_table::{Item, ListTable};
use listed::trim_front;
use std::alloc::{AllocError, Global};
use std::marker::Model;

/// A reader of elements, each a list of alternatives, as `NeedReader` reads them. An element that
/// was read before is not read again: its list is shared. The table keeps which elements were read,
/// in their order.
#[derive(Drop)]
pub struct ElementTable {
    texts: ListTable<u8>,
    // What each of the texts says, and which of them were read.
    read: SharedElements,
}

impl Model for ElementTable {
    ghost use Rattle.std.specs.Prelude.{◌≡◌, List, Some, map};
    ghost use Rattle.relation_fields.specs.{Elements.{elements_of}, Grammar.{alternatives_of}};
    ghost use Rattle.relation_fields.specs.declared.relations.Atom.{Atom};

    ghost Value = { List (List Atom) };

    ghost view = { λ s. elements_of s.read };

    ghost invariant = { λ s. map alternatives_of s.texts
        ≡ map (λ said. Some said) s.read.distinct.items };
}

impl ElementTable {
    /// A table without elements.
    pub fn new(alloc: Global) -> Self
        ensures { result ≡ [] }
    {
        ElementTable {
            texts: ListTable::new(alloc),
            read: SharedElements::new(alloc),
        }
    }

    /// The elements that were read.
    pub fn into_elements(self) -> SharedElements
        ensures { elements_of result ≡ self }
    {
        let ElementTable { read, .. } = self;
        read
    }

    // Reads an element whose text was read before, if it was.
    fn read_again(&mut self, hash: u32, text: &[u8]) -> Result<Option<AtomList>, AllocError>
        requires { hash ≡ hash_of_bytes text.now }
        ensures said { IfOk result (λ found.
            IfSome found (λ said. alternatives_of text.now ≡ Some said)) }
        ensures read { IfOk result (λ found. self.new ≡ self.old ++ option_to_list found) }
    {
        let Some(place) = self.texts.find(hash, text) else {
            return Ok(None);
        };
        let said = self.read.distinct[place as usize].share()?;
        self.read.push_again(place as usize)?;
        Ok(Some(said))
    }

    // Adds what the text says.
    fn put(&mut self, hash: u32, text: &[u8], said: AtomList) -> Result<(), AllocError>
        requires hash { hash ≡ hash_of_bytes text.now }
        requires said { alternatives_of text.now ≡ Some said }
        ensures { OnOk result (self.new ≡ self.old ++ said ∷ []) }
    {
        // Room comes first, so that there are as many texts as lists.
        self.read.reserve()?;
        self.texts.push(hash, text)?;
        self.read.push(said)
    }
}

impl ElementReader for ElementTable {
    type Said = AtomList;

    ghost reading = { alternatives_of };

    ghost reads = { λ before said after. after ≡ before ++ said };

    ghost reads_none = { none_behind };

    ghost reads_on = { behind_both };

    #[tactic(auto, using(crate::proofs::Trimmed::trimmed_read))]
    fn read(&mut self, alloc: Global, element: &[u8]) -> Result<Option<AtomList>, AllocError> {
        let text = trim_front(element);
        let hash = <u8 as Item>::hash(text);
        if let Some(said) = self.read_again(hash, text)? {
            return Ok(Some(said));
        }
        let Some(said) = read_alternatives(alloc, text)? else {
            return Ok(None);
        };
        self.put(hash, text, said.share()?)?;
        Ok(Some(said))
    }
}
