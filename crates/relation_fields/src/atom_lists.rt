//! Lists of atoms that several owners share.
ghost use Rattle.std.specs.Prelude.{◌≡◌, ◌∷◌, ◌++◌, [], IfOk, OnErr, OnOk};

use crate::relations::{Atom, Bound};
use deb_version::{Bytes, Version};
use listed::Listed;
use std::alloc::{AllocError, Global};
use std::marker::Model;
use std::rc::Rc;

/// Atoms in their order: the alternatives of an element, or the elements of `Conflicts` and
/// `Breaks`. Several owners may share one list, and none of them sees what another appends.
#[derive(Drop)]
pub struct AtomList {
    // An empty list has no block.
    shared: Option<Rc<Listed<Atom>>>,
}

impl Model for AtomList {
    ghost use Rattle.std.specs.{Prelude.{List, []}, Option.{option_map_or}};
    ghost use Rattle.relation_fields.specs.declared.relations.Atom.{Atom};

    ghost Value = { List Atom };

    ghost view = { λ s. option_map_or (λ shared. shared.value) s.shared [] };
}

impl AtomList {
    /// The empty list.
    pub fn new() -> Self
        ensures { result ≡ [] }
    {
        AtomList { shared: None }
    }

    /// Appends an atom. The list is made anew, as other owners may share it; `of` takes many atoms
    /// at once.
    pub fn push(&mut self, alloc: Global, atom: Atom) -> Result<(), AllocError>
        ensures ok { OnOk result (self.new ≡ self.old ++ atom ∷ []) }
        ensures err { OnErr result (self.new ≡ self.old) }
    {
        let mut atoms = copied(alloc, self.as_slice())?;
        atoms.push(atom)?;
        let longer = AtomList::of(alloc, Listed::of(atoms))?;
        *self = longer;
        Ok(())
    }

    /// The list of these atoms.
    pub fn of(alloc: Global, atoms: Listed<Atom>) -> Result<Self, AllocError>
        ensures { IfOk result (λ list. list ≡ atoms) }
    {
        if atoms.as_slice().is_empty() {
            return Ok(AtomList::new());
        }
        let shared = Rc::new(alloc, atoms)?;
        Ok(AtomList {
            shared: Some(shared),
        })
    }

    /// Shares the list with a further owner.
    pub fn share(&self) -> Result<Self, AllocError>
        ensures { IfOk result (λ list. list ≡ self.now) }
    {
        match &self.shared {
            Some(shared) => Ok(AtomList {
                shared: Some(shared.clone()?),
            }),
            None => Ok(AtomList { shared: None }),
        }
    }

    /// Lends the atoms in their order.
    pub fn as_slice(&self) -> &[Atom]
        ensures { result.now ≡ self.now }
    {
        match &self.shared {
            Some(shared) => shared.as_ref().as_slice(),
            None => &[],
        }
    }
}

// A copy of the atoms.
fn copied(alloc: Global, atoms: &[Atom]) -> Result<Vec<Atom>, AllocError>
    ensures { IfOk result (λ made. made.items ≡ atoms.now) }
{
    let mut made = Vec::new(alloc);
    for atom in atoms {
        made.push(copy_of(alloc, atom)?)?;
    }
    Ok(made)
}

// A copy of the atom.
fn copy_of(alloc: Global, atom: &Atom) -> Result<Atom, AllocError>
    ensures { IfOk result (λ made. made ≡ atom.now) }
{
    let name = Bytes::copy(alloc, atom.name.as_slice())?;
    let qualifier = match &atom.qualifier {
        Some(text) => Some(Bytes::copy(alloc, text.as_slice())?),
        None => None,
    };
    let bound = match &atom.bound {
        Some(bound) => Some(bound_of(alloc, bound)?),
        None => None,
    };
    Ok(Atom {
        name,
        qualifier,
        bound,
    })
}

// A copy of the restriction.
fn bound_of(alloc: Global, bound: &Bound) -> Result<Bound, AllocError>
    ensures { IfOk result (λ made. made ≡ bound.now) }
{
    match Version::parse(alloc, bound.version.text()) {
        Ok(version) => Ok(Bound {
            op: bound.op,
            version,
        }),
        // A version's text is well formed, so only memory can be missing.
        Err(_) => Err(AllocError),
    }
}
