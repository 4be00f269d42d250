//! The clause of an element.
ghost use Rattle.std.specs.{Prelude.{◌≡◌, ◌∷◌, ◌↔◌, [], ℕ, IfOk}, List.{flat_map}};
ghost use Rattle.listed.specs.Lists.{Ascending, In};
ghost use Rattle.virtual_provides.specs.Bearers.{IsBuiltFrom};
ghost use Rattle.repo_model.specs.{Meeting.{meeting}, Repository.{clause_of}};

use listed::sort_once;
use relation_fields::{Atom, Home, PackageFacts};
use std::alloc::{AllocError, Global};
use virtual_provides::NameTable;

/// The clause of an element: the packages that meet one of its alternatives, which are looked up by
/// their names.
pub(crate) fn element_clause(
    alloc: Global,
    names: &NameTable,
    packages: &[PackageFacts],
    home: &Home,
    element: &[Atom],
) -> Result<Vec<u32>, AllocError>
    requires { IsBuiltFrom packages.now names.now }
    ensures { IfOk result (λ clause. clause.items ≡ clause_of home.now packages.now element.now) }
{
    match element {
        [atom] => single_clause(alloc, names, packages, home, atom),
        _ => joined_clause(alloc, names, packages, home, element),
    }
}

// The clause of an element of one alternative.
fn single_clause(
    alloc: Global,
    names: &NameTable,
    packages: &[PackageFacts],
    home: &Home,
    atom: &Atom,
) -> Result<Vec<u32>, AllocError>
    requires { IsBuiltFrom packages.now names.now }
    ensures { IfOk result (λ clause. clause.items
        ≡ clause_of home.now packages.now (atom.now ∷ [])) }
{
    names.meeting(alloc, packages, atom, home)
}

// The clause of an element with any number of alternatives.
fn joined_clause(
    alloc: Global,
    names: &NameTable,
    packages: &[PackageFacts],
    home: &Home,
    element: &[Atom],
) -> Result<Vec<u32>, AllocError>
    requires { IsBuiltFrom packages.now names.now }
    ensures { IfOk result (λ clause. clause.items ≡ clause_of home.now packages.now element.now) }
{
    let mut numbers = meeting_each(alloc, names, packages, home, element)?;
    sort_once(&mut numbers);
    Ok(numbers)
}

// The packages that meet each of the atoms, those of one atom after those of another.
fn meeting_each(
    alloc: Global,
    names: &NameTable,
    packages: &[PackageFacts],
    home: &Home,
    atoms: &[Atom],
) -> Result<Vec<u32>, AllocError>
    requires { IsBuiltFrom packages.now names.now }
    ensures { IfOk result (λ numbers. numbers.items
        ≡ flat_map (meeting home.now packages.now) atoms.now) }
{
    let mut numbers = Vec::new(alloc);
    for atom in atoms {
        let mut found = names.meeting(alloc, packages, atom, home)?;
        numbers.append(&mut found)?;
    }
    Ok(numbers)
}
