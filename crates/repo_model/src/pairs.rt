//! The pairs of packages that conflict.
ghost use Rattle.std.specs.Prelude.{◌≡◌, ◌≤◌, ◌<◌, ℕ, IfOk, OnOk, length, take};
ghost use Rattle.row_book.specs.Book.{are_paired, PairsFit};
ghost use Rattle.virtual_provides.specs.Bearers.{IsBuiltFrom};
ghost use Rattle.package_register.specs.Numbers.{numbers_where};
ghost use Rattle.repo_model.specs.Pairs.{is_named, pair_of, Adds, IsAgainst, IsPairWith};
ghost use Rattle.repo_model.specs.{Repository.{in_conflict}, Stanzas.{stanza_at}};
ghost use Rattle.repo_model.specs.Limits.{most_packages};

use relation_fields::{Atom, Home, PackageFacts};
use row_book::Pair;
use std::alloc::{AllocError, Global};
use virtual_provides::NameTable;

/// The pairs of packages that conflict; a pair may be there twice. Only packages of one name are
/// paired, and a package with those that meet one of its conflicts.
pub(crate) fn conflict_pairs(
    alloc: Global,
    names: &NameTable,
    packages: &[PackageFacts],
    home: &Home,
) -> Result<Vec<Pair>, AllocError>
    requires built { IsBuiltFrom packages.now names.now }
    requires few { length packages.now ≤ most_packages }
    ensures fit { IfOk result (λ pairs. PairsFit pairs.items (length packages.now)) }
    ensures conflicts { IfOk result (λ pairs. (p q : ℕ) → p < length packages.now →
        q < length packages.now →
        are_paired pairs.items p q ≡ in_conflict home.now packages.now p q) }
{
    let mut pairs = Vec::new(alloc);
    for (place, facts) in packages.iter().enumerate() {
        let number = place as u32;
        let earlier = earlier_named(alloc, names, packages, place)?;
        push_pairs(&mut pairs, number, &earlier)?;
        let against = facts.against.as_slice();
        push_against(alloc, &mut pairs, names, packages, home, number, against)?;
    }
    Ok(pairs)
}

// The numbers of the packages before a package that have its name.
fn earlier_named(
    alloc: Global,
    names: &NameTable,
    packages: &[PackageFacts],
    place: usize,
) -> Result<Vec<u32>, AllocError>
    requires built { IsBuiltFrom packages.now names.now }
    requires few { length packages.now ≤ 200000 }
    requires place { place < length packages.now }
    ensures { IfOk result (λ found. found.items
        ≡ numbers_where (is_named (stanza_at packages.now place).name) (take place packages.now)) }
{
    names.named(alloc, &packages[..place], packages[place].name.as_slice())
}

// Appends the pairs of the package and those that meet one of the atoms.
fn push_against(
    alloc: Global,
    pairs: &mut Vec<Pair>,
    names: &NameTable,
    packages: &[PackageFacts],
    home: &Home,
    number: u32,
    atoms: &[Atom],
) -> Result<(), AllocError>
    requires { IsBuiltFrom packages.now names.now }
    ensures { OnOk result
        (Adds (IsAgainst home.now packages.now number atoms.now) pairs.old.items pairs.new.items) }
{
    for atom in atoms {
        let others = names.meeting(alloc, packages, atom, home)?;
        push_pairs(pairs, number, &others)?;
    }
    Ok(())
}

// Appends the pairs of the package and each other one of these.
fn push_pairs(pairs: &mut Vec<Pair>, number: u32, others: &[u32]) -> Result<(), AllocError>
    ensures { OnOk result (Adds (IsPairWith number others.now) pairs.old.items pairs.new.items) }
{
    for other in others {
        if *other != number {
            pairs.push(pair_of(number, *other))?;
        }
    }
    Ok(())
}

// The pair of two packages.
fn pair_of(first: u32, second: u32) -> Pair
    ensures { result ≡ pair_of first second }
{
    Pair {
        low: first.min(second),
        high: first.max(second),
    }
}
