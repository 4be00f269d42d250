//! Whether two packages say the same. If this holds of the packages of a name, the name does not
//! differ between the two indexes, and no mix is made for it.
ghost use Rattle.std.specs.{Prelude.{◌≡◌}, Cmp.Lexicographic.{pointwise}, Option.{option_eq}};
ghost use Rattle.std.specs.Str.{bytes_eq};
ghost use Rattle.migrate_plan.specs.Differing.{is_same_atom, is_same_bound, is_same_provide};
ghost use Rattle.migrate_plan.specs.Differing.{op_place, says_same};

use deb_version::{Bytes, Version};
use relation_fields::{Atom, AtomList, Bound, Op, PackageFacts, Provide};

/// Whether two packages have the same text of a version, and the same needs, conflicts and provides
/// in the same order.
#[tactic(auto, unfolding(crate::specs::Differing::says_same))]
pub(crate) fn says_same(one: &PackageFacts, other: &PackageFacts) -> bool
    ensures { result ≡ says_same one.now other.now }
{
    one.version.text() == other.version.text()
        && are_same_needs(one.needs.as_slice(), other.needs.as_slice())
        && are_same_atoms(one.against.as_slice(), other.against.as_slice())
        && are_same_provides(one.provides.as_slice(), other.provides.as_slice())
}

fn are_same_needs(one: &[AtomList], other: &[AtomList]) -> bool
    ensures { result ≡ pointwise (pointwise is_same_atom) one.now other.now }
{
    if one.len() != other.len() {
        return false;
    }
    for place in 0..one.len() {
        if !are_same_atoms(one[place].as_slice(), other[place].as_slice()) {
            return false;
        }
    }
    true
}

fn are_same_atoms(one: &[Atom], other: &[Atom]) -> bool
    ensures { result ≡ pointwise is_same_atom one.now other.now }
{
    if one.len() != other.len() {
        return false;
    }
    for place in 0..one.len() {
        if !is_same_atom(&one[place], &other[place]) {
            return false;
        }
    }
    true
}

fn are_same_provides(one: &[Provide], other: &[Provide]) -> bool
    ensures { result ≡ pointwise is_same_provide one.now other.now }
{
    if one.len() != other.len() {
        return false;
    }
    for place in 0..one.len() {
        if !is_same_provide(&one[place], &other[place]) {
            return false;
        }
    }
    true
}

fn is_same_atom(one: &Atom, other: &Atom) -> bool
    ensures { result ≡ is_same_atom one.now other.now }
{
    one.name.as_slice() == other.name.as_slice()
        && is_same_qualifier(&one.qualifier, &other.qualifier)
        && is_same_restriction(&one.bound, &other.bound)
}

fn is_same_provide(one: &Provide, other: &Provide) -> bool
    ensures { result ≡ is_same_provide one.now other.now }
{
    one.name.as_slice() == other.name.as_slice()
        && is_same_qualifier(&one.qualifier, &other.qualifier)
        && is_same_version(&one.version, &other.version)
}

fn is_same_qualifier(one: &Option<Bytes>, other: &Option<Bytes>) -> bool
    ensures { result ≡ option_eq bytes_eq one.now other.now }
{
    match one {
        Some(text) => match other {
            Some(second) => text.as_slice() == second.as_slice(),
            None => false,
        },
        None => other.is_none(),
    }
}

fn is_same_version(one: &Option<Version>, other: &Option<Version>) -> bool
    ensures { result ≡ option_eq bytes_eq one.now other.now }
{
    match one {
        Some(version) => match other {
            Some(second) => version.text() == second.text(),
            None => false,
        },
        None => other.is_none(),
    }
}

fn is_same_restriction(one: &Option<Bound>, other: &Option<Bound>) -> bool
    ensures { result ≡ option_eq is_same_bound one.now other.now }
{
    match one {
        Some(bound) => match other {
            Some(second) => is_same_bound(bound, second),
            None => false,
        },
        None => other.is_none(),
    }
}

fn is_same_bound(one: &Bound, other: &Bound) -> bool
    ensures { result ≡ is_same_bound one.now other.now }
{
    op_place(one.op) == op_place(other.op) && one.version.text() == other.version.text()
}

// The place of an operator in the list of operators, by which two operators are compared.
fn op_place(op: Op) -> u8
    ensures { result ≡ op_place op }
{
    match op {
        Op::Earlier => 0,
        Op::EarlierEqual => 1,
        Op::Exactly => 2,
        Op::LaterEqual => 3,
        Op::Later => 4,
    }
}
