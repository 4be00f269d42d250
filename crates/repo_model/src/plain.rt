//! The repository of a suite as plain lists, and co-installability in the plainest way: for tests
//! of the fast ways.
ghost use Rattle.std.specs.Prelude.{◌≡◌, ◌≤◌, ◌<◌, ◌↔◌, ℕ, [], IfOk, IsTrue, OnOk, map, length};
ghost use Rattle.std.specs.{Prelude.{slice_index_or, true, false, ◌||◌}, Str.{bytes_eq}};
ghost use Rattle.relation_fields.specs.Meeting.{meets};
ghost use Rattle.clause_pool.specs.Clauses.{comes_before, in_row_order, insert_clause};
ghost use Rattle.listed.specs.Lists.{has};
ghost use Rattle.repo_model.specs.Repository.{clause_of, conflicting_with, in_conflict, meets_any};
ghost use Rattle.repo_model.specs.Repository.{packages_of, row_of, stands_against};
ghost use Rattle.repo_model.specs.Repository.{suite_repository};
ghost use Rattle.repo_model.specs.{Stanzas.{stanza_at, CoinstStanzas}, Limits.{most_packages}};

use crate::suite::Suite;
use clause_pool::is_before;
use listed::Listed;
use relation_fields::{Atom, AtomList, Home, PackageFacts};
use row_book::{ClauseList, NumList, is_coinst};
use std::alloc::{AllocError, Global};

/// For each package, by its number, its clauses and the packages that conflict with it.
#[derive(Drop)]
pub struct PlainRepository {
    /// The clauses of each package, in order.
    pub clauses: Listed<ClauseList>,
    /// The packages that conflict with each package, ascending.
    pub conflicts: Listed<NumList>,
}

/// The repository of a suite. For tests: time is quadratic in the packages.
pub fn plain_repository(alloc: Global, suite: &Suite) -> Result<PlainRepository, AllocError>
    ensures clauses { IfOk result (λ plain. plain.clauses
        ≡ (suite_repository suite.now.home suite.now.packages).clauses) }
    ensures conflicts { IfOk result (λ plain. plain.conflicts
        ≡ (suite_repository suite.now.home suite.now.packages).conflicts) }
{
    repository(alloc, &suite.home, suite.packages.as_slice())
}

/// Whether the packages with the numbers can be installed together, judged on their stanzas. For
/// tests: time is exponential in the packages.
#[tactic(auto, using(crate::proofs::Healthy::coinst_plain))]
pub fn are_coinstallable(alloc: Global, suite: &Suite, wanted: &[u32]) -> Result<bool, AllocError>
    ensures { IfOk result (λ r. IsTrue r
        ↔ CoinstStanzas suite.now.home suite.now.packages (has wanted.now)) }
{
    let plain = plain_repository(alloc, suite)?;
    is_coinst(
        alloc,
        plain.clauses.as_slice(),
        plain.conflicts.as_slice(),
        wanted,
    )
}

#[tactic(auto, unfolding(crate::specs::Repository::suite_repository))]
fn repository(
    alloc: Global,
    home: &Home,
    stanzas: &[PackageFacts],
) -> Result<PlainRepository, AllocError>
    requires { length stanzas.now ≤ most_packages }
    ensures clauses { IfOk result (λ plain. plain.clauses
        ≡ (suite_repository home.now stanzas.now).clauses) }
    ensures conflicts { IfOk result (λ plain. plain.conflicts
        ≡ (suite_repository home.now stanzas.now).conflicts) }
{
    Ok(PlainRepository {
        clauses: rows(alloc, home, stanzas)?,
        conflicts: conflicts(alloc, home, stanzas)?,
    })
}

// How many stanzas there are.
fn count(stanzas: &[PackageFacts]) -> u32
    requires { length stanzas.now ≤ most_packages }
    ensures { result ≡ length stanzas.now }
{
    stanzas.len() as u32
}

// Whether the stanza meets one of the atoms.
fn meets_any(home: &Home, stanza: &PackageFacts, atoms: &[Atom]) -> bool
    ensures { result ≡ meets_any home.now atoms.now stanza.now }
{
    atoms.iter().any(|atom| atom.met_by(stanza, home))
}

// Whether the stanza with the number meets an alternative of the element.
#[tactic(auto, using(crate::proofs::Numbers::same_stanza))]
fn meets_at(home: &Home, stanzas: &[PackageFacts], number: u32, element: &[Atom]) -> bool
    requires { number < length stanzas.now }
    ensures { result ≡ meets_any home.now element.now (stanza_at stanzas.now number) }
{
    meets_any(home, &stanzas[number as usize], element)
}

// The clause of an element.
fn clause(
    alloc: Global,
    home: &Home,
    stanzas: &[PackageFacts],
    element: &[Atom],
) -> Result<NumList, AllocError>
    requires { length stanzas.now ≤ most_packages }
    ensures { IfOk result (λ c. c ≡ clause_of home.now stanzas.now element.now) }
{
    let mut clause = NumList::new(alloc);
    for number in 0..count(stanzas) {
        if meets_at(home, stanzas, number, element) {
            clause.push(number)?;
        }
    }
    Ok(clause)
}

// The first place whose clause does not come before the given one.
fn place_of(row: &[NumList], clause: &[u32]) -> usize
    ensures within { result ≤ length row.now }
    ensures before { (k : ℕ) → k < result →
        comes_before (slice_index_or row.now k []) clause.now ≡ true }
    ensures stop { result < length row.now →
        comes_before (slice_index_or row.now result []) clause.now ≡ false }
{
    for (place, other) in row.iter().enumerate() {
        if !is_before(other.as_slice(), clause) {
            return place;
        }
    }
    row.len()
}

// Whether the clause comes before the one at a place.
#[tactic(auto, using(crate::proofs::Places::same_clause))]
fn is_before_place(clause: &[u32], row: &[NumList], place: usize) -> bool
    requires { place < length row.now }
    ensures { result ≡ comes_before clause.now (slice_index_or row.now place []) }
{
    is_before(clause, row[place].as_slice())
}

// Puts a clause into its place among clauses in order, if it is not there yet.
#[tactic(auto, using(crate::proofs::Places::placed_same, crate::proofs::Places::placed_new))]
fn place(row: &mut Vec<NumList>, clause: NumList) -> Result<(), AllocError>
    ensures { OnOk result (row.new.items ≡ insert_clause clause row.old.items) }
{
    let place = place_of(row.as_slice(), clause.as_slice());
    if place < row.len() && !is_before_place(clause.as_slice(), row.as_slice(), place) {
        return Ok(());
    }
    row.insert(place, clause)?;
    Ok(())
}

// The distinct clauses of the elements, in order.
fn row(
    alloc: Global,
    home: &Home,
    stanzas: &[PackageFacts],
    elements: &[AtomList],
) -> Result<ClauseList, AllocError>
    requires { length stanzas.now ≤ most_packages }
    ensures { IfOk result (λ r. r
        ≡ in_row_order (map (clause_of home.now stanzas.now) elements.now)) }
{
    let mut row = Vec::new(alloc);
    let mut left = elements.len();
    while left > 0 {
        left -= 1;
        place(
            &mut row,
            clause(alloc, home, stanzas, elements[left].as_slice())?,
        )?;
    }
    Ok(ClauseList::of(row))
}

// The clauses of the package with the number.
#[tactic(auto, using(crate::proofs::Numbers::same_stanza))]
fn row_at(
    alloc: Global,
    home: &Home,
    stanzas: &[PackageFacts],
    number: u32,
) -> Result<ClauseList, AllocError>
    requires few { length stanzas.now ≤ most_packages }
    requires inside { number < length stanzas.now }
    ensures { IfOk result (λ r. r ≡ row_of home.now stanzas.now (stanza_at stanzas.now number)) }
{
    row(
        alloc,
        home,
        stanzas,
        stanzas[number as usize].needs.as_slice(),
    )
}

// The clauses of each package.
fn rows(
    alloc: Global,
    home: &Home,
    stanzas: &[PackageFacts],
) -> Result<Listed<ClauseList>, AllocError>
    requires { length stanzas.now ≤ most_packages }
    ensures { IfOk result (λ r. r ≡ map (λ n.
        row_of home.now stanzas.now (stanza_at stanzas.now n)) (packages_of stanzas.now)) }
{
    let mut rows = Listed::new(alloc);
    for number in 0..count(stanzas) {
        rows.push(row_at(alloc, home, stanzas, number)?)?;
    }
    Ok(rows)
}

// Whether two packages have one name, or one meets a conflict of the other.
fn disagree(home: &Home, first: &PackageFacts, second: &PackageFacts) -> bool
    ensures { result
        ≡ (bytes_eq first.now.name second.now.name || (stands_against home.now first.now second.now
        || stands_against home.now second.now first.now)) }
{
    first.name.as_slice() == second.name.as_slice()
        || meets_any(home, second, first.against.as_slice())
        || meets_any(home, first, second.against.as_slice())
}

// Whether two packages conflict.
#[tactic(auto, using(crate::proofs::Numbers::same_stanza))]
fn conflict(home: &Home, stanzas: &[PackageFacts], first: u32, second: u32) -> bool
    requires first { first < length stanzas.now }
    requires second { second < length stanzas.now }
    ensures { result ≡ in_conflict home.now stanzas.now first second }
{
    first != second && disagree(home, &stanzas[first as usize], &stanzas[second as usize])
}

// The packages that conflict with the package.
fn conflicting_with(
    alloc: Global,
    home: &Home,
    stanzas: &[PackageFacts],
    of: u32,
) -> Result<NumList, AllocError>
    requires few { length stanzas.now ≤ most_packages }
    requires inside { of < length stanzas.now }
    ensures { IfOk result (λ r. r ≡ conflicting_with home.now stanzas.now of) }
{
    let mut others = NumList::new(alloc);
    for number in 0..count(stanzas) {
        if conflict(home, stanzas, of, number) {
            others.push(number)?;
        }
    }
    Ok(others)
}

// The conflicts of each package.
fn conflicts(
    alloc: Global,
    home: &Home,
    stanzas: &[PackageFacts],
) -> Result<Listed<NumList>, AllocError>
    requires { length stanzas.now ≤ most_packages }
    ensures { IfOk result (λ r. r
        ≡ map (conflicting_with home.now stanzas.now) (packages_of stanzas.now)) }
{
    let mut conflicts = Listed::new(alloc);
    for number in 0..count(stanzas) {
        conflicts.push(conflicting_with(alloc, home, stanzas, number)?)?;
    }
    Ok(conflicts)
}
