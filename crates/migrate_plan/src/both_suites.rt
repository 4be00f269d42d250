//! What all mixes of two indexes are made of. It is made once, so that no mix is read, numbered and
//! looked up by itself.
ghost use Rattle.std.specs.Prelude.{◌≡◌, ◌++◌, ◌≤◌, ◌+◌, length, replicate, true, IfOk};
ghost use Rattle.std.specs.List.{items_where_true};
ghost use Rattle.repo_model.specs.{Limits.{most_packages}, Repository.{suite_repository}};
ghost use Rattle.suite_compare.specs.{Bearers.{bearers_of}, Views.{IsBookOf}};
ghost use Rattle.migrate_plan.specs.{Differing.{differing}, Refusals.{packages_with}};
ghost use Rattle.migrate_plan.specs.BothSuites.{AreBothSuites};

use crate::flags::taken_flags;
use clause_pool::Pool;
use deb_version::Bytes;
use relation_fields::Home;
use repo_model::Suite;
use row_book::Book;
use std::alloc::{AllocError, Global};
use suite_compare::{FewNumbers, OldSide, bearers_of};

/// Two indexes, and all packages that mixes of them have. These are first those of the old one, and
/// then those of the new one whose names differ.
#[derive(Drop)]
pub(crate) struct BothSuites<'a> {
    /// The side of the old index in comparisons.
    pub(crate) old: &'a OldSide<'a>,
    /// The suite of the new index.
    pub(crate) new: &'a Suite,
    /// For each package of the new suite whether its name differs.
    pub(crate) added: Vec<bool>,
    /// The common architecture of both indexes.
    pub(crate) home: Home,
    /// The pool of the rows of the book.
    pub(crate) pool: Pool,
    /// The repository of all these packages.
    pub(crate) book: Book,
    /// For each name of the old suite the packages of both suites that bear it.
    pub(crate) named: Vec<FewNumbers>,
}

/// What all mixes of an old and a new index are made of.
pub(crate) fn both_suites_of<'a>(
    alloc: Global,
    old: &'a OldSide<'a>,
    new: &'a Suite,
    names: &[Bytes],
) -> Result<BothSuites<'a>, AllocError>
    requires names { names.now ≡ differing old.now.view.now.suite.packages new.now.packages }
    requires few { packages_with old.now.view.now.suite.packages new.now.packages names.now
        ≤ most_packages }
    ensures side { IfOk result (λ both. both.old.now ≡ old.now) }
    ensures suite { IfOk result (λ both. both.new.now ≡ new.now) }
    ensures both { IfOk result AreBothSuites }
{
    let added = taken_flags(alloc, new, names)?;
    let home = common_home(alloc, &old.view.suite.home, &new.home)?;
    let suite = joined(alloc, &old.view.suite, new, &added, &home)?;
    let numbered = numbered_of(alloc, old, &suite)?;
    // Its one end: a proof follows each field at every end of the body that owns it.
    drop(suite);
    let Numbered { pool, book, named } = numbered;
    Ok(BothSuites {
        old,
        new,
        added,
        home,
        pool,
        book,
        named,
    })
}

// What is made of all packages that mixes have: their repository over a pool, and those that bear
// each old name.
#[derive(Drop)]
struct Numbered {
    pool: Pool,
    book: Book,
    named: Vec<FewNumbers>,
}

// What is made of a suite.
fn numbered_of(alloc: Global, old: &OldSide, suite: &Suite) -> Result<Numbered, AllocError>
    ensures book { IfOk result (λ made.
        IsBookOf made.pool made.book (suite_repository suite.now.home suite.now.packages)) }
    ensures named { IfOk result (λ made. made.named.items
        ≡ bearers_of suite.now.packages old.now.names) }
{
    let named = bearers_of(alloc, suite, old.names())?;
    let mut pool = Pool::new(alloc)?;
    let book = suite.book(alloc, &mut pool)?;
    Ok(Numbered { pool, book, named })
}

// All packages of the old suite, followed by those of the new one whose flags are up.
fn joined(
    alloc: Global,
    old: &Suite,
    new: &Suite,
    added: &[bool],
    home: &Home,
) -> Result<Suite, AllocError>
    requires flags { length added.now ≡ length new.now.packages }
    requires few { length old.now.packages
        + length (items_where_true added.now new.now.packages) ≤ most_packages }
    ensures packages { IfOk result (λ suite. suite.packages
        ≡ old.now.packages ++ items_where_true added.now new.now.packages) }
    ensures home { IfOk result (λ suite. suite.home ≡ home.now) }
{
    let home = copy_of_home(alloc, home)?;
    let all = all_flags(alloc, old.count())?;
    let suite = old.join(alloc, &all, new, added, home)?;
    Ok(suite)
}

// A flag for each package, all of them up.
fn all_flags(alloc: Global, count: u32) -> Result<Vec<bool>, AllocError>
    ensures { IfOk result (λ flags. flags.items ≡ replicate count true) }
{
    vec![in alloc; true; count as usize]
}

// The first of two architectures that is there.
fn common_home(alloc: Global, old: &Home, new: &Home) -> Result<Home, AllocError> {
    if old.name.is_some() {
        return copy_of_home(alloc, old);
    }
    copy_of_home(alloc, new)
}

// A copy of the architecture.
fn copy_of_home(alloc: Global, home: &Home) -> Result<Home, AllocError>
    ensures { IfOk result (λ copy. copy ≡ home.now) }
{
    match &home.name {
        Some(name) => Ok(Home {
            name: Some(Bytes::copy(alloc, name.as_slice())?),
        }),
        None => Ok(Home { name: None }),
    }
}
