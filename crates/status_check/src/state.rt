//! Whether the own packages are a healthy set.
ghost use Rattle.std.specs.Prelude.{◌≡◌, true, map, IfOk};
ghost use Rattle.repo_model.specs.Repository.{suite_repository};
ghost use Rattle.status_check.specs.Report.{all_of, IsStateOf};

use crate::report::OwnState;
use clause_pool::Pool;
use relation_fields::PackageFacts;
use repo_model::Suite;
use row_book::Unhealthy;
use std::alloc::{AllocError, Global};

/// Whether all packages of the suite are a healthy set; if not, the first unmet need, or else the
/// first conflict.
pub(crate) fn own_state(alloc: Global, suite: &Suite) -> Result<OwnState, AllocError>
    ensures { IfOk result (IsStateOf (suite_repository suite.now.home suite.now.packages)
        (all_of suite.now.packages)) }
{
    let mut pool = Pool::new(alloc)?;
    let book = suite.book(alloc, &mut pool)?;
    let all = all_flags(alloc, suite.packages.as_slice())?;
    match book.is_healthy(&pool, &all) {
        Ok(()) => Ok(OwnState::Healthy),
        Err(Unhealthy::Unhit { package, .. }) => Ok(OwnState::Unhit { package }),
        Err(Unhealthy::Clash { first, second }) => Ok(OwnState::Clash { first, second }),
    }
}

// A flag that is up for each package.
fn all_flags(alloc: Global, packages: &[PackageFacts]) -> Result<Vec<bool>, AllocError>
    ensures { IfOk result (λ flags. flags.items ≡ map (λ facts. true) packages.now) }
{
    let mut flags = Vec::new(alloc);
    for _package in packages {
        flags.push(true)?;
    }
    Ok(flags)
}
