//! The old suite of comparisons.
ghost use Rattle.std.specs.Prelude.{◌≡◌, length};
ghost use Rattle.repo_model.specs.Goals.{names_in};
ghost use Rattle.clause_solver.specs.Outcomes.{IsBudget};
ghost use Rattle.suite_compare.specs.Props.{number-set, texts-set};
ghost use Rattle.suite_compare.specs.Sided.{named_verdict, AreVerdicts, AreVerdicts-prop};

use crate::side::Side;
use crate::sides::side_of;
use crate::view::SuiteView;
use repo_model::{LentName, LentNames};
use std::alloc::{AllocError, Global};

/// An old view in comparisons with new ones: its names, ascending, and the side that it is in all
/// of them.
#[derive(Drop)]
pub struct OldSide<'a> {
    /// The view.
    pub view: &'a SuiteView,
    /// The most failed leaves of a search.
    pub budget: u64,
    /// Its names, lent from the suite.
    pub(crate) names: LentNames<'a>,
    /// The side of its suite, the same in all comparisons.
    pub(crate) side: Side<'a>,
    ghost names_are: { names ≡ names_in view.now.suite.packages } by { texts-set names
        (names_in view.now.suite.packages) },
    ghost long: { length side.kind_of.items ≡ length names } by { number-set
        (length side.kind_of.items) (length names) },
    ghost was: { AreVerdicts side side.kind_of.items names (named_verdict view.now.limit
        view.now.kernel.hold view.now.suite.home view.now.suite.packages
        budget) } by { AreVerdicts-prop side side.kind_of.items names (named_verdict view.now.limit
            view.now.kernel.hold view.now.suite.home view.now.suite.packages budget) },
    ghost allowed: { IsBudget budget },
}

impl<'a> OldSide<'a> {
    ghost use Rattle.std.specs.Prelude.{◌≡◌, IfOk};
    ghost use Rattle.clause_solver.specs.Outcomes.{IsBudget};

    /// The side of an old view, for comparisons within a budget of failed leaves a search, from 1
    /// to 1,000,000.
    pub fn new(alloc: Global, view: &'a SuiteView, budget: u64) -> Result<OldSide<'a>, AllocError>
        requires { IsBudget budget }
        ensures view { IfOk result (λ made. made.view.now ≡ view.now) }
        ensures budget { IfOk result (λ made. made.budget ≡ budget) }
    {
        let names = view.suite.lent_names(alloc)?;
        let side = side_of(alloc, view, names.as_slice(), budget)?;
        Ok(OldSide {
            view,
            budget,
            names,
            side,
        })
    }

    /// The names of its packages, each once, ascending by bytes.
    pub fn names(&self) -> &[LentName<'a>]
        ensures { result.now ≡ self.now.names }
    {
        self.names.as_slice()
    }
}
