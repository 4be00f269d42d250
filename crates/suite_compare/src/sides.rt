//! The two sides of a comparison: what is known of both suites before any two names are asked
//! together.
ghost use Rattle.std.specs.Prelude.{◌≡◌, ◌<◌, ℕ, List, true, IfOk, length, map, slice_index_or};
ghost use Rattle.listed.specs.Lists.{In};
ghost use Rattle.row_book.specs.{Book.{listed_for}, Lent.{repository_in}};
ghost use Rattle.row_book.specs.Needs.{AreNeeds, NeedsFit};
ghost use Rattle.relation_fields.specs.declared.packages.Home.{Home};
ghost use Rattle.relation_fields.specs.declared.packages.PackageFacts.{PackageFacts};
ghost use Rattle.repo_model.specs.Repository.{suite_repository};
ghost use Rattle.clause_solver.specs.Outcomes.{IsBudget};
ghost use Rattle.suite_compare.specs.Bearers.{bearer_classes, FitsKernel};
ghost use Rattle.suite_compare.specs.{Comparing.{IsNewSide, IsSideBy}, Kinds.{alone_in}};
ghost use Rattle.suite_compare.specs.{Lent.{IsLentKernel}, Names.{stands_in}};
ghost use Rattle.suite_compare.specs.Sided.{named_verdict, AreVerdicts};

use crate::bearers::{bearers_of, classes_of_each, filled_places, lists_at, names_at};
use crate::few::FewNumbers;
use crate::judge::Judge;
use crate::kinds::{kinds_of, numbers_at};
use crate::lent::kernel_of;
use crate::new_side::{CommonNames, NewSide};
use crate::old_side::OldSide;
use crate::places::{place_at, verdict_at};
use crate::side::Side;
use crate::verdicts::verdicts_alone;
use crate::view::SuiteView;
use clause_solver::{BookSolver, Verdict};
use repo_model::LentName;
use row_book::LentBook;
use std::alloc::{AllocError, Global};

/// The verdict on the kind of a name by itself.
pub(crate) fn verdict_of(side: &Side, of: &[usize], place: usize) -> Verdict
    requires place { place < length of.now }
    requires kind { slice_index_or of.now place 0 < length side.now.judge.kinds.items }
    ensures { result ≡ alone_in side.now.judge (slice_index_or of.now place 0) }
{
    let kind = place_at(of, place);
    verdict_at(&side.singles, kind)
}

/// A side of a comparison, by the classes of each name.
fn side_by<'a>(
    alloc: Global,
    kernel: &LentBook<'a>,
    lists: &[FewNumbers],
    budget: u64,
) -> Result<Side<'a>, AllocError>
    requires needs { AreNeeds lists.now }
    requires fit { NeedsFit (length kernel.now.book.now.rows) lists.now }
    requires budget { IsBudget budget }
    ensures { IfOk result (IsSideBy (repository_in kernel.now) budget lists.now) }
{
    let kinds = kinds_of(alloc, lists)?;
    let solver = BookSolver::new(alloc, kernel)?;
    let judge = Judge {
        kernel: *kernel,
        solver,
        kinds: kinds.lists,
        budget,
    };
    let singles = verdicts_alone(alloc, &judge)?;
    Ok(Side {
        judge,
        kind_of: kinds.kind_of,
        singles,
    })
}

/// The side of a view, by names that packages of its suite have.
pub(crate) fn side_of<'a>(
    alloc: Global,
    view: &'a SuiteView,
    names: &[LentName],
    budget: u64,
) -> Result<Side<'a>, AllocError>
    requires names { (name : List ℕ) → In name names.now →
        stands_in view.now.suite.packages name ≡ true }
    requires budget { IsBudget budget }
    ensures long { IfOk result (λ side. length side.kind_of.items ≡ length names.now) }
    ensures verdicts { IfOk result (λ side. AreVerdicts side side.kind_of.items names.now
        (named_verdict view.now.limit view.now.kernel.hold
        view.now.suite.home view.now.suite.packages budget)) }
{
    let named = bearers_of(alloc, &view.suite, names)?;
    let classes = classes_of_each(alloc, view.kernel.class_of.as_slice(), &named)?;
    let kernel = kernel_of(view);
    side_by(alloc, &kernel, &classes, budget)
}

/// Those of the names of an old side that are at these places, each with its kind.
fn common_at<'a>(
    alloc: Global,
    old: &OldSide<'a>,
    places: &[usize],
) -> Result<CommonNames<'a>, AllocError>
    requires { (i : ℕ) → i < length places.now →
        slice_index_or places.now i 0 < length old.now.names }
    ensures names { IfOk result (λ common. common.names.items
        ≡ map (listed_for old.now.names) places.now) }
    ensures kinds { IfOk result (λ common. common.kind_of.items
        ≡ map (λ place. slice_index_or old.now.side.kind_of.items place 0) places.now) }
{
    let names = names_at(alloc, old.names.as_slice(), places)?;
    let kind_of = numbers_at(alloc, &old.side.kind_of, places)?;
    Ok(CommonNames { names, kind_of })
}

/// The side of other packages in a comparison with an old view, by their kernel and by the classes
/// of the packages that bear each name of the old side. The kernel was made at the clause limit of
/// the old view, and both with hold or both without.
pub(crate) fn new_side_by<'s, 'o, 'n>(
    alloc: Global,
    old: &'s OldSide<'o>,
    kernel: &LentBook<'n>,
    classes: Vec<FewNumbers>,
) -> Result<NewSide<'s, 'o, 'n>, AllocError>
    requires fits { FitsKernel kernel.now classes.items }
    requires count { length classes.items ≡ length old.now.names }
    ensures { let view = old.now.view.now in (home : Home) (stanzas : List PackageFacts) →
        IsLentKernel kernel.now view.limit view.kernel.hold (suite_repository home stanzas)
        → classes.items ≡ bearer_classes view.limit view.kernel.hold home stanzas old.now.names →
        IfOk result (IsNewSide old.now home stanzas) }
{
    let places = filled_places(alloc, &classes)?;
    let common = common_at(alloc, old, &places)?;
    let lists = lists_at(alloc, &classes, &places)?;
    let side = side_by(alloc, kernel, &lists, old.budget)?;
    Ok(NewSide {
        old: &old.side,
        common,
        side,
    })
}

/// The side of a new view in a comparison with an old one. Both views were made at one and the same
/// clause limit, and both with hold or both without.
pub(crate) fn new_side_of<'s, 'o, 'n>(
    alloc: Global,
    old: &'s OldSide<'o>,
    new: &'n SuiteView,
) -> Result<NewSide<'s, 'o, 'n>, AllocError>
    requires limit { new.now.limit ≡ old.now.view.now.limit }
    requires hold { new.now.kernel.hold ≡ old.now.view.now.kernel.hold }
    ensures { IfOk result (IsNewSide old.now new.now.suite.home new.now.suite.packages) }
{
    let named = bearers_of(alloc, &new.suite, old.names())?;
    let classes = classes_of_each(alloc, new.kernel.class_of.as_slice(), &named)?;
    let kernel = kernel_of(new);
    let made = new_side_by(alloc, old, &kernel, classes)?;
    Ok(made)
}
