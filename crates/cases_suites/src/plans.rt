//! A plan that is made while both texts are at hand. No command does so: the program gives each
//! text back once it was read.
ghost use Rattle.std.specs.Prelude.{◌≡◌, ◌≤◌, false, length, IfOk};
ghost use Rattle.repo_model.specs.{Feeding.{IsSuiteOf}, Limits.{most_bytes}};

use migrate_plan::{Plan, PlanLine, make_plan};
use repo_model::{IndexFault, Suite, read_suite};
use std::alloc::{AllocError, Global};
use std::process::Abort;
use std::test::Fail;
use suite_compare::SuiteView;

/// A package, which comes to need what nobody has, and one that comes.
const OLD: &str = "Package: a\nVersion: 1\n";

const NEW: &str = "Package: a\nVersion: 1\nDepends: nowhere\n\nPackage: z\nVersion: 1\n";

/// How many clauses a row may have.
const LIMIT: u32 = 16;

/// The view of an index.
fn view_of(alloc: Global, text: &[u8]) -> Result<SuiteView, AllocError>
    requires { length text.now ≤ most_bytes }
    ensures suite { IfOk result (λ view.
        IsSuiteOf text.now view.suite.packages view.suite.home.name) }
    ensures limit { IfOk result (λ view. view.limit ≡ 16) }
    ensures hold { IfOk result (λ view. view.kernel.hold ≡ false) }
{
    match SuiteView::of(alloc, text, LIMIT, false) {
        Ok(view) => Ok(view),
        Err(_) => Err(AllocError),
    }
}

/// The suite of an index.
fn suite_of(alloc: Global, text: &[u8]) -> Result<Suite, IndexFault>
    requires { length text.now ≤ most_bytes }
    ensures { IfOk result (λ suite. IsSuiteOf text.now suite.packages suite.home.name) }
{
    read_suite(alloc, text)
}

/// The name is left, and the one after it is taken.
fn check_lines(rt: &impl Abort, plan: &Plan) {
    match plan.lines.as_slice() {
        [
            PlanLine::LeftLine { name, .. },
            PlanLine::Take { name: taken },
        ] => {
            assert!(rt; name.as_slice() == b"a".as_slice());
            assert!(rt; taken.as_slice() == b"z".as_slice());
        }
        _ => assert!(rt; false),
    }
}

fn check_between(
    rt: &(impl Abort + AllocGlobal),
    old: &[u8],
    view: &SuiteView,
    new: &[u8],
) -> Result<(), Fail>
    requires old_short { length old.now ≤ most_bytes }
    requires old { IsSuiteOf old.now view.now.suite.packages view.now.suite.home.name }
    requires limit { view.now.limit ≡ 16 }
    requires hold { view.now.kernel.hold ≡ false }
    requires new_short { length new.now ≤ most_bytes }
{
    let suite = suite_of(rt.alloc(), new)?;
    let plan = make_plan(rt.alloc(), old, view, new, &suite, LIMIT, false, 1000);
    drop(suite);
    match plan {
        Ok(plan) => check_lines(rt, &plan),
        Err(_) => assert!(rt; false),
    }
    Ok(())
}

fn check_plan(rt: &(impl Abort + AllocGlobal), old: &[u8], new: &[u8]) -> Result<(), Fail> {
    if old.len() > 1000 || new.len() > 1000 {
        assert!(rt; false);
        return Ok(());
    }
    let view = view_of(rt.alloc(), old)?;
    let told = check_between(rt, old, &view, new);
    drop(view);
    told
}

#[test]
fn a_plan_of_two_texts(rt: HostRuntime) -> Result<(), Fail> {
    check_plan(&rt, OLD.as_bytes(), NEW.as_bytes())
}
