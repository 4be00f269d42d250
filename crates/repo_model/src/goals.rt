//! Goals: the words that name what is to be installed.
ghost use Rattle.std.specs.{Prelude.{◌≡◌, Some, None, IfOk, IfErr}, List.{position}};
ghost use Rattle.repo_model.specs.Goals.{goal_of, goal_of_name, goal_of_parts, is_equals};
ghost use Rattle.repo_model.specs.GoalRefusals.{OnShape};

use deb_version::{Bytes, Version, VersionError, is_package_name};
use listed::Listed;
use std::alloc::{AllocError, Global};

/// A name of packages, and a version if the goal has one.
#[derive(Drop)]
pub struct Goal {
    /// The name of the packages.
    pub name: Bytes,
    /// The version of the packages, up to equal ones; without it, any version.
    pub version: Option<Version>,
}

/// Goals in their order.
pub type GoalList = Listed<Goal>;

/// Why a word gave no goal.
#[derive(Clone, Copy, Debug, PartialEq, Eq)]
pub enum GoalError {
    /// The word is neither a package name nor a package name, an equals sign and a version.
    Shape,
    /// No memory was found.
    Memory,
}

impl From<AllocError> for GoalError {
    ghost use Rattle.std.specs.Prelude.{◌≡◌};
    ghost use Rattle.repo_model.specs.declared.goals.GoalError.TheVariants.{Memory};

    ghost from_gives = { λ _ e. e ≡ Memory };

    fn from(_error: AllocError) -> Self {
        GoalError::Memory
    }
}

impl From<VersionError> for GoalError {
    ghost use Rattle.std.specs.Prelude.{◌≡◌};
    ghost use Rattle.repo_model.specs.GoalRefusals.{of_version};

    ghost from_gives = { λ error e. e ≡ of_version error };

    fn from(error: VersionError) -> Self {
        match error {
            VersionError::Shape => GoalError::Shape,
            VersionError::Memory => GoalError::Memory,
        }
    }
}

impl Goal {
    /// Reads a goal, `name` or `name=version`, cut at the first equals sign. A word outside the
    /// form is refused before any memory is asked for.
    pub fn parse(alloc: Global, word: &str) -> Result<Self, GoalError>
        ensures goal { IfOk result (λ goal. goal_of word.now ≡ Some goal) }
        ensures shape { IfErr result (OnShape (goal_of word.now ≡ None)) }
        ensures outside { goal_of word.now ≡ None → result ≡ Err GoalError.Shape }
    {
        read_goal(alloc, word.as_bytes())
    }
}

// Reads a goal, cut at its first equals sign.
fn read_goal(alloc: Global, word: &[u8]) -> Result<Goal, GoalError>
    ensures goal { IfOk result (λ goal. goal_of word.now ≡ Some goal) }
    ensures shape { IfErr result (OnShape (goal_of word.now ≡ None)) }
    ensures outside { goal_of word.now ≡ None → result ≡ Err GoalError.Shape }
{
    match equals_place(word) {
        Some(place) => read_parts(alloc, &word[..place], &word[place + 1..]),
        None => read_name(alloc, word),
    }
}

// The place of the first equals sign.
fn equals_place(word: &[u8]) -> Option<usize>
    ensures { result ≡ position is_equals word.now }
{
    word.iter().position(|byte| *byte == b'=')
}

// Reads a goal with only a name.
fn read_name(alloc: Global, name: &[u8]) -> Result<Goal, GoalError>
    ensures goal { IfOk result (λ goal. goal_of_name name.now ≡ Some goal) }
    ensures shape { IfErr result (OnShape (goal_of_name name.now ≡ None)) }
    ensures outside { goal_of_name name.now ≡ None → result ≡ Err GoalError.Shape }
{
    if !is_package_name(name) {
        return Err(GoalError::Shape);
    }
    Ok(Goal {
        name: Bytes::copy(alloc, name)?,
        version: None,
    })
}

// Reads a goal with a name and a version.
fn read_parts(alloc: Global, name: &[u8], version: &[u8]) -> Result<Goal, GoalError>
    ensures goal { IfOk result (λ goal. goal_of_parts name.now version.now ≡ Some goal) }
    ensures shape { IfErr result (OnShape (goal_of_parts name.now version.now ≡ None)) }
    ensures outside { goal_of_parts name.now version.now ≡ None → result ≡ Err GoalError.Shape }
{
    if !is_package_name(name) {
        return Err(GoalError::Shape);
    }
    let version = Version::parse(alloc, version)?;
    Ok(Goal {
        name: Bytes::copy(alloc, name)?,
        version: Some(version),
    })
}
