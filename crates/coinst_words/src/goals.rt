//! Goals among the words.
ghost use Rattle.std.specs.Prelude.{◌≡◌, IfOk, IfErr, None, Some, map};
ghost use Rattle.coinst_words.specs.{Words.{some_goals_of}, Refusals.{OnNotACommand}};
ghost use Rattle.repo_model.specs.Goals.{goal_of};

use crate::error::WordError;
use listed::Listed;
use repo_model::{Goal, GoalError, GoalList};
use std::alloc::Global;

/// The goals that words name, at least one.
pub(crate) fn goals_in(alloc: Global, words: &[&str]) -> Result<GoalList, WordError>
    ensures goals { IfOk result (λ goals. some_goals_of (map (λ s. s.now) words.now) ≡ Some goals) }
    ensures refusal { IfErr result (OnNotACommand (some_goals_of (map (λ s. s.now) words.now)
        ≡ None)) }
{
    if words.is_empty() {
        return Err(WordError::NotACommand);
    }
    let mut goals = Listed::new(alloc);
    for word in words {
        goals.push(goal_in(alloc, word)?)?;
    }
    Ok(goals)
}

// The goal that a word names.
fn goal_in(alloc: Global, word: &str) -> Result<Goal, WordError>
    ensures goal { IfOk result (λ goal. goal_of word.now ≡ Some goal) }
    ensures refusal { IfErr result (OnNotACommand (goal_of word.now ≡ None)) }
{
    match Goal::parse(alloc, word) {
        Ok(goal) => Ok(goal),
        Err(GoalError::Shape) => Err(WordError::NotACommand),
        Err(GoalError::Memory) => Err(WordError::Memory),
    }
}
