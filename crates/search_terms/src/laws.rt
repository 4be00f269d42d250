//! The laws of search trees and logs. The functions do nothing: the contract of each is one law.
ghost use Rattle.search_terms.specs.Laws.{TreeIsThere, TreeIsOne, SearchTreeIs, BudgetIsEnough};
ghost use Rattle.search_terms.specs.Laws.{SmallTreesAreWalked, LogIsShort, FoundIsModel};
ghost use Rattle.search_terms.specs.Laws.{LogDerives, DerivesNoModel, DerivesNoSolution};
ghost use Rattle.search_terms.specs.{Laws.{ModelsAreHealthy, FindsHealthy}, Local.{TreeIsLocal}};

/// Each formula has a tree.
pub fn tree_is_there()
    ensures { TreeIsThere }
{}

/// A formula has one tree at most.
pub fn tree_is_one()
    ensures { TreeIsOne }
{}

/// The search tree that is computed for a formula is a tree of the formula.
pub fn search_tree_is()
    ensures { SearchTreeIs }
{}

/// No tree has more failed leaves than two to the power of the number of classes.
pub fn budget_is_enough()
    ensures { BudgetIsEnough }
{}

/// A budget of a million failed leaves is enough for nineteen classes.
pub fn small_trees_are_walked()
    ensures { SmallTreesAreWalked }
{}

/// If a tree finds nothing and has n failed leaves, its log has 2n - 1 entries.
pub fn log_is_short()
    ensures { LogIsShort }
{}

/// What a tree finds is a model.
pub fn found_is_model()
    ensures { FoundIsModel }
{}

/// The log of a tree that finds nothing derives the empty entry.
pub fn log_derives()
    ensures { LogDerives }
{}

/// A log that derives the empty entry shows that there is no model.
pub fn derives_no_model()
    ensures { DerivesNoModel }
{}

/// A log that derives the empty entry shows that no healthy set hits every goal.
pub fn derives_no_solution()
    ensures { DerivesNoSolution }
{}

/// The models of a repository's formula are its healthy sets that hit every goal.
pub fn models_are_healthy()
    ensures { ModelsAreHealthy }
{}

/// The tree of a repository's formula finds something exactly if some healthy set hits every goal.
pub fn finds_healthy()
    ensures { FindsHealthy }
{}

/// A tree depends on nothing but what its goals reach.
pub fn tree_is_local()
    ensures { TreeIsLocal }
{}
