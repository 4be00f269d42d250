//! What a search propagates over.
use crate::table::Use;
use clause_pool::NumList;
use listed::Listed;
use search_terms::LiteralList;

/// A formula on classes: the sentences of the goals and of the clauses, the table of what uses the
/// latter, and the conflicts.
#[derive(Clone, Copy)]
pub(crate) struct Formula<'a> {
    /// The number of classes.
    pub(crate) classes: u32,
    /// The sentences of the goals.
    pub(crate) goals: &'a [LiteralList],
    /// The sentences of the clauses.
    pub(crate) own: &'a [LiteralList],
    /// For each literal the clauses' sentences that it contradicts a literal of.
    pub(crate) uses: &'a [Listed<Use>],
    /// For each class those that conflict with it.
    pub(crate) conflicts: &'a [NumList],
}
