//! The law of unions.

ghost use Rattle.clause_families.specs.Laws.{UnionMerges};

/// The union of two clauses can be made by merging.
pub fn union_merges()
    ensures { UnionMerges }
{}
