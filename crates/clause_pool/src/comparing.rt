//! The order in which a row has its clauses.
ghost use Rattle.std.specs.Prelude.{◌≡◌};
ghost use Rattle.clause_pool.specs.Clauses.{comes_before};

/// Whether the first clause comes before the second in lexicographic order.
#[tactic(auto, using(crate::proofs::Compared::before_compared))]
pub fn is_before(first: &[u32], second: &[u32]) -> bool
    ensures { result ≡ comes_before first.now second.now }
{
    first.cmp(second).is_lt()
}
