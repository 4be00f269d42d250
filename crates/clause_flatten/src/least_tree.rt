//! Numbers as the leaves of a tree, so that the first of the least of them is soon found.
//!
//! A count changes far more often than a package is taken, and most changes end a step or two above
//! the leaf. Sets by count would need a second structure for high counts. Of equal children the
//! left one is tried first: that is the rule 'the least number first'.
ghost use Rattle.std.specs.Prelude.{◌≡◌, ◌≢◌, ◌<◌, ◌≤◌, ◌^◌, ℕ, length};
ghost use Rattle.clause_flatten.specs.LeastTree.{node, IsTree, IsFirstLeast};

/// How many levels a tree needs above these leaves.
pub(crate) fn depth_for(leaves: u32) -> u32
    ensures few { result ≤ 32 }
    ensures room { leaves ≤ 2 ^ result }
{
    for depth in 0..32 {
        if leaves <= 1u32 << depth {
            return depth;
        }
    }
    32
}

/// Puts a number at the place of a leaf, and mends the nodes above it up to the first that stays as
/// it is.
pub(crate) fn put_leaf(nodes: &mut [u64], leaves: usize, leaf: usize, number: u64)
    requires tree { IsTree nodes.old leaves }
    requires low { leaves ≤ leaf }
    requires there { leaf < length nodes.old }
    ensures tree { IsTree nodes.new leaves }
    ensures here { node nodes.new leaf ≡ number }
    ensures others { (i : ℕ) → leaves ≤ i → i ≢ leaf → node nodes.new i ≡ node nodes.old i }
{
    nodes[leaf] = number;
    let mut place = leaf;
    'up: while 1 < place {
        place /= 2;
        let least = nodes[place * 2].min(nodes[place * 2 + 1]);
        if nodes[place] == least {
            return;
        }
        nodes[place] = least;
    }
}

/// The first of the leaves that have the least number.
pub(crate) fn first_least(nodes: &[u64], depth: u32) -> usize
    requires tree { IsTree nodes.now (2 ^ depth) }
    ensures { IsFirstLeast nodes.now (2 ^ depth) result }
{
    let least = nodes[1];
    let mut place = 1;
    for _level in 0..depth {
        place *= 2;
        if nodes[place] != least {
            place += 1;
        }
    }
    place - nodes.len() / 2
}
