//! Clauses that are not in the pool.
ghost use Rattle.std.specs.Prelude.{◌≡◌, ◌==◌, ◌++◌, IfOk, OnOk, nat_eq, Some, refl};
ghost use Rattle.std.specs.Cmp.Lexicographic.{pointwise, slice_cmp, slice_partial_cmp, lists_equiv};
ghost use Rattle.std.specs.Cmp.Lexicographic.{lists_total, nat_list_cmp_total, nat_list_eq_equiv};
ghost use Rattle.std.specs.Cmp.Lexicographic.{texts_po, texts_ties};
ghost use Rattle.std.specs.{Cmp.{partial_equiv_from_equiv}, Ordering.{nat_cmp}};
ghost use Rattle.listed.specs.Lists.{Ascending};
ghost use Rattle.clause_families.specs.Unions.{clause_without, union_of};

use smallvec::SmallVec;
use std::alloc::{AllocError, Global};
use std::cmp::Ordering;
use std::marker::Model;

/// A clause that is not in the pool; clauses are compared in lexicographic order. Most are short,
/// and need no memory of their own.
#[derive(Drop)]
pub struct Clause {
    literals: SmallVec<u32, 6>,
}

impl Model for Clause {
    ghost use Rattle.std.specs.{Prelude.{List, ℕ}, Coded.{coded_list, coded_ℕ}};

    ghost Value = { List ℕ };

    ghost coded = { coded_list coded_ℕ };

    ghost view = { λ s. s.literals.items };
}

impl PartialEq for Clause {
    ghost eq = { pointwise nat_eq };

    ghost laws = { partial_equiv_from_equiv nat_list_eq_equiv };

    fn eq(&self, other: &Clause) -> bool {
        self.as_slice() == other.as_slice()
    }
}

impl Eq for Clause {
    ghost laws = { nat_list_eq_equiv };
}

impl PartialOrd for Clause {
    ghost partial_cmp = { λ v w. Some (slice_cmp nat_cmp v w) };

    ghost laws = { texts_po };

    fn partial_cmp(&self, other: &Clause) -> Option<Ordering> {
        Some(self.cmp(other))
    }
}

impl Ord for Clause {
    ghost cmp = { slice_cmp nat_cmp };

    ghost total = { nat_list_cmp_total };

    ghost matches_partial_cmp = { λ v w. refl };

    ghost matches_eq = { texts_ties };

    fn cmp(&self, other: &Clause) -> Ordering {
        self.as_slice().cmp(&other.as_slice())
    }
}

impl Clause {
    /// The clause with these literals.
    pub fn copy(alloc: Global, literals: &[u32]) -> Result<Clause, AllocError>
        ensures { IfOk result (λ clause. clause ≡ literals.now) }
    {
        let literals = SmallVec::from_slice(alloc, literals)?;
        Ok(Clause { literals })
    }

    /// A clause without a number.
    pub(crate) fn without(alloc: Global, number: u32, clause: &[u32]) -> Result<Clause, AllocError>
        ensures { IfOk result (λ left. left ≡ clause_without number clause.now) }
    {
        let mut literals = SmallVec::new(alloc);
        add_without(&mut literals, number, clause)?;
        Ok(Clause { literals })
    }

    /// The union of a clause, without the spent package, with another one.
    pub(crate) fn union_without(
        alloc: Global,
        spent: u32,
        clause: &[u32],
        other: &[u32],
    ) -> Result<Clause, AllocError>
        requires clause { Ascending clause.now }
        requires other { Ascending other.now }
        ensures { IfOk result (λ union. union
            ≡ union_of (clause_without spent clause.now) other.now) }
    {
        let mut literals = SmallVec::new(alloc);
        let mut i = 0;
        let mut j = 0;
        'merge: while i < clause.len() && j < other.len() {
            let own = clause[i];
            let next = other[j];
            if own == spent {
                i += 1;
            } else if own < next {
                literals.push(own)?;
                i += 1;
            } else if next < own {
                literals.push(next)?;
                j += 1;
            } else {
                literals.push(own)?;
                i += 1;
                j += 1;
            }
        }
        add_without(&mut literals, spent, &clause[i..])?;
        literals.extend_from_slice(&other[j..])?;
        // A long family holds many unions at once, so unused room would add up.
        literals.shrink_to_fit();
        Ok(Clause { literals })
    }

    /// The literals in their order.
    pub fn as_slice(&self) -> &[u32]
        ensures { result.now ≡ self.now }
    {
        self.literals.as_slice()
    }
}

/// Appends the literals of a clause without the spent package.
fn add_without(
    literals: &mut SmallVec<u32, 6>,
    spent: u32,
    clause: &[u32],
) -> Result<(), AllocError>
    ensures { OnOk result (literals.new.items
        ≡ literals.old.items ++ clause_without spent clause.now) }
{
    for literal in clause {
        if *literal != spent {
            literals.push(*literal)?;
        }
    }
    Ok(())
}
