//! Whether a package can never be installed.
//!
//! A dead package gets the empty clause, which conflicts as a whole with everything. So thinning
//! drops its conflicts, and all dead packages become one class.
ghost use Rattle.std.specs.{Prelude.{◌≡◌, ◌∷◌, [], IfOk}, List.{list_any}};
ghost use Rattle.clause_pool.specs.{Interned.{clauses_at, OfPool}, Lists.{InOrder}};
ghost use Rattle.row_book.specs.Facing.{against_in, all_against, face};
ghost use Rattle.clause_prune.specs.PrunedPackages.{IsPrunable};

use crate::pruned_package::PrunedPackage;
use clause_pool::{ClauseId, has_side_within};
use row_book::common_conflicts;
use std::alloc::{AllocError, Global};

impl PrunedPackage<'_> {
    // Whether the list conflicts as a whole with the package, or with a clause of its row. It does
    // if that lies within the packages that conflict with each member of the list.
    fn faces_side(&self, alloc: Global, list: &[u32], row: &[ClauseId]) -> Result<bool, AllocError>
        requires fits { IsPrunable self.now }
        requires row { OfPool self.now.pool.now row.now }
        requires order { InOrder (clauses_at self.now.pool.now row.now) }
        ensures { IfOk result (λ faces. faces
            ≡ list_any (all_against (against_in self.now.table.now) list.now)
            ((self.now.number ∷ []) ∷ clauses_at self.now.pool.now row.now)) }
    {
        match list.split_first() {
            None => Ok(true),
            Some((first, others)) => {
                let common = common_conflicts(alloc, self.table, *first, others)?;
                let faces = has_side_within(self.pool, self.number, row, common.as_slice());
                Ok(faces)
            }
        }
    }

    // Whether a clause of the row conflicts as a whole with a side of the package.
    fn rows_face(&self, alloc: Global, row: &[ClauseId]) -> Result<bool, AllocError>
        requires fits { IsPrunable self.now }
        requires row { OfPool self.now.pool.now row.now }
        requires order { InOrder (clauses_at self.now.pool.now row.now) }
        ensures { IfOk result (λ faces. faces
            ≡ face (against_in self.now.table.now) (clauses_at self.now.pool.now row.now)
            ((self.now.number ∷ []) ∷ clauses_at self.now.pool.now row.now)) }
    {
        for id in row {
            let faces = self.faces_side(alloc, self.pool.slice(*id), row)?;
            if faces {
                return Ok(true);
            }
        }
        Ok(false)
    }

    /// Whether two sides of the package conflict as a whole, by its row and the table of conflicts.
    pub(crate) fn is_dead(&self, alloc: Global, row: &[ClauseId]) -> Result<bool, AllocError>
        requires fits { IsPrunable self.now }
        requires row { OfPool self.now.pool.now row.now }
        requires order { InOrder (clauses_at self.now.pool.now row.now) }
        ensures { IfOk result (λ dead. dead ≡ face (against_in self.now.table.now)
            ((self.now.number ∷ []) ∷ clauses_at self.now.pool.now row.now) ((self.now.number ∷ [])
            ∷ clauses_at self.now.pool.now row.now)) }
    {
        let faces = self.faces_side(alloc, &[self.number], row)?;
        if faces {
            return Ok(true);
        }
        self.rows_face(alloc, row)
    }
}
