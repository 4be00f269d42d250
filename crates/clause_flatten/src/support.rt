//! The laws of support and of rows, over any set of packages that is left.

ghost use Rattle.clause_flatten.specs.Laws.{FirstRows, KeepsEverySet, LiftIsHealthy, OwnRowStays};
ghost use Rattle.clause_flatten.specs.Laws.{RowTells, Substitutes};
ghost use Rattle.clause_flatten.specs.FlatLaws.{RowComputes, RowIsOne};

/// A set supports a package exactly if it hits each clause of the package's row.
pub fn row_tells()
    ensures { RowTells }
{}

/// Substitution gives the rows once one more package is taken out.
pub fn substitutes()
    ensures { Substitutes }
{}

/// The row of the package that is taken out stays as it is.
pub fn own_row_stays()
    ensures { OwnRowStays }
{}

/// The rows before any package is taken out.
pub fn first_rows()
    ensures { FirstRows }
{}

/// The computed row is the row, in lexicographic order.
pub fn row_computes()
    ensures { RowComputes }
{}

/// No other list is the row in lexicographic order.
pub fn row_is_one()
    ensures { RowIsOne }
{}

/// A set is co-installable with the rows exactly if it is with the clauses.
pub fn keeps_every_set()
    ensures { KeepsEverySet }
{}

/// A set that is healthy with the rows is healthy with the clauses once the greatest set of
/// packages without conflicts that it serves is put in.
pub fn lift_is_healthy()
    ensures { LiftIsHealthy }
{}
