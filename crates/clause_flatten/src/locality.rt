//! The laws of elimination among packages that name none but each other.

ghost use Rattle.clause_flatten.specs.Locality.{FlatIsLocal, LimitIsLocal};

/// Without hold packages that name none but each other have the same rows over the core, whatever
/// other packages there are.
pub fn flat_is_local()
    ensures { FlatIsLocal }
{}

/// Without hold none of their rows passes the limit at any stage if no row does without the others.
pub fn limit_is_local()
    ensures { LimitIsLocal }
{}
