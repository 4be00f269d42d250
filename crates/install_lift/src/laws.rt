//! The laws of lifting and of trimming. The functions do nothing: the contract of each is one law.
ghost use Rattle.install_lift.specs.Laws.{LiftIsHealthy, LiftIsOne, LiftIsOf};
ghost use Rattle.install_lift.specs.Trimming.{TrimIsHealthy, TrimIsOne, TrimIsOf};

/// A lifted set is healthy, and has each package of each class that it came from.
pub fn lift_is_healthy()
    ensures { LiftIsHealthy }
{}

/// A set is lifted in only one way.
pub fn lift_is_one()
    ensures { LiftIsOne }
{}

/// The lifted set is the one that is computed.
pub fn lift_is_of()
    ensures { LiftIsOf }
{}

/// The trim of a healthy set that hits every goal is a healthy part of it that hits every goal.
pub fn trim_is_healthy()
    ensures { TrimIsHealthy }
{}

/// A healthy set has one trim at most.
pub fn trim_is_one()
    ensures { TrimIsOne }
{}

/// The trim is the one that is computed.
pub fn trim_is_of()
    ensures { TrimIsOf }
{}
