//! The laws of status files: the functions do nothing, and the contract of each is one law.
ghost use Rattle.status_check.specs.{Laws.{NoArchitectureFault}, States.{StatesAreOne}};

/// No architecture of a status file is a fault, against any index without a fault.
pub fn no_architecture_fault()
    ensures { NoArchitectureFault }
{}

/// A set of packages of a sound repository has one state, and a function gives it.
pub fn states_are_one()
    ensures { StatesAreOne }
{}
