//! The law of the test of packages: the function does nothing, and its contract is the law.
ghost use Rattle.migrate_plan.specs.Laws.{TestIsEquality};

/// Two packages pass the test exactly if their versions are the same text and their relations say
/// the same.
pub fn test_is_equality()
    ensures { TestIsEquality }
{}
