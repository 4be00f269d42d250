//! The laws of parts.
ghost use Rattle.std.specs.Prelude.{◌≡◌, Bool, List, length};
ghost use Rattle.relation_fields.specs.declared.packages.Home.{Home};
ghost use Rattle.relation_fields.specs.declared.packages.PackageFacts.{PackageFacts};
ghost use Rattle.suite_part.specs.{Laws.{NamesArePart, PartIsExact}, Mixes.{MergedMix}};
ghost use Rattle.suite_part.specs.Small.{MixFollows, SmallTells};

/// The repository of some packages of an index is that part of the repository of all.
pub fn part_is_exact()
    ensures { (home : Home) (stanzas : List PackageFacts) (flags : List Bool) →
        length flags ≡ length stanzas → PartIsExact home stanzas flags }
{}

/// Among some packages a goal names those that it names among all.
pub fn names_are_part()
    ensures { (stanzas : List PackageFacts) (flags : List Bool) → length flags ≡ length stanzas →
        NamesArePart stanzas flags }
{}

/// The groups of the flattened rows of a mix, in the numbers of all packages, are what the first
/// round merges of the mix.
pub fn merged_mix()
    ensures { MergedMix }
{}

/// A small book, in which rivals have no clauses, gives the rows of packages of a mix, and whether
/// they pass the limit.
pub fn small_tells()
    ensures { SmallTells }
{}

/// The rows of a mix are those of the base, and for packages that have changed those of the small
/// book. It is within the limit exactly if the small book is.
pub fn mix_follows()
    ensures { MixFollows }
{}
