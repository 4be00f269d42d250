//! Laws over the definitions that the contracts of suites cite. These functions do nothing: the
//! contract of each is one law.
ghost use Rattle.std.specs.Prelude.{◌≡◌, List, map};
ghost use Rattle.relation_fields.specs.declared.packages.Home.{Home};
ghost use Rattle.relation_fields.specs.declared.packages.PackageFacts.{PackageFacts};
ghost use Rattle.repo_model.specs.Laws.{but_line, IgnoresLines, IsOfPackages, KeepsHealth};

/// A set of stanzas is healthy, judged on the stanzas alone, exactly if it is healthy in their
/// repository.
pub fn health_is_kept()
    ensures { (home : Home) (stanzas : List PackageFacts) → KeepsHealth home stanzas }
{}

/// The clauses and the conflicts of the repository of stanzas are of its packages.
pub fn repository_is_of_packages()
    ensures { (home : Home) (stanzas : List PackageFacts) → IsOfPackages home stanzas }
{}

/// Repositories, names, goals and verdicts do not look at the numbers of lines.
pub fn lines_are_ignored()
    ensures { (home : Home) (stanzas others : List PackageFacts) →
        map but_line stanzas ≡ map but_line others → IgnoresLines home stanzas others }
{}
