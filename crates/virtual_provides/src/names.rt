//! The table of names.
ghost use Rattle.std.specs.Prelude.{◌≡◌, ◌<◌, ◌++◌, ◌∷◌, [], List, ℕ, Some, length, filter, IfOk};
ghost use Rattle.std.specs.{Prelude.{OnOk}, List.{list_any}, Option.{option_copied}};
ghost use Rattle.listed.specs.Lists.{In};
ghost use Rattle.package_register.specs.Numbers.{numbers_where, passes_at};
ghost use Rattle.package_register.specs.Registers.{has_name, is_version_of, Grows, IsFound};
ghost use Rattle.relation_fields.specs.Meeting.{meets};
ghost use Rattle.relation_fields.specs.declared.packages.PackageFacts.{PackageFacts};
ghost use Rattle.relation_fields.specs.declared.relations.Provide.{Provide};
ghost use Rattle.virtual_provides.specs.Bearers.{exact_version, own_name, own_version, AreFor};
ghost use Rattle.virtual_provides.specs.Bearers.{IsBuiltFrom};

use deb_version::Version;
use listed::sort_once;
use package_register::{Candidates, Register};
use relation_fields::{Atom, Home, Op, PackageFacts};
use std::alloc::{AllocError, Global};

/// The packages by the names that they have and the names that they provide: a register that also
/// has each provide. Packages are numbered from 0 in their order.
#[derive(Drop)]
pub struct NameTable {
    register: Register,
}

impl NameTable {
    /// The table of no packages.
    pub fn new(alloc: Global) -> Self
        ensures { IsBuiltFrom [] result }
    {
        NameTable {
            register: Register::new(alloc),
        }
    }

    /// The table of the packages, made in time linear in their names and provides.
    pub fn build(alloc: Global, packages: &[PackageFacts]) -> Result<NameTable, AllocError>
        requires { length packages.now < u32.MAX }
        ensures { IfOk result (IsBuiltFrom packages.now) }
    {
        let mut table = NameTable::new(alloc);
        for (number, facts) in packages.iter().enumerate() {
            table.put(number as u32, facts)?;
        }
        Ok(table)
    }

    /// Adds the next package.
    pub fn put(&mut self, number: u32, facts: &PackageFacts) -> Result<(), AllocError>
        ensures { OnOk result ((packages : List PackageFacts) → IsBuiltFrom packages self.old →
            number ≡ length packages → IsBuiltFrom (packages ++ facts.now ∷ []) self.new) }
    {
        let own = Some(&facts.version);
        self.register.put(facts.name.as_slice(), own, number)?;
        let provides = facts.provides.as_slice();
        for provide in provides {
            let version = provide.version.as_ref();
            self.register.put(provide.name.as_slice(), version, number)?;
        }
        Ok(())
    }

    /// The numbers of the packages of a name, ascending, each once.
    pub fn named(
        &self,
        alloc: Global,
        packages: &[PackageFacts],
        name: &[u8],
    ) -> Result<Vec<u32>, AllocError>
        requires { IsBuiltFrom packages.now self.now }
        ensures { IfOk result (λ found. found.items
            ≡ numbers_where (has_name own_name name.now) packages.now) }
    {
        self.register.named(alloc, packages, name)
    }

    /// The numbers of the packages of a name with an equal version, ascending, each once.
    pub fn versioned(
        &self,
        alloc: Global,
        packages: &[PackageFacts],
        name: &[u8],
        version: &Version,
    ) -> Result<Vec<u32>, AllocError>
        requires { IsBuiltFrom packages.now self.now }
        ensures { IfOk result (λ found. found.items ≡ numbers_where
            (is_version_of own_name own_version name.now version.now) packages.now) }
    {
        self.register.versioned(alloc, packages, name, version)
    }

    /// Whether a package has the name.
    pub fn has_name(&self, packages: &[PackageFacts], name: &[u8]) -> bool
        requires { IsBuiltFrom packages.now self.now }
        ensures { result ≡ list_any (has_name own_name name.now) packages.now }
    {
        self.register.has_name(packages, name)
    }

    /// The numbers of the packages that meet the atom, ascending, each once.
    ///
    /// The table was built from these packages. Only the packages that have or provide the atom's
    /// name are asked. If many do and the atom asks for one version exactly, hardly any others than
    /// those in an equal version are asked.
    pub fn meeting(
        &self,
        alloc: Global,
        packages: &[PackageFacts],
        atom: &Atom,
        home: &Home,
    ) -> Result<Vec<u32>, AllocError>
        requires { IsBuiltFrom packages.now self.now }
        ensures { IfOk result (λ found. found.items
            ≡ numbers_where (λ facts. meets atom.now facts home.now) packages.now) }
    {
        let candidates = self.candidates(alloc, atom)?;
        let mut found = met_among(alloc, packages, candidates, atom, home)?;
        sort_once(&mut found);
        Ok(found)
    }

    // Numbers that include those of all packages that meet the atom.
    fn candidates(&self, alloc: Global, atom: &Atom) -> Result<Candidates<'_>, AllocError>
        ensures { IfOk result (λ found.
            AreFor self.now.register atom.now (found.first.now ++ found.others.now)) }
    {
        let name = atom.name.as_slice();
        match exact_version(atom) {
            Some(version) => self.register.candidates(alloc, name, version),
            None => Ok(Candidates {
                first: self.register.bearers(name),
                others: &[],
            }),
        }
    }
}

// The version that the atom asks for exactly, if it does.
fn exact_version(atom: &Atom) -> Option<&Version>
    ensures { option_copied result ≡ exact_version atom.now }
{
    match &atom.bound {
        Some(bound) => match bound.op {
            Op::Exactly => Some(&bound.version),
            Op::Earlier | Op::EarlierEqual | Op::LaterEqual | Op::Later => None,
        },
        None => None,
    }
}

// Those of the candidates whose packages meet the atom.
fn met_among(
    alloc: Global,
    packages: &[PackageFacts],
    candidates: Candidates,
    atom: &Atom,
    home: &Home,
) -> Result<Vec<u32>, AllocError>
    ensures { IfOk result (λ found. found.items ≡ filter (passes_at (λ facts. meets atom.now facts
        home.now) packages.now) (candidates.entry.first.now ++ candidates.entry.others.now)) }
{
    let mut found = Vec::new(alloc);
    put_met(packages, candidates.first, atom, home, &mut found)?;
    put_met(packages, candidates.others, atom, home, &mut found)?;
    Ok(found)
}

// Appends those of the numbers whose packages meet the atom.
fn put_met(
    packages: &[PackageFacts],
    numbers: &[u32],
    atom: &Atom,
    home: &Home,
    found: &mut Vec<u32>,
) -> Result<(), AllocError>
    ensures { OnOk result (found.new.items ≡ found.old.items
        ++ filter (passes_at (λ facts. meets atom.now facts home.now) packages.now) numbers.now) }
{
    for number in numbers {
        if is_met_at(packages, *number, atom, home) {
            found.push(*number)?;
        }
    }
    Ok(())
}

// Whether there is a package with that number, and it meets the atom.
fn is_met_at(packages: &[PackageFacts], number: u32, atom: &Atom, home: &Home) -> bool
    ensures { result ≡ passes_at (λ facts. meets atom.now facts home.now) packages.now number }
{
    match packages.get(number as usize) {
        Some(package) => atom.met_by(package, home),
        None => false,
    }
}
