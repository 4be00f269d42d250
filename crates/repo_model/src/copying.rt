//! Copies of what a stanza says; lists of atoms are shared.
ghost use Rattle.std.specs.Prelude.{◌≡◌, IfOk};

use deb_version::{Bytes, Version};
use listed::Listed;
use relation_fields::{AtomList, ElementList, Home, PackageFacts, Provide, ProvideList};
use std::alloc::{AllocError, Global};

/// A copy of the facts, with shared lists of atoms.
pub(crate) fn copy_of_facts(alloc: Global, facts: &PackageFacts) -> Result<PackageFacts, AllocError>
    ensures { IfOk result (λ made. made ≡ facts.now) }
{
    Ok(PackageFacts {
        line: facts.line,
        name: Bytes::copy(alloc, facts.name.as_slice())?,
        version: copy_of_version(alloc, &facts.version)?,
        is_arch_dependent: facts.is_arch_dependent,
        needs: shared(alloc, facts.needs.as_slice())?,
        against: facts.against.share()?,
        provides: copy_of_provides(alloc, facts.provides.as_slice())?,
    })
}

/// A copy of the architecture.
pub(crate) fn copy_of_home(alloc: Global, home: &Home) -> Result<Home, AllocError>
    ensures { IfOk result (λ made. made ≡ home.now) }
{
    let name = copy_of_text(alloc, &home.name)?;
    Ok(Home { name })
}

// The lists of atoms for a further owner.
fn shared(alloc: Global, elements: &[AtomList]) -> Result<ElementList, AllocError>
    ensures { IfOk result (λ made. made ≡ elements.now) }
{
    let mut made = Listed::of(Vec::with_capacity(alloc, elements.len())?);
    for element in elements {
        made.push(element.share()?)?;
    }
    Ok(made)
}

// A copy of the provides.
fn copy_of_provides(alloc: Global, provides: &[Provide]) -> Result<ProvideList, AllocError>
    ensures { IfOk result (λ made. made ≡ provides.now) }
{
    let mut made = Listed::of(Vec::with_capacity(alloc, provides.len())?);
    for provide in provides {
        made.push(copy_of_provide(alloc, provide)?)?;
    }
    Ok(made)
}

// A copy of the provide.
fn copy_of_provide(alloc: Global, provide: &Provide) -> Result<Provide, AllocError>
    ensures { IfOk result (λ made. made ≡ provide.now) }
{
    let name = Bytes::copy(alloc, provide.name.as_slice())?;
    let qualifier = copy_of_text(alloc, &provide.qualifier)?;
    let version = match &provide.version {
        Some(version) => Some(copy_of_version(alloc, version)?),
        None => None,
    };
    Ok(Provide {
        name,
        qualifier,
        version,
    })
}

// A copy of the text, if there is one.
fn copy_of_text(alloc: Global, text: &Option<Bytes>) -> Result<Option<Bytes>, AllocError>
    ensures { IfOk result (λ made. made ≡ text.now) }
{
    match text {
        Some(bytes) => Ok(Some(Bytes::copy(alloc, bytes.as_slice())?)),
        None => Ok(None),
    }
}

// A copy of the version.
fn copy_of_version(alloc: Global, version: &Version) -> Result<Version, AllocError>
    ensures { IfOk result (λ made. made ≡ version.now) }
{
    // A version's text is well formed, so only memory can be missing.
    Version::parse(alloc, version.text()).map_err(|_| AllocError)
}
