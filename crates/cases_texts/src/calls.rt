//! Calls that no command makes: keys of versions, the front of a text that is closed, and fields of
//! relations read by themselves. How versions compare is tried by runs of `tool_versions`. Faults,
//! and which packages meet an atom, are cases of `conformance/cases`.
use deb_version::Version;
use relation_fields::{RelationError, parse_against, parse_needs, parse_provides};
use stanza_reader::closed_front;
use std::alloc::Global;
use std::test::Fail;

#[test]
fn writes_keys(rt: HostRuntime) -> Result<(), Fail> {
    let key = Version::parse(rt.alloc(), b"01:02.0a00-~007")?.key(rt.alloc())?;
    assert!(rt; key.as_slice() == b"1 2.0a ~7".as_slice());
    Ok(())
}

#[test]
fn closed_fronts(rt: HostRuntime) -> Result<(), Fail> {
    for (text, front) in [
        (b"".as_slice(), None),
        (b"\n \t\n\n", None),
        (b"a: 1", None),
        (b"a: 1\n", None),
        (b"a: 1\n ", None),
        (b"a: 1\n\n", Some(6)),
        (b"a: 1\n \t\n\nb: 2\n\n", Some(8)),
        (b"\n\n b\nc\n\nd", Some(8)),
    ] {
        assert_eq!(rt; closed_front(text), front);
    }
    Ok(())
}

/// How many elements there are in what a package needs.
fn needs(alloc: Global, value: &[u8]) -> Result<usize, RelationError> {
    if value.len() > 1000 {
        return Ok(0);
    }
    let elements = parse_needs(alloc, value)?;
    Ok(elements.as_slice().len())
}

/// How many atoms there are in what a package conflicts with.
fn against(alloc: Global, value: &[u8]) -> Result<usize, RelationError> {
    if value.len() > 1000 {
        return Ok(0);
    }
    let atoms = parse_against(alloc, value)?;
    Ok(atoms.as_slice().len())
}

/// How many names a package provides.
fn provides(alloc: Global, value: &[u8]) -> Result<usize, RelationError> {
    if value.len() > 1000 {
        return Ok(0);
    }
    let provides = parse_provides(alloc, value)?;
    Ok(provides.as_slice().len())
}

#[test]
fn fields_are_read(rt: HostRuntime) {
    let alloc = rt.alloc();
    assert!(rt; needs(alloc, b"a (>= 1) , b:any | c,") == Ok(2));
    assert!(rt; against(alloc, b"a:any, b (<< 2),, c") == Ok(3));
    assert!(rt; provides(alloc, b"a (= 1:2-3), b:amd64") == Ok(2));
    assert!(rt; needs(alloc, b"a, |") == Err(RelationError::Shape { element: 2 }));
}
