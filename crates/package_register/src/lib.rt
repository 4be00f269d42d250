//! A register of what has a name and a version: it finds each by its name, and by its name with an
//! equal version.
#![tactic(auto)]

mod hashed;
mod keys;
mod lookup;
mod register;

pub use register::{Candidates, Register};

#[cfg(test)]
mod tests {
    use super::*;
    use deb_version::{Bytes, Named, Version};
    use std::alloc::{AllocError, Global};
    use std::test::Fail;

    #[derive(Drop)]
    struct Thing {
        name: Bytes,
        version: Version,
    }

    impl Named for Thing {
        ghost name_of = { λ thing. thing.name };

        ghost version_of = { λ thing. thing.version };

        fn name(&self) -> &[u8] {
            self.name.as_slice()
        }

        fn version(&self) -> &Version {
            &self.version
        }
    }

    fn version(alloc: Global, text: &[u8]) -> Result<Version, AllocError> {
        Version::parse(alloc, text).map_err(|_| AllocError)
    }

    fn made(alloc: Global, name: &[u8], text: &[u8]) -> Result<Thing, AllocError> {
        let version = version(alloc, text)?;
        let name = Bytes::copy(alloc, name)?;
        Ok(Thing { name, version })
    }

    fn thing_at(alloc: Global, place: u32) -> Result<Thing, AllocError> {
        match place {
            1 => made(alloc, b"b", b"1"),
            2 => made(alloc, b"a", b"2-0"),
            28 => made(alloc, b"a", b"0:3"),
            _ => made(alloc, b"a", b"4"),
        }
    }

    // More of one name than are gone through, so most are found by a key.
    fn many(alloc: Global) -> Result<Vec<Thing>, AllocError> {
        let mut things = Vec::new(alloc);
        for place in 0..33 {
            let thing = thing_at(alloc, place)?;
            things.push(thing)?;
        }
        Ok(things)
    }

    #[test]
    fn finds_by_name(rt: HostRuntime) -> Result<(), Fail> {
        let alloc = rt.alloc();
        let things = many(alloc)?;
        let items = things.as_slice();
        assert!(rt; items.len() == 33);
        let register = Register::of(alloc, items)?;
        let found = register.named(alloc, items, b"b")?;
        assert_eq!(rt; found.as_slice(), [1].as_slice());
        assert!(rt; register.has_name(items, b"a"));
        assert!(rt; !register.has_name(items, b"c"));
        Ok(())
    }

    #[test]
    fn finds_by_an_equal_version(rt: HostRuntime) -> Result<(), Fail> {
        let alloc = rt.alloc();
        let things = many(alloc)?;
        let items = things.as_slice();
        assert!(rt; items.len() == 33);
        let register = Register::of(alloc, items)?;
        let cases: [(&[u8], u32); 2] = [(b"2", 2), (b"3", 28)];
        for (text, place) in cases {
            let asked = version(alloc, text)?;
            let found = register.versioned(alloc, items, b"a", &asked)?;
            assert_eq!(rt; found.as_slice(), [place].as_slice());
        }
        Ok(())
    }
}
