//! Small suites, against texts that another program drew.
use crate::draws::Draws;
use crate::sample_text;
use std::alloc::Global;
use std::test::Fail;

/// Seeds, how many packages, and their indexes.
const SUITES: [(u64, u32, &str); 4] = [
    (7, 1, "Package: p0\nVersion: 1\nDepends: p0 | p0\n\n"),
    (
        1,
        3,
        "Package: p0\nVersion: 1\nDepends: p0 | p0, p2\n\n\
         Package: p1\nVersion: 1\nDepends: p1 | p0\n\n\
         Package: p2\nVersion: 1\nDepends: p2\nConflicts: p1\n\n",
    ),
    (
        14,
        4,
        "Package: p0\nVersion: 1\nDepends: p1\n\n\
         Package: p1\nVersion: 1\n\n\
         Package: p2\nVersion: 1\nDepends: p1 | p1, p3 | p2\nConflicts: p3\n\n\
         Package: p3\nVersion: 1\n\n",
    ),
    (
        18_446_744_073_709_551_615,
        5,
        "Package: p0\nVersion: 1\nDepends: p2 | p2\nConflicts: p2\n\n\
         Package: p1\nVersion: 1\n\n\
         Package: p2\nVersion: 1\nConflicts: p3\n\n\
         Package: p3\nVersion: 1\nDepends: p3\n\n\
         Package: p4\nVersion: 1\n\n",
    ),
];

// The text, if a suite may have this number of packages.
fn text_of(alloc: Global, seed: u64, count: u32) -> Option<Vec<u8>> {
    if count < 1 || count > 200_000 {
        return None;
    }
    sample_text(alloc, seed, count).ok()
}

#[test]
fn suites_are_drawn(rt: HostRuntime) -> Result<(), Fail> {
    let mut draws = Draws { state: 0 };
    let first = draws.below(5);
    assert_eq!(rt; (first, draws.state), (2, 1_442_695_040_888_963_407));
    for (seed, count, index) in SUITES {
        let text = text_of(rt.alloc(), seed, count).ok_or("no text")?;
        assert_eq!(rt; text.as_slice(), index.as_bytes(), "{seed} {count}");
    }
    Ok(())
}
