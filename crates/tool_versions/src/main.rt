//! Compares versions. For each line `LEFT RIGHT` of standard input it writes `<`, `=` or `>`, or
//! `?` if one of the two is no version.
#![tactic(auto)]

ghost use Rattle.std.specs.Prelude.{◌≡◌, ◌&&◌, IfOk, IfErr, false, true};
ghost use Rattle.deb_version.specs.{Grammar.{is_version}, Order.{version_order}};
ghost use Rattle.deb_version.specs.Refusals.{OnShape};
ghost use Rattle.tool_versions.specs.Signs.{sign_between};

use deb_version::{Version, VersionError};
use std::alloc::{AllocError, Global};
use std::cmp::Ordering;
use std::io;
use std::io::{BufRead, BufReader, BufWriter, Write};

fn main(rt: HostRuntime) -> io::Result<()> {
    let mut out = BufWriter::new(rt.alloc(), io::writer(&rt))?;
    for line in BufReader::new(rt.alloc(), rt.reader())?.lines(rt.alloc()) {
        let line = line?;
        let sign = sign_of(rt.alloc(), line.as_str())?;
        writeln!(out, "{sign}")?;
    }
    out.flush()
}

/// The sign between the two texts of a line, or `?` if it has no space.
fn sign_of(alloc: Global, line: &str) -> Result<&'static str, AllocError> {
    let Some((left, right)) = line.split_once(' ') else {
        return Ok("?");
    };
    sign_of_two(alloc, left, right)
}

/// The sign between two texts.
fn sign_of_two(alloc: Global, left: &str, right: &str) -> Result<&'static str, AllocError>
    ensures { IfOk result (λ sign. sign.now ≡ sign_between left.now right.now) }
{
    match order_of(alloc, left, right) {
        Ok(Ordering::Less) => Ok("<"),
        Ok(Ordering::Equal) => Ok("="),
        Ok(Ordering::Greater) => Ok(">"),
        Err(VersionError::Shape) => Ok("?"),
        Err(VersionError::Memory) => Err(AllocError),
    }
}

/// The order of two texts of versions.
fn order_of(alloc: Global, left: &str, right: &str) -> Result<Ordering, VersionError>
    ensures order { IfOk result (λ order. order ≡ version_order left.now right.now) }
    ensures both { IfOk result (λ _. (is_version left.now && is_version right.now) ≡ true) }
    ensures shape { IfErr result (OnShape ((is_version left.now && is_version right.now) ≡ false)) }
{
    let left = Version::parse(alloc, left.as_bytes())?;
    let right = Version::parse(alloc, right.as_bytes())?;
    Ok(left.order(&right))
}
