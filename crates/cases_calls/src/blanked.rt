//! A text in which the lines of a stanza are made empty.
ghost use Rattle.std.specs.Prelude.{◌≡◌, Ok, length};
ghost use Rattle.stanza_reader.specs.Blanking.{HasFlags};

use stanza_reader::{blank_lines, read_stanzas};
use std::alloc::AllocError;
use std::process::Abort;
use std::test::Fail;

/// Asserts what is left of a text by these flags.
fn check_left(
    rt: &(impl Abort + AllocGlobal),
    text: &[u8],
    keep: &[bool],
    wanted: &[u8],
) -> Result<(), AllocError>
    requires { HasFlags text.now keep.now }
{
    let left = blank_lines(rt.alloc(), text, keep)?;
    assert!(rt; left.as_slice() == wanted);
    Ok(())
}

fn check_blanked(
    rt: &(impl Abort + AllocGlobal),
    text: &[u8],
    keep: &[bool],
    wanted: &[u8],
) -> Result<(), Fail> {
    let all = read_stanzas(rt.alloc(), text)?;
    assert!(rt; all.as_slice().len() == keep.len());
    check_left(rt, text, keep, wanted)?;
    Ok(())
}

#[test]
fn the_second_stanza_is_left(rt: HostRuntime) -> Result<(), Fail> {
    let text = b"Package: a\n\nPackage: b\nVersion: 1\n".as_slice();
    let wanted = b"\n\nPackage: b\nVersion: 1\n".as_slice();
    check_blanked(&rt, text, &[false, true], wanted)
}
