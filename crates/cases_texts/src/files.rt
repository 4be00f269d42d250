//! Readings of files in which a call fails or a limit is passed, and real files and streams.
//! Reports that are cut are in `cases_commands`.
use byte_flow::{FileShelf, MemShelf, Shelf, StdSink, WriteError, read_file, write_all};
use std::alloc::{AllocError, Global};
use std::fs;
use std::process::Abort;
use std::test::Fail;

/// An empty kernel, as it is printed.
const EMPTY_KERNEL: &str = "coinst-kernel 1\nend 0 0\n";

const FAILED: &str = "the file could not be read";

const TOO_LONG: &str = "the file is longer than the limit";

/// The bytes of a file, or the text of the refusal.
fn bytes_or_refusal<F: Shelf>(
    alloc: Global,
    shelf: &mut F,
    path: &str,
    limit: u64,
) -> Result<Vec<u8>, AllocError> {
    match read_file(alloc, shelf, path, limit) {
        Ok(bytes) => Ok(bytes),
        Err(refusal) => {
            let text = format!(in alloc; "{refusal}")?;
            Vec::from_slice(alloc, text.as_bytes())
        }
    }
}

fn check_bytes<F: Shelf>(
    rt: &(impl Abort + AllocGlobal),
    shelf: &mut F,
    path: &str,
    limit: u64,
    want: &str,
) -> Result<(), AllocError> {
    let got = bytes_or_refusal(rt.alloc(), shelf, path, limit)?;
    assert!(rt;
        got.as_slice() == want.as_bytes(),
        "{path}, limit {limit}: {want}"
    );
    Ok(())
}

/// A shelf of one file, in which a call fails.
fn shelf_of(alloc: Global, call: u64) -> Result<MemShelf, AllocError> {
    let mut shelf = MemShelf::new(alloc, 2);
    shelf.add("a", b"old")?;
    shelf.add("a", b"hello")?;
    shelf.fail_at(call)?;
    Ok(shelf)
}

/// Asserts how such a shelf ends a reading.
fn check_reading(
    rt: &(impl Abort + AllocGlobal),
    call: u64,
    path: &str,
    limit: u64,
    want: &str,
) -> Result<(), AllocError> {
    let mut shelf = shelf_of(rt.alloc(), call)?;
    check_bytes(rt, &mut shelf, path, limit, want)
}

#[test]
fn files_in_memory_are_read_or_refused(rt: HostRuntime) -> Result<(), Fail> {
    for (call, path, limit, want) in [
        (0, "a", 5, "hello"),
        (6, "a", 5, "hello"),
        (1, "a", 5, FAILED),
        (4, "a", 5, FAILED),
        (5, "a", 5, FAILED),
        (0, "b", 5, FAILED),
        (0, "a", 4, TOO_LONG),
        (5, "a", 4, TOO_LONG),
    ] {
        check_reading(&rt, call, path, limit, want)?;
    }
    Ok(())
}

#[test]
fn real_files_are_read(rt: HostRuntime) -> Result<(), Fail> {
    fs::write(&rt, "index", EMPTY_KERNEL)?;
    let mut shelf = FileShelf::new(&rt);
    check_bytes(&rt, &mut shelf, "index", 24, EMPTY_KERNEL)?;
    check_bytes(&rt, &mut shelf, "nowhere", 24, FAILED)?;
    Ok(())
}

#[test]
fn real_streams_take_bytes(rt: HostRuntime) -> Result<(), Fail> {
    let mut out = StdSink::over(fs::create(&rt, "report")?);
    assert!(rt; write_all(&mut out, EMPTY_KERNEL.as_bytes()).is_ok());
    let mut shelf = FileShelf::new(&rt);
    check_bytes(&rt, &mut shelf, "report", 24, EMPTY_KERNEL)?;
    Ok(())
}

/// A file that was opened to be read takes no byte.
#[test]
fn real_streams_fail(rt: HostRuntime) -> Result<(), Fail> {
    fs::write(&rt, "report", EMPTY_KERNEL)?;
    let mut closed = StdSink::over(fs::open(&rt, "report")?);
    let ended = write_all(&mut closed, b"x");
    assert!(rt; matches!(ended, Err(WriteError::Failed { written: 0 })));
    Ok(())
}
