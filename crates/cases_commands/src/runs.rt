//! Runs over files and streams in memory, against answers that were worked out by hand. In some of
//! them chosen calls fail, or give a byte or seven at a time. Whole commands on files that can be
//! read are in `conformance/cases`. Each function owns few values, since at each `?` in it all of
//! them are dropped.
use byte_flow::{MemShelf, MemSink};
use coinst_run::run;
use std::alloc::{AllocError, Global};
use std::process::Abort;
use std::test::Fail;

/// The kernel of the empty index, and that of one package.
const EMPTY_KERNEL: &str = "coinst-kernel 1\nend 0 0\n";

const ONE_KERNEL: &str = "coinst-kernel 1\nclass 0\nmember a 1\nend 1 1\n";

/// The files of each shelf. `E` is empty, `X` has a fault of its lines, and `R` one of a relation.
/// `T` has a row with two clauses. `O` has three packages that need nothing. In `I` the first of
/// them needs one of the two others, and these conflict. `S` is a status file, and `K` a stored
/// kernel. `A` is an index as an archive writes it. `B` only has blank lines, and `L` a line that
/// is not blank. `D` has a package twice, and `M` two architectures. There is no `N`.
const FILES: [(&str, &str); 13] = [
    ("E", ""),
    ("X", "x"),
    ("R", "Package: a\nVersion: 1\nProvides: x (>> 1)\n"),
    (
        "T",
        "Package: a\nVersion: 1\nDepends: b, c\n\n\
         Package: b\nVersion: 1\n\n\
         Package: c\nVersion: 1\n\n",
    ),
    (
        "O",
        "Package: a\nVersion: 1\n\nPackage: b\nVersion: 1\n\nPackage: c\nVersion: 1\n\n",
    ),
    (
        "I",
        "Package: a\nVersion: 1\nDepends: b | c\n\n\
         Package: b\nVersion: 1\nConflicts: c\n\n\
         Package: c\nVersion: 1\n\n",
    ),
    (
        "S",
        "Package: p\nStatus: install ok installed\nVersion: 1\n\n",
    ),
    ("K", ONE_KERNEL),
    (
        "A",
        "Package: hello\nVersion: 2.10-3\nArchitecture: amd64\nMulti-Arch: foreign\n\
         Depends: libc6 (>= 2.14), python3:any (>= 3.5~)\n\
         Description: example\n .\n It is an example.\n\n\
         Package: libc6\nVersion: 2.36-9+deb12u4\nArchitecture: amd64\n\n\
         Package: python3\nVersion: 3.11.2-1+b1\nArchitecture: all",
    ),
    ("B", "\n \n\n\t\n"),
    ("L", " x\n"),
    (
        "D",
        "Package: a\nVersion: 1.0\n \n\nPackage: a\nVersion: 1.0-0\n",
    ),
    (
        "M",
        "Package: a\nVersion: 1\nArchitecture: amd64\n\n\
         Package: b\nVersion: 1\nArchitecture: arm64\n",
    ),
];

/// The words, and then the status, the report and the line, if no call fails.
const ANSWERS: [(&str, u8, &str, &str); 18] = [
    (
        "kernel A",
        0,
        "coinst-kernel 1\nclass 0\nmember hello 2.10-3\nmember libc6 2.36-9+deb12u4\n\
         member python3 3.11.2-1+b1\nend 1 3\n",
        "",
    ),
    ("kernel B", 0, EMPTY_KERNEL, ""),
    ("kernel X", 3, "", "X: line 1: no colon\n"),
    (
        "kernel L",
        3,
        "",
        "L: line 1: continuation before any field\n",
    ),
    ("kernel D", 3, "", "D: line 5: same package as line 1\n"),
    ("kernel M", 3, "", "M: line 7: second architecture\n"),
    (
        "kernel I",
        0,
        "coinst-kernel 1\nclass 0\nmember a 1\nclass 1\nmember b 1\nagainst 2\nclass 2\n\
         member c 1\nend 3 3\n",
        "",
    ),
    ("query I b c", 1, "no\nlog\n", ""),
    ("query --kernel K a", 0, "yes\nclass 0\n", ""),
    ("compare O I", 1, "broken b c\nend 1 0\n", ""),
    (
        "explain I a b c",
        1,
        "goal b\ngoal c\nclash b 1 c 1\nend 2 1\n",
        "",
    ),
    (
        "status S I",
        0,
        "lack p 1\nforeign 0\nself healthy\nsuite yes\nend 0 1\n",
        "",
    ),
    ("migrate O I", 1, "take a\nleft b broken b c\nend 1 1\n", ""),
    ("kernel", 2, "", "words: not a command of coinst\n"),
    ("kernel R", 3, "", "R: line 3: bad relation, element 1\n"),
    (
        "kernel --clause-limit 1 T",
        4,
        "",
        "T: clause limit 1 passed: round 1, gone 0, package a 1, clauses 2\n",
    ),
    ("kernel N", 5, "", "N: read failed\n"),
    ("query I a zz", 9, "", "goal 2 is unknown: zz\n"),
];

/// The words, the call of the shelf that fails, and then the status, the report and the line. Each
/// of these files takes three calls when all is read at once.
const READS: [(&str, u64, u8, &str, &str); 17] = [
    (
        "sample 7 1",
        1,
        0,
        "packages 1 classes 1 clauses 0 conflicts 0\n",
        "",
    ),
    ("kernel I", 1, 5, "", "I: read failed\n"),
    ("kernel I", 2, 5, "", "I: read failed\n"),
    ("kernel X", 3, 5, "", "X: read failed\n"),
    ("compare O I", 1, 5, "", "O: read failed\n"),
    ("compare O I", 2, 5, "", "O: read failed\n"),
    ("compare O I", 3, 5, "", "O: read failed\n"),
    ("compare O I", 4, 5, "", "I: read failed\n"),
    ("compare O I", 5, 5, "", "I: read failed\n"),
    ("compare O I", 6, 5, "", "I: read failed\n"),
    ("compare O I", 7, 1, "broken b c\nend 1 0\n", ""),
    ("migrate O I", 2, 5, "", "O: read failed\n"),
    ("migrate O I", 5, 5, "", "I: read failed\n"),
    ("status S I", 3, 5, "", "I: read failed\n"),
    ("status S I", 4, 5, "", "S: read failed\n"),
    ("status S I", 6, 5, "", "S: read failed\n"),
    (
        "status S I",
        7,
        0,
        "lack p 1\nforeign 0\nself healthy\nsuite yes\nend 0 1\n",
        "",
    ),
];

/// The words, the writes of standard output and of standard error that fail, 0 for none, and then
/// the status, the report and the line.
const WRITES: [(&str, u64, u64, u8, &str, &str); 9] = [
    ("kernel E", 1, 0, 6, "", "write failed after 0 bytes\n"),
    (
        "kernel E",
        2,
        0,
        6,
        "coinst-ker",
        "write failed after 10 bytes\n",
    ),
    (
        "kernel E",
        3,
        0,
        6,
        "coinst-kernel 1\nend ",
        "write failed after 20 bytes\n",
    ),
    ("kernel E", 2, 1, 6, "coinst-ker", ""),
    ("kernel E", 0, 1, 0, EMPTY_KERNEL, ""),
    ("kernel", 0, 1, 2, "", ""),
    ("kernel R", 0, 1, 3, "", ""),
    ("kernel --clause-limit 1 T", 0, 1, 4, "", ""),
    ("kernel N", 0, 1, 5, "", ""),
];

/// The calls of the shelf, of standard output and of standard error that fail, 0 for none, and the
/// bytes that the shelf gives at a time.
#[derive(Clone, Copy)]
struct Given {
    read: u64,
    write: u64,
    tell: u64,
    step: u32,
}

/// The status, the report and the line that are wanted of a run, and what the run is called if it
/// gives others.
#[derive(Clone, Copy)]
struct Wanted<'a> {
    code: u8,
    report: &'a str,
    line: &'a str,
    told: &'a str,
}

fn strings(alloc: Global, words: &str) -> Result<Vec<String>, AllocError> {
    let mut made = Vec::new(alloc);
    for word in words.split_whitespace() {
        made.push(String::from_str(alloc, word)?)?;
    }
    Ok(made)
}

fn add_files(shelf: &mut MemShelf) -> Result<(), AllocError> {
    for (path, text) in FILES.iter() {
        shelf.add(path, text.as_bytes())?;
    }
    Ok(())
}

fn shelf(alloc: Global, given: Given) -> Result<MemShelf, AllocError> {
    let mut shelf = MemShelf::new(alloc, given.step.max(1));
    add_files(&mut shelf)?;
    shelf.fail_at(given.read)?;
    Ok(shelf)
}

/// A stream with room enough that takes ten bytes at a time.
fn stream(alloc: Global, failing: u64) -> Result<MemSink, AllocError> {
    let mut stream = MemSink::new(alloc, 10);
    stream.make_room(1_000)?;
    stream.fail_at(failing)?;
    Ok(stream)
}

fn check_taken(rt: &impl Abort, stream: &MemSink, wanted: &str, told: &str) {
    assert!(rt; stream.taken() == wanted.as_bytes(), "{told}");
}

/// The status of a run, in a function that does nothing else, since all that `run` promises is
/// carried to its end.
fn status_of(
    alloc: Global,
    words: &[String],
    shelf: &mut MemShelf,
    out: &mut MemSink,
    err: &mut MemSink,
) -> u8 {
    run(alloc, words, shelf, out, err).code()
}

fn check_run(
    rt: &(impl Abort + AllocGlobal),
    words: &[String],
    shelf: &mut MemShelf,
    out: &mut MemSink,
    err: &mut MemSink,
    wanted: Wanted<'_>,
) {
    let told = wanted.told;
    let code = status_of(rt.alloc(), words, shelf, out, err);
    assert!(rt; code == wanted.code, "{told}");
    check_taken(rt, out, wanted.report, told);
    check_taken(rt, err, wanted.line, told);
}

fn check_streams(
    rt: &(impl Abort + AllocGlobal),
    words: &[String],
    shelf: &mut MemShelf,
    given: Given,
    wanted: Wanted<'_>,
) -> Result<(), AllocError> {
    let mut out = stream(rt.alloc(), given.write)?;
    let mut err = stream(rt.alloc(), given.tell)?;
    check_run(rt, words, shelf, &mut out, &mut err, wanted);
    Ok(())
}

fn check_words(
    rt: &(impl Abort + AllocGlobal),
    words: &str,
    given: Given,
    wanted: Wanted<'_>,
) -> Result<(), AllocError> {
    let made = strings(rt.alloc(), words)?;
    let mut shelf = shelf(rt.alloc(), given)?;
    check_streams(rt, made.as_slice(), &mut shelf, given, wanted)
}

fn told(alloc: Global, words: &str, given: Given) -> Result<String, AllocError> {
    let Given {
        read,
        write,
        tell,
        step,
    } = given;
    format!(in alloc; "{words}, read {read}, write {write}, tell {tell}, step {step}")
}

/// Holds the status, the report and the line of a run against those that are wanted.
fn expect(
    rt: &(impl Abort + AllocGlobal),
    words: &str,
    given: Given,
    code: u8,
    report: &str,
    line: &str,
) -> Result<(), AllocError> {
    let told = told(rt.alloc(), words, given)?;
    let wanted = Wanted {
        code,
        report,
        line,
        told: told.as_str(),
    };
    check_words(rt, words, given, wanted)
}

#[test]
fn answers_have_their_causes(rt: HostRuntime) -> Result<(), Fail> {
    for (words, code, report, line) in ANSWERS.iter() {
        for step in [65_536, 7, 1].iter() {
            let given = Given {
                read: 0,
                write: 0,
                tell: 0,
                step: *step,
            };
            expect(&rt, words, given, *code, report, line)?;
        }
    }
    Ok(())
}

#[test]
fn failed_reads_end_the_work(rt: HostRuntime) -> Result<(), Fail> {
    for (words, read, code, report, line) in READS.iter() {
        let given = Given {
            read: *read,
            write: 0,
            tell: 0,
            step: 65_536,
        };
        expect(&rt, words, given, *code, report, line)?;
    }
    Ok(())
}

#[test]
fn failed_writes_keep_the_status(rt: HostRuntime) -> Result<(), Fail> {
    for (words, write, tell, code, report, line) in WRITES.iter() {
        let given = Given {
            read: 0,
            write: *write,
            tell: *tell,
            step: 65_536,
        };
        expect(&rt, words, given, *code, report, line)?;
    }
    Ok(())
}
