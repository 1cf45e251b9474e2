// What words ask for: settings of the heap, and a file.
ghost use Rattle.std.specs.Prelude.{None};

use super::{Given, check, ended, listed};
use crate::{Outcome, run};
use mm_io::{MemSink, NamedFiles, Source, StdSource};
use std::alloc::Global;
use std::fs::File;
use std::io::{Error, ErrorKind};
use std::process::Abort;
use std::test::Fail;
use std::{fs, io};

fn check_words<'a>(
    rt: &impl Abort,
    alloc: Global,
    words: &'a [&'a str],
    trace: &'a str,
    log: &str,
) -> Result<(), Fail> {
    let given = Given {
        words,
        ..Given::whole(trace.as_bytes())
    };
    check(rt, alloc, &given, 0, log.as_bytes(), b"")
}

fn check_file<'a>(
    rt: &impl Abort,
    alloc: Global,
    words: &'a [&'a str],
    reads: &'a [u32],
    status: u8,
    log: &[u8],
    said: &[u8],
) -> Result<(), Fail> {
    let given = Given {
        words,
        reads,
        file: Some(("t", b"new t 0 4\n")),
        ..Given::whole(b"pop")
    };
    check(rt, alloc, &given, status, log, said)
}

#[test]
fn words_that_cannot_be_read_are_refused(rt: HostRuntime) -> Result<(), Fail> {
    let refused: [&[&str]; 32] = [
        &["--count", "2"],
        &["--gen", "2"],
        &["--gen", "1", "--count", "4000001"],
        &["--gen", "1", "--count", "1", "--why", "1"],
        &["--gen", "1", "--count", "1", "--pace", "1"],
        &["--pace", "0"],
        &["--pace", "1025"],
        &["--pace", "x"],
        &["--pace", "1", "--pace", "2"],
        &["--pace"],
        &["--why", "x"],
        &["--why", "1", "--why", "2"],
        &["--gen", "2", "--count", "2", "FILE"],
        &["--gen", "2", "--count", "2", "-"],
        &["--gen", "4294967296", "--count", "2"],
        &["--gen", "2", "--count", "x"],
        &["--pages", "4097"],
        &["--pages", "1"],
        &["--pages", "4", "--max", "3"],
        &["--max", "4097"],
        &["--zct", "0"],
        &["--zct", "1048576"],
        &["--queue", "65537"],
        &["--stack", "x"],
        &["--stack", "+1"],
        &["--stack", ""],
        &["--stack", "00000000001"],
        &["--depth", "1"],
        &["--pages"],
        &["--zct", "2", "--zct", "2"],
        &["--help"],
        &["a", "b"],
    ];
    for words in refused {
        let given = Given {
            words,
            ..Given::whole(b"new t 0 4\n")
        };
        check(&rt, rt.alloc(), &given, 2, b"", b"mmgc: bad arguments\n")?;
    }
    Ok(())
}

#[test]
fn options_set_the_heap(rt: HostRuntime) -> Result<(), Fail> {
    let deep = "push 1\npush 2\ndup 3\npop 2\n";
    let deep_log = "ok\nstack full\nno cell\nno cell\ntotal 4 0 0 0\n";
    let small = "new t 0 0\nstat\n";
    let small_log = "new 4096\nstat 1 0 0 1\ntotal 2 1 0 1\n";
    let rows: [(&[&str], &str, &str); 6] = [
        (&["--stack", "1"], deep, deep_log),
        (&["--stack=1", "-"], deep, deep_log),
        (&["--stack", "0000000001", "--"], deep, deep_log),
        (&["--pages", "3"], small, small_log),
        (&["--max", "3", "--pages=3", "--zct", "1"], small, small_log),
        (&["--queue", "1", "--pages", "3"], small, small_log),
    ];
    for (words, trace, log) in rows {
        check_words(&rt, rt.alloc(), words, trace, log)?;
    }
    Ok(())
}

// The second object is found from the area alone, and the first one from a slot of it.
#[test]
fn what_keeps_an_object_stands_behind_the_totals(rt: HostRuntime) -> Result<(), Fail> {
    let rows: [(&str, &str, &str); 8] = [
        (
            "8200",
            "root 0 1\nnew t 0 4\nnew t 0 4\nput 0 2 1\naput 0 0 0\npop 2\n",
            "area 0 4096\nnew 8192\nnew 8224\nok\nok\nok\ntotal 6 2 0 2\npath 2\n area 0 0 8224\n slot 2 8192\n",
        ),
        (
            "4096",
            "new l 0 0\npop 1\n",
            "new 4096\nok\ntotal 2 1 0 1\nnone\n",
        ),
        ("0", "new l 0 0\n", "new 4096\ntotal 1 1 0 1\nno object\n"),
        (
            "4127",
            "new t 0 4\ndup 0\n",
            "new 4096\nok\ntotal 2 1 0 1\npath 1\n stack 0 4096\n",
        ),
        (
            "4128",
            "new t 0 4\n",
            "new 4096\ntotal 1 1 0 1\nno object\n",
        ),
        (
            "4096",
            "root 0 1\nnew t 0 4\n",
            "area 0 4096\nnew 8192\ntotal 2 1 0 1\nno object\n",
        ),
        (
            "4096",
            "new t 0 4\npop 1\ncollect\n",
            "new 4096\nok\n collect 1\n free 4096\nok\ntotal 3 1 1 0\nno object\n",
        ),
        (
            "8192",
            "root 0 1\nnew t 0 4\naput 0 0 0\n",
            "area 0 4096\nnew 8192\nok\ntotal 3 1 0 1\npath 1\n stack 0 8192\n",
        ),
    ];
    for (word, trace, log) in rows {
        check_words(&rt, rt.alloc(), &["--why", word], trace, log)?;
    }
    Ok(())
}

// What the input has isn't read. The first command makes an area. Of two pages only one can hold a piece, and an object
// shares no page with an area.
#[test]
fn a_generated_trace_writes_its_totals_alone(rt: HostRuntime) -> Result<(), Fail> {
    let rows: [(&[&str], &str); 6] = [
        (&["--gen", "1", "--count", "0"], "total 0 0 0 0\n"),
        (&["--gen", "1", "--count", "1"], "total 1 0 0 0\n"),
        (&["--gen", "1", "--count", "2"], "total 2 0 0 0\n"),
        (&["--gen", "2", "--count", "2"], "total 2 1 0 1\n"),
        (&["--count=2", "--pages=2", "--gen=2"], "total 2 0 0 0\n"),
        (&["--count=2", "--pages=3", "--gen=2"], "total 2 1 0 1\n"),
    ];
    for (words, log) in rows {
        check_words(&rt, rt.alloc(), words, "pop", log)?;
    }
    Ok(())
}

#[test]
fn a_seed_gives_the_same_totals_again(rt: HostRuntime) -> Result<(), Fail> {
    let given = Given {
        words: &["--gen", "7", "--count", "200000", "--queue", "1"],
        ..Given::whole(b"")
    };
    let first = ended(rt.alloc(), &given)?;
    assert_eq!(rt; first.status, 0);
    check(&rt, rt.alloc(), &given, 0, first.log.as_slice(), b"")
}

#[test]
fn the_write_of_a_total_line_may_fail(rt: HostRuntime) -> Result<(), Fail> {
    for (call, log) in [(1, ""), (2, "total 2"), (3, "total 2 1 0 1\n")] {
        let given = Given {
            words: &["--gen", "2", "--count", "2"],
            writes: &[call],
            ..Given::whole(b"")
        };
        check(
            &rt,
            rt.alloc(),
            &given,
            4,
            log.as_bytes(),
            b"mmgc: write failed\n",
        )?;
    }
    Ok(())
}

// Where nothing was written, the one call of the log's sink is a flush.
#[test]
fn a_failed_flush_comes_before_a_file_that_is_not_opened(rt: HostRuntime) -> Result<(), Fail> {
    let given = Given {
        words: &["t"],
        reads: &[1],
        writes: &[1],
        ..Given::whole(b"pop")
    };
    check(&rt, rt.alloc(), &given, 4, b"", b"mmgc: write failed\n")
}

#[test]
fn a_named_file_takes_the_place_of_the_input(rt: HostRuntime) -> Result<(), Fail> {
    let alloc = rt.alloc();
    let log = b"new 4096\ntotal 1 1 0 1\n".as_slice();
    check_file(&rt, alloc, &["t"], &[], 0, log, b"")?;
    check_file(&rt, alloc, &["--", "t"], &[], 0, log, b"")?;
    check_file(&rt, alloc, &["u"], &[], 0, b"total 0 0 0 0\n", b"")?;
    let said = b"mmgc: line 1: wrong number of words\n".as_slice();
    check_file(&rt, alloc, &[], &[], 1, b"", said)?;
    check_file(&rt, alloc, &["-"], &[], 1, b"", said)?;
    check_file(&rt, alloc, &["t"], &[1], 3, b"", b"mmgc: read failed\n")
}

// The status and the log, and what is said.
fn run_over_file<S: Source>(
    alloc: Global,
    source: &mut S,
    name: &str,
) -> Result<(u8, MemSink, MemSink), Fail> {
    let words = listed(alloc, &[name])?;
    let mut out = MemSink::make(alloc, 100, 7, Vec::new(alloc))?;
    let mut err = MemSink::make(alloc, 100, 3, Vec::new(alloc))?;
    let Outcome { status, heap } = run(alloc, &words, source, &mut out, &mut err);
    if let Some(heap) = heap {
        heap.close();
    }
    Ok((status, out, err))
}

/// Files for whose opening there is no memory.
#[derive(Clone, Copy)]
struct NoMemoryFiles;

impl NamedFiles for NoMemoryFiles {
    type File = File;

    ghost named = { λ _. None };

    fn open(&self, _name: &str) -> io::Result<File> {
        Err(Error::from(ErrorKind::OutOfMemory))
    }
}

#[test]
fn want_of_memory_is_said(rt: HostRuntime) -> Result<(), Fail> {
    let mut source = StdSource::make(rt.stdin(), NoMemoryFiles);
    let (status, log, said) = run_over_file(rt.alloc(), &mut source, "t")?;
    assert_eq!(rt; status, 5);
    assert_eq!(rt; log.taken(), b"".as_slice());
    assert_eq!(rt; said.taken(), b"mmgc: out of memory\n".as_slice());
    Ok(())
}

#[test]
fn a_file_of_the_host_is_replayed(rt: HostRuntime) -> Result<(), Fail> {
    let name = "a_trace_of_one_object";
    let mut source = StdSource::make(rt.stdin(), rt);
    fs::write(&rt, name, "new t 0 4\n")?;
    let (status, log, _) = run_over_file(rt.alloc(), &mut source, name)?;
    assert_eq!(rt; status, 0);
    assert_eq!(rt; log.taken(), b"new 4096\ntotal 1 1 0 1\n".as_slice());
    fs::remove_file(&rt, name)?;
    let (status, log, _) = run_over_file(rt.alloc(), &mut source, name)?;
    assert_eq!(rt; status, 3);
    assert_eq!(rt; log.taken(), b"".as_slice());
    Ok(())
}
