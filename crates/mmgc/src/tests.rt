ghost use Rattle.std.specs.Prelude.{◌≤◌};

mod failures;
mod faults;
mod large;
mod paced;
mod pieces;
mod recount;
mod rows;
mod sited;
mod text;
mod words;
mod worked;

use crate::{Outcome, run};
use mm_io::{MemSink, MemSource};
use std::alloc::{AllocError, Global};
use std::process::Abort;
use std::test::Fail;

/// Words, a named file, a trace, the most bytes of one read and of one write of the log, the room for the log, and the
/// numbers of the calls that fail: of the source, of the log's sink, and of the sink for what is said.
#[derive(Clone, Copy)]
struct Given<'a> {
    words: &'a [&'a str],
    file: Option<(&'a str, &'a [u8])>,
    trace: &'a [u8],
    piece: usize,
    log_piece: usize,
    room: usize,
    reads: &'a [u32],
    writes: &'a [u32],
    says: &'a [u32],
}

impl<'a> Given<'a> {
    fn whole(trace: &'a [u8]) -> Given<'a>
        ensures piece { 1 ≤ result.piece }
        ensures log_piece { 1 ≤ result.log_piece }
    {
        Given {
            words: &[],
            file: None,
            trace,
            piece: 5,
            log_piece: 7,
            room: 20000,
            reads: &[],
            writes: &[],
            says: &[],
        }
    }
}

fn listed(alloc: Global, words: &[&str]) -> Result<Vec<String>, AllocError> {
    let mut list = Vec::new(alloc);
    for word in words {
        list.push(String::from_str(alloc, word)?)?;
    }
    Ok(list)
}

/// What a run came to: its status, its log, and what it said.
#[derive(Drop)]
struct Written {
    status: u8,
    log: Vec<u8>,
    said: Vec<u8>,
}

fn ended(alloc: Global, given: &Given<'_>) -> Result<Written, Fail>
    requires piece { 1 ≤ given.now.piece }
    requires log_piece { 1 ≤ given.now.log_piece }
{
    let words = listed(alloc, given.words)?;
    let mut source = MemSource::make(
        given.trace.to_vec(alloc)?,
        given.piece,
        given.reads.to_vec(alloc)?,
    );
    if let Some((name, bytes)) = given.file {
        source = source.with_file(String::from_str(alloc, name)?, bytes.to_vec(alloc)?);
    }
    let mut out = MemSink::make(
        alloc,
        given.room,
        given.log_piece,
        given.writes.to_vec(alloc)?,
    )?;
    let mut err = MemSink::make(alloc, 100, 3, given.says.to_vec(alloc)?)?;
    let Outcome { status, heap } = run(alloc, &words, &mut source, &mut out, &mut err);
    if let Some(heap) = heap {
        heap.close();
    }
    Ok(Written {
        status,
        log: out.taken().to_vec(alloc)?,
        said: err.taken().to_vec(alloc)?,
    })
}

fn check(
    rt: &impl Abort,
    alloc: Global,
    given: &Given<'_>,
    status: u8,
    log: &[u8],
    said: &[u8],
) -> Result<(), Fail>
    requires piece { 1 ≤ given.now.piece }
    requires log_piece { 1 ≤ given.now.log_piece }
{
    let ended = ended(alloc, given)?;
    assert_eq!(rt; ended.status, status);
    assert_eq!(rt; ended.log.as_slice(), log);
    assert_eq!(rt; ended.said.as_slice(), said);
    Ok(())
}

#[test]
fn whole_traces_end_with_a_total_line(rt: HostRuntime) -> Result<(), Fail> {
    for (trace, log) in [
        ("", "total 0 0 0 0\n"),
        ("new t 0 4\n", "new 4096\ntotal 1 1 0 1\n"),
        (
            "# two\n\nnew t 0 4\nnew t 0 4",
            "new 4096\nnew 4128\ntotal 2 2 0 2\n",
        ),
        (
            "new t 0 1048575\nnew t 0 1048576\n",
            " reap 0\n collect 0\nfull\nbad shape\ntotal 2 0 0 0\n",
        ),
    ] {
        check(
            &rt,
            rt.alloc(),
            &Given::whole(trace.as_bytes()),
            0,
            log.as_bytes(),
            b"",
        )?;
    }
    Ok(())
}

#[test]
fn the_stack_is_full_before_the_region_is(rt: HostRuntime) -> Result<(), Fail> {
    let alloc = rt.alloc();
    let mut trace = Vec::new(alloc);
    let mut log = Vec::new(alloc);
    for cell in 0..1024u32 {
        trace.extend_from_slice(b"new t 0 0\n")?;
        log.extend_from_slice(b"new ")?;
        log.extend_from_slice(itoa::Buffer::new().format(4096 + 16 * cell).as_bytes())?;
        log.push(b'\n')?;
    }
    trace.extend_from_slice(b"new t 0 0\n")?;
    log.extend_from_slice(b"stack full\ntotal 1025 1024 0 1024\n")?;
    check(&rt, rt.alloc(), &Given::whole(&trace), 0, &log, b"")
}

#[test]
fn the_first_fault_ends_a_trace(rt: HostRuntime) -> Result<(), Fail> {
    for (trace, log, said) in [
        (
            "pushh 1\nnew t 0 4\n",
            "",
            "mmgc: line 1: unknown command\n",
        ),
        ("# none\npush 4294967296", "", "mmgc: line 2: bad number\n"),
        ("new t 0\n", "", "mmgc: line 1: wrong number of words\n"),
        ("\nnew q 0 1\n", "", "mmgc: line 2: bad word\n"),
    ] {
        check(
            &rt,
            rt.alloc(),
            &Given::whole(trace.as_bytes()),
            1,
            log.as_bytes(),
            said.as_bytes(),
        )?;
    }
    Ok(())
}

#[test]
fn a_line_may_have_1024_bytes(rt: HostRuntime) -> Result<(), Fail> {
    let alloc = rt.alloc();
    let mut line = Vec::new(alloc);
    line.resize(1024, b'#')?;
    check(
        &rt,
        rt.alloc(),
        &Given::whole(&line),
        0,
        b"total 0 0 0 0\n",
        b"",
    )?;
    line.push(b'#')?;
    check(
        &rt,
        rt.alloc(),
        &Given::whole(&line),
        1,
        b"",
        b"mmgc: line 1: line too long\n",
    )
}
