// Runs over sources and sinks that fail at one of their calls, and over ones that never fail.
ghost use Rattle.std.specs.Prelude.{◌≡◌, ◌≤◌, ◌⊎◌};
ghost use Rattle.mmgc.specs.Completing.{IsTrace};

use super::{Given, check};
use crate::{Outcome, run};
use mm_io::{ZeroFaultSink, ZeroFaultSource};
use std::alloc::Global;
use std::process::Abort;
use std::test::Fail;

// Lines of 10, 10 and 12 bytes.
const TRACE: &[u8] = b"new t 0 4\nnew t 0 0\nnew t 0 509\n";

const LOG: &[u8] = b"new 4096\nnew 8192\nnew 12288\ntotal 3 3 0 3\n";

fn check_failed_read(
    rt: &impl Abort,
    alloc: Global,
    piece: usize,
    call: u32,
    log: &[u8],
) -> Result<(), Fail>
    requires { 1 ≤ piece }
{
    let given = Given {
        piece,
        reads: &[call],
        ..Given::whole(TRACE)
    };
    check(rt, alloc, &given, 3, log, b"mmgc: read failed\n")
}

fn check_failed_write(
    rt: &impl Abort,
    alloc: Global,
    piece: usize,
    log_piece: usize,
    call: u32,
    log: &[u8],
) -> Result<(), Fail>
    requires piece { 1 ≤ piece }
    requires log_piece { 1 ≤ log_piece }
{
    let given = Given {
        piece,
        log_piece,
        writes: &[call],
        ..Given::whole(TRACE)
    };
    check(rt, alloc, &given, 4, log, b"mmgc: write failed\n")
}

#[test]
fn each_read_may_fail(rt: HostRuntime) -> Result<(), Fail> {
    for (calls, log) in [
        (1..11, b"".as_slice()),
        (11..21, b"new 4096\n".as_slice()),
        (21..33, b"new 4096\nnew 8192\n".as_slice()),
        (33..34, b"new 4096\nnew 8192\nnew 12288\n".as_slice()),
    ] {
        for call in calls {
            check_failed_read(&rt, rt.alloc(), 1, call, log)?;
        }
    }
    Ok(())
}

#[test]
fn a_failed_read_keeps_the_log_of_the_piece_before(rt: HostRuntime) -> Result<(), Fail> {
    check_failed_read(&rt, rt.alloc(), 16, 2, b"new 4096\n")
}

// Each byte of the log is a write, and the flush is one call more.
#[test]
fn each_write_of_one_byte_may_fail(rt: HostRuntime) -> Result<(), Fail> {
    let alloc = rt.alloc();
    let mut front = Vec::new(alloc);
    for (call, byte) in (1..43).zip(LOG) {
        check_failed_write(&rt, alloc, 100, 1, call, &front)?;
        front.push(*byte)?;
    }
    check_failed_write(&rt, alloc, 100, 1, 43, &front)
}

// What is pending is written before each read and at the end, in pieces of up to seven bytes. No bytes stand for the
// flush.
#[test]
fn each_write_of_seven_bytes_may_fail(rt: HostRuntime) -> Result<(), Fail> {
    let alloc = rt.alloc();
    let at_once: [&[u8]; 7] = [
        b"new 409",
        b"6\nnew 8",
        b"192\nnew",
        b" 12288\n",
        b"total 3",
        b" 3 0 3\n",
        b"",
    ];
    let by_lines: [&[u8]; 9] = [
        b"new 409",
        b"6\n",
        b"new 819",
        b"2\n",
        b"new 122",
        b"88\n",
        b"total 3",
        b" 3 0 3\n",
        b"",
    ];
    for (piece, parts) in [(100, at_once.as_slice()), (1, by_lines.as_slice())] {
        let mut front = Vec::new(alloc);
        for (call, part) in (1..10).zip(parts) {
            check_failed_write(&rt, alloc, piece, 7, call, &front)?;
            front.extend_from_slice(part)?;
        }
        assert_eq!(rt; front.as_slice(), LOG);
    }
    Ok(())
}

#[test]
fn a_failed_flush_comes_before_a_failed_read(rt: HostRuntime) -> Result<(), Fail> {
    let given = Given {
        piece: 100,
        reads: &[2],
        writes: &[5],
        ..Given::whole(TRACE)
    };
    let log = b"new 4096\nnew 8192\nnew 12288\n";
    check(&rt, rt.alloc(), &given, 4, log, b"mmgc: write failed\n")
}

#[test]
fn a_fault_that_cannot_be_said_keeps_its_status(rt: HostRuntime) -> Result<(), Fail> {
    let given = Given {
        says: &[1],
        ..Given::whole(b"new t 0 4\nnew\n")
    };
    check(&rt, rt.alloc(), &given, 1, b"new 4096\n", b"")
}

// Where no call can fail, only a lack of memory keeps a run from the end of a trace.
fn status_without_faults(
    alloc: Global,
    trace: Vec<u8>,
    out: &mut ZeroFaultSink,
    err: &mut ZeroFaultSink,
) -> u8
    requires { IsTrace trace.items }
    ensures { (result ≡ 0) ⊎ (result ≡ 5) }
{
    let mut source = ZeroFaultSource::make(trace, 1);
    let Outcome { status, heap } = run(alloc, &[], &mut source, out, err);
    if let Some(heap) = heap {
        heap.close();
    }
    status
}

#[test]
fn without_faults_a_trace_is_carried_out_whole(rt: HostRuntime) -> Result<(), Fail> {
    let alloc = rt.alloc();
    let mut out = ZeroFaultSink::make(alloc, 42)?;
    let mut err = ZeroFaultSink::make(alloc, 0)?;
    let status = status_without_faults(alloc, TRACE.to_vec(alloc)?, &mut out, &mut err);
    assert_eq!(rt; status, 0);
    assert_eq!(rt; out.taken(), LOG);
    assert_eq!(rt; err.taken(), b"".as_slice());
    Ok(())
}
