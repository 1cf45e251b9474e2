// Traces with a cycle of marking, whose reads and writes fail in turn, and which are cut after each byte.
use super::text::{add_lines, lines_of};
use super::{Given, Written, check, ended};
use std::alloc::{AllocError, Global};
use std::process::Abort;
use std::test::Fail;

/// A line and the lines of its group in the log, as in `add_text`.
type Group<'a> = (&'a str, &'a str);

// Two objects come to be named by the black one alone, one of them after it was scanned.
const CYCLE: [Group<'static>; 15] = [
    ("new t 0 4", "new 4096"),
    ("new t 0 4", "new 4128"),
    ("new t 0 4", "new 4160"),
    ("put 1 0 0", "ok"),
    ("put 2 0 1", "ok"),
    ("pop 2", "ok"),
    ("begin", "ok"),
    ("step 1", "_scan 4096 4;ok"),
    ("get 0 0", "word 4128"),
    ("get 0 0", "word 4160"),
    ("put 2 1 0", "ok"),
    ("push 0", "ok"),
    ("put 2 0 0", "ok"),
    ("pop 3", "ok"),
    ("finish", "_collect 0;ok"),
];

const CYCLE_TOTAL: &str = "total 15 3 0 3";

// An integer is the address of an object that is born later.
const INTEGER: [Group<'static>; 9] = [
    ("new t 0 4", "new 4096"),
    ("push 4128", "ok"),
    ("put 1 0 0", "ok"),
    ("pop 1", "ok"),
    ("begin", "ok"),
    ("step 1", "_scan 4096 4;ok"),
    ("new t 0 4", "new 4128"),
    ("pop 1", "ok"),
    ("finish", "_collect 0;ok"),
];

fn trace_of(alloc: Global, groups: &[Group<'_>]) -> Result<Vec<u8>, AllocError> {
    let mut trace = Vec::new(alloc);
    for group in groups {
        add_lines(&mut trace, group.0)?;
    }
    Ok(trace)
}

fn log_of(alloc: Global, groups: &[Group<'_>]) -> Result<Vec<u8>, AllocError> {
    let mut log = Vec::new(alloc);
    for group in groups {
        add_lines(&mut log, group.1)?;
    }
    Ok(log)
}

// The next byte isn't read.
fn check_failed_read(
    rt: &impl Abort,
    alloc: Global,
    trace: &[u8],
    call: u32,
    log: &[u8],
) -> Result<(), Fail> {
    let given = Given {
        piece: 1,
        reads: &[call],
        ..Given::whole(trace)
    };
    check(rt, alloc, &given, 3, log, b"mmgc: read failed\n")
}

#[test]
fn each_read_in_a_cycle_may_fail(rt: HostRuntime) -> Result<(), Fail> {
    let alloc = rt.alloc();
    let trace = trace_of(alloc, &CYCLE)?;
    let mut log = Vec::new(alloc);
    let mut call = 1u32;
    for group in CYCLE {
        for _ in 0..group.0.len().saturating_add(1) {
            check_failed_read(&rt, alloc, &trace, call, &log)?;
            call = call.saturating_add(1);
        }
        add_lines(&mut log, group.1)?;
    }
    check_failed_read(&rt, alloc, &trace, call, &log)
}

// The whole trace is read at once. Its log is written before the next read, and the total line at the end. No bytes
// stand for the flush.
#[test]
fn each_write_in_a_cycle_may_fail(rt: HostRuntime) -> Result<(), Fail> {
    let alloc = rt.alloc();
    let trace = trace_of(alloc, &CYCLE)?;
    let log = log_of(alloc, &CYCLE)?;
    let total = lines_of(alloc, CYCLE_TOTAL)?;
    let mut front = Vec::new(alloc);
    let mut call = 1u32;
    for text in [log.as_slice(), total.as_slice()] {
        for part in text.chunks(7) {
            check_failed_write(&rt, alloc, &trace, call, &front)?;
            call = call.saturating_add(1);
            front.extend_from_slice(part)?;
        }
    }
    check_failed_write(&rt, alloc, &trace, call, &front)
}

fn check_failed_write(
    rt: &impl Abort,
    alloc: Global,
    trace: &[u8],
    call: u32,
    log: &[u8],
) -> Result<(), Fail> {
    let given = Given {
        piece: 4096,
        writes: &[call],
        ..Given::whole(trace)
    };
    check(rt, alloc, &given, 4, log, b"mmgc: write failed\n")
}

// A rest without a newline is a line, which may be outside the grammar.
#[test]
fn a_cycle_may_be_cut_after_each_byte(rt: HostRuntime) -> Result<(), Fail> {
    let alloc = rt.alloc();
    let mut trace = Vec::new(alloc);
    let mut log = Vec::new(alloc);
    for group in INTEGER {
        for byte in group.0.as_bytes() {
            let cut = ended(alloc, &Given::whole(&trace))?;
            assert!(rt; cut.status == 0 || cut.status == 1);
            assert!(rt; cut.log.as_slice().starts_with(log.as_slice()));
            trace.push(*byte)?;
        }
        trace.push(b'\n')?;
        add_lines(&mut log, group.1)?;
    }
    add_lines(&mut log, "total 9 2 0 2")?;
    check(&rt, alloc, &Given::whole(&trace), 0, &log, b"")
}

#[test]
fn a_cut_number_is_the_shorter_number(rt: HostRuntime) -> Result<(), Fail> {
    for trace in ["push 4", "push 41", "push 412", "push 4128"] {
        let given = Given::whole(trace.as_bytes());
        let Written { status, log, said } = ended(rt.alloc(), &given)?;
        assert_eq!(rt; status, 0);
        assert_eq!(rt; log.as_slice(), b"ok\ntotal 1 0 0 0\n".as_slice());
        assert_eq!(rt; said.as_slice(), b"".as_slice());
    }
    Ok(())
}
