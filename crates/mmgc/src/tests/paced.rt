// Traces whose cycles are paced.
use super::text::{add_lines, add_numbered, lines_of, occurrences};
use super::{Given, Written, check, ended};
use std::alloc::{AllocError, Global};
use std::process::Abort;
use std::test::Fail;

/// Words, a trace and its log, with a semicolon for the end of each line. A line of a log that stands before a reply
/// begins with `_`.
type Row<'a> = (&'a [&'a str], &'a str, &'a str);

const ROWS: [Row<'static>; 11] = [
    // The second birth asks for a step, and the bytes of it, times the rate, are far past 16 times the cycle's work.
    (
        &["--pace", "1024"],
        "new l 0 16380;new t 0 4;stat",
        "new 4096;ok;new 69632;_scan 4096 0;ok;_collect 0;ok;stat 2 0 0 1006;total 6 2 0 2",
    ),
    // A cycle that began without work is due to end.
    (
        &["--pace", "1"],
        "begin;begin",
        "ok;_collect 0;ok;ok;_collect 0;ok;total 4 0 0 0",
    ),
    // The search of the second birth ends the cycle, and its bytes are counted after that: they make the next one due.
    (
        &["--pace", "1024", "--pages", "17"],
        "new l 0 16380;pop 1;new l 0 16380;step 1",
        "new 4096;ok;ok;_reap 0;_collect 1;_free 4096;new 4096;ok;_scan 4096 0;ok;total 6 2 1 1",
    ),
    // What was born in a cycle is counted no more when it has ended: 49,152 and 16,384 bytes make no cycle due.
    (
        &["--pace", "1"],
        "new t 0 4092;pop 1;begin;new l 0 12284;finish;new l 0 4092;finish",
        "new 4096;ok;ok;new 20480;ok;_collect 1;_free 4096;ok;new 4096;idle;total 8 3 1 2",
    ),
    (
        &["--pace", "1"],
        "new t 0 4092;pop 1;begin;new l 0 12284;collect;new l 0 4092;finish",
        "new 4096;ok;ok;new 20480;ok;_collect 1;_free 4096;ok;new 4096;idle;total 8 3 1 2",
    ),
    // Nothing is added after what is refused.
    (
        &["--pace", "1024", "--pages", "17"],
        "new l 0 16380;begin;pop 2;new l 0 0;finish",
        "new 4096;ok;busy;no cell;_reap 0;_collect 0;full;idle;total 6 1 0 1",
    ),
    // A weak reference has 16 bytes where it is made, and areas have none.
    (
        &["--pace", "2"],
        "new t 0 4;begin;weak 0;weak 0;weak 1;root 0 1;fixed 1;new l 0 0;new l 0 0",
        "new 4096;ok;new 8192;_scan 4096 4;ok;no weak;word 8192;area 0 12288;area 1 12304;new 8208;ok;new 8224;ok;\
_collect 0;ok;total 13 4 0 4",
    ),
    // The reap at the end of `begin` comes after its work of 8 was taken: 48 bytes are too few for that, 128 are not.
    (
        &["--pace", "1", "--pages", "4", "--zct", "1"],
        "new t 0 1;new t 1 1;new r 0 5;put 1 0 0;put 2 0 0;pop 2;new l 0 1021;begin;new l 0 8;new l 0 16",
        "new 4096;new 4128;_reap 0;new 8192;ok;loose;ok;_reap 0;_collect 1;_free 4128;full;_reap 1;_free 8192;ok;\
new 8192;_scan 4096 1;ok;new 12288;ok;_collect 0;ok;total 13 5 2 3",
    ),
    // The end that is added leaves an object whose count fell to zero, and so reaps.
    (
        &["--pace", "1024", "--zct", "1"],
        "new t 0 1;new t 1 1;new r 0 0;put 1 0 0;put 2 0 0;pop 2;reap;begin;new l 0 0",
        "new 4096;new 4128;_reap 0;new 8192;ok;loose;ok;_reap 0;ok;ok;new 8208;_scan 4096 1;_scan 8192 0;ok;\
_collect 1;_free 4128;_reap 1;_free 8192;ok;total 11 4 2 2",
    ),
    // The reap at the end of a birth leaves none to the cycle that is due after it.
    (
        &["--pace", "1", "--zct", "1"],
        "new r 0 16380;begin",
        "_reap 0;new 4096;ok;busy;total 3 1 0 1",
    ),
    (
        &["--pace", "1"],
        "new t 0 4;begin;new l 0 0;stat",
        "new 4096;ok;new 8192;_scan 4096 4;ok;stat 2 0 0 1021;total 5 2 0 2",
    ),
];

fn check_paced(
    rt: &impl Abort,
    alloc: Global,
    words: &[&str],
    trace: &[u8],
    log: &[u8],
) -> Result<(), Fail> {
    let given = Given {
        words,
        ..Given::whole(trace)
    };
    check(rt, alloc, &given, 0, log, b"")
}

fn check_row(rt: &impl Abort, alloc: Global, row: Row<'_>) -> Result<(), Fail> {
    let (words, trace, log) = row;
    let trace = lines_of(alloc, trace)?;
    let log = lines_of(alloc, log)?;
    check_paced(rt, alloc, words, &trace, &log)
}

#[test]
fn paced_traces_have_their_logs(rt: HostRuntime) -> Result<(), Fail> {
    for row in ROWS {
        check_row(&rt, rt.alloc(), row)?;
    }
    Ok(())
}

fn check_file<'a>(
    rt: &impl Abort,
    alloc: Global,
    words: &'a [&'a str],
    trace: &'a [u8],
    log: &[u8],
) -> Result<(), Fail> {
    let given = Given {
        words,
        file: Some(("t", trace)),
        ..Given::whole(b"pop")
    };
    check(rt, alloc, &given, 0, log, b"")
}

// What the input has isn't read.
#[test]
fn a_named_file_is_paced(rt: HostRuntime) -> Result<(), Fail> {
    let alloc = rt.alloc();
    let trace = lines_of(alloc, "new t 0 4;begin;new l 0 0;stat")?;
    let slow = lines_of(
        alloc,
        "new 4096;ok;new 8192;_scan 4096 4;ok;stat 2 0 0 1021;total 5 2 0 2",
    )?;
    let fast = lines_of(
        alloc,
        "new 4096;ok;new 8192;_scan 4096 4;ok;_collect 0;ok;stat 2 0 0 1021;total 6 2 0 2",
    )?;
    check_file(&rt, alloc, &["--pace", "1", "t"], &trace, &slow)?;
    check_file(&rt, alloc, &["--pace=0000000001", "--", "t"], &trace, &slow)?;
    check_file(&rt, alloc, &["--pace", "1024", "t"], &trace, &fast)?;
    check_file(&rt, alloc, &["t", "--pace", "1024"], &trace, &fast)
}

// A step of 4096 scans 64 parts of 64 slots.
#[test]
fn a_step_is_as_long_as_a_birth_is_large(rt: HostRuntime) -> Result<(), Fail> {
    let alloc = rt.alloc();
    let trace = lines_of(alloc, "new t 0 16380;new l 0 16380;map 0")?;
    let mut log = lines_of(alloc, "new 4096;ok;new 69632")?;
    for _ in 0..64 {
        add_lines(&mut log, "_scan 4096 64")?;
    }
    add_lines(&mut log, "ok;object 69632 l 65536;total 5 2 0 2")?;
    check_paced(&rt, alloc, &["--pace", "1"], &trace, &log)
}

// A stage whose nodes are born one by one, in a cycle each.
fn growing_tree(alloc: Global) -> Result<Vec<u8>, AllocError> {
    let mut trace = lines_of(alloc, "root 1 2;new r 200 200;aput 0 0 0")?;
    for slot in 0..200u32 {
        add_lines(&mut trace, "begin;new r 1 3")?;
        add_numbered(&mut trace, "put 1 ", slot, " 0;pop 1")?;
    }
    Ok(trace)
}

// What a part costs by its line: one more than its slots.
fn cost_of(line: &[u8]) -> u32 {
    let mut number = 0u32;
    for byte in line {
        number = match *byte {
            b' ' => 0,
            digit => number
                .saturating_mul(10)
                .saturating_add(u32::from(digit.saturating_sub(b'0'))),
        };
    }
    number.saturating_add(1)
}

// The most that the parts between two replies cost without the last of them.
fn longest_pause(alloc: Global, log: &[u8]) -> Result<u32, AllocError> {
    let mut most = 0u32;
    let mut sum = 0u32;
    let mut line = Vec::new(alloc);
    for byte in log {
        if *byte != b'\n' {
            line.push(*byte)?;
            continue;
        }
        if line.starts_with(b" scan ") {
            most = most.max(sum);
            sum = sum.saturating_add(cost_of(&line));
        } else if !line.starts_with(b" ") {
            sum = 0;
        }
        line.clear();
    }
    Ok(most)
}

// Each birth in a cycle has 32 bytes, so at this rate each step ends at the part that brings its cost to 96. The first
// one has two parts of the stage.
#[test]
fn no_pause_is_longer_than_a_step(rt: HostRuntime) -> Result<(), Fail> {
    let alloc = rt.alloc();
    let trace = growing_tree(alloc)?;
    let given = Given {
        words: &["--pace", "48"],
        room: 400000,
        ..Given::whole(&trace)
    };
    let Written { status, log, .. } = ended(alloc, &given)?;
    assert_eq!(rt; status, 0);
    let pause = longest_pause(alloc, log.as_slice())?;
    assert!(rt; 65 <= pause && pause < 96, "{pause}");
    assert!(rt; occurrences(log.as_slice(), b" scan 8192 64\n") >= 2);
    Ok(())
}
