// Large traces, whose logs are worked out by hand.
use super::text::{add_lines, add_numbered, add_text, lines_of, occurrences};
use super::{Given, Written, check, ended};
use std::alloc::{AllocError, Global};
use std::process::Abort;
use std::test::Fail;

const NODES: u32 = 100_000;

/// The base of a node of the list. An area takes the first page, and 128 cells of 32 bytes fill a page.
fn node(number: u32) -> u32 {
    8192 + 32 * (number % NODES)
}

// Each object of a list holds the one before, and the first cell of an area the last.
fn add_list(trace: &mut Vec<u8>, object: &str) -> Result<(), AllocError> {
    add_lines(trace, object)?;
    add_lines(trace, "aput 0 0 0;pop 1")?;
    for _ in 1..NODES {
        add_lines(trace, object)?;
        add_lines(trace, "aget 0 0;put 1 0 0;pop 1;aput 0 0 0;pop 1")?;
    }
    Ok(())
}

fn add_list_log(log: &mut Vec<u8>) -> Result<(), AllocError> {
    add_numbered(log, "new ", node(0), "")?;
    add_lines(log, "ok;ok")?;
    for number in 1..NODES {
        add_numbered(log, "new ", node(number), "")?;
        add_numbered(log, "word ", node(number - 1), "")?;
        add_lines(log, "ok;ok;ok;ok")?;
    }
    Ok(())
}

fn check_large(rt: &impl Abort, alloc: Global, trace: &[u8], log: &[u8]) -> Result<(), Fail> {
    let given = Given {
        piece: 4096,
        log_piece: 4096,
        room: 8_000_000,
        ..Given::whole(trace)
    };
    check(rt, alloc, &given, 0, log, b"")
}

// Only once the list is let go does its phase free it, at once.
fn check_deep_list(
    rt: &impl Abort,
    alloc: Global,
    area: &str,
    object: &str,
    phase: &str,
) -> Result<(), Fail> {
    let mut trace = lines_of(alloc, area)?;
    add_list(&mut trace, object)?;
    add_lines(&mut trace, phase)?;
    add_lines(&mut trace, "push 0;aput 0 0 0;pop 1")?;
    add_lines(&mut trace, phase)?;
    let mut log = lines_of(alloc, "area 0 4096")?;
    add_list_log(&mut log)?;
    add_text(&mut log, "_")?;
    add_text(&mut log, phase)?;
    add_lines(&mut log, "_0;ok;ok;ok;ok")?;
    add_text(&mut log, "_")?;
    add_text(&mut log, phase)?;
    add_lines(&mut log, "_100000")?;
    for number in 0..NODES {
        add_numbered(&mut log, "_free ", node(number), "")?;
    }
    add_lines(&mut log, "ok;total 600003 100000 100000 0")?;
    check_large(rt, alloc, &trace, &log)
}

#[test]
fn a_deep_list_is_collected(rt: HostRuntime) -> Result<(), Fail> {
    check_deep_list(&rt, rt.alloc(), "root 0 1", "new t 0 1", "collect")
}

#[test]
fn a_deep_counted_list_is_reaped(rt: HostRuntime) -> Result<(), Fail> {
    check_deep_list(&rt, rt.alloc(), "root 1 1", "new r 1 1", "reap")
}

// The list takes 782 pages from page 2 on.
#[test]
fn one_object_among_100000_is_reaped(rt: HostRuntime) -> Result<(), Fail> {
    let alloc = rt.alloc();
    let mut trace = lines_of(alloc, "root 0 1")?;
    add_list(&mut trace, "new t 0 1")?;
    add_lines(&mut trace, "new r 0 0;pop 1;reap")?;
    let mut log = lines_of(alloc, "area 0 4096")?;
    add_list_log(&mut log)?;
    add_lines(
        &mut log,
        "new 3211264;ok;_reap 1;_free 3211264;ok;total 600001 100001 1 100000",
    )?;
    check_large(&rt, alloc, &trace, &log)
}

// The wide object takes a page, and 256 objects of 16 bytes another. The order of the scans is the program's choice.
#[test]
fn a_wide_object_is_scanned_in_16_parts(rt: HostRuntime) -> Result<(), Fail> {
    let alloc = rt.alloc();
    let mut trace = lines_of(alloc, "new t 0 1000")?;
    let mut before = lines_of(alloc, "new 4096")?;
    for slot in 0..1000u32 {
        add_lines(&mut trace, "new t 0 0")?;
        add_numbered(&mut trace, "put 1 ", slot, " 0;pop 1")?;
        add_numbered(&mut before, "new ", 8192 + 16 * slot, ";ok;ok")?;
    }
    add_lines(&mut trace, "begin;step 3000;finish")?;
    add_lines(&mut before, "ok")?;
    let after = lines_of(alloc, "ok;_collect 0;ok;total 3004 1001 0 1001")?;
    let given = Given {
        words: &["--queue", "1"],
        room: 100_000,
        ..Given::whole(&trace)
    };
    let Written { status, log, .. } = ended(alloc, &given)?;
    assert_eq!(rt; status, 0);
    assert!(rt; log.as_slice().starts_with(before.as_slice()));
    assert!(rt; log.as_slice().ends_with(after.as_slice()));
    assert_eq!(rt; occurrences(&log, b" scan "), 1016);
    assert_eq!(rt; occurrences(&log, b" scan 4096 64\n"), 15);
    assert_eq!(rt; occurrences(&log, b" scan 4096 40\n"), 1);
    assert_eq!(rt; occurrences(&log, b" 0\n"), 1001);
    Ok(())
}

// Two objects fill a page, and none is held. The region grows to its greatest size, then a collection frees all, and
// its pages are given back.
#[test]
fn a_small_region_grows_and_is_collected(rt: HostRuntime) -> Result<(), Fail> {
    let alloc = rt.alloc();
    let mut trace = Vec::new(alloc);
    let mut log = Vec::new(alloc);
    for round in 0..100u32 {
        add_lines(
            &mut trace,
            "new t 0 500;pop 1;new t 0 500;pop 1;new t 0 500;pop 1;new t 0 500;pop 1;new t 0 500;pop 1;new t 0 500;\
pop 1",
        )?;
        if 0 < round {
            add_lines(
                &mut log,
                "_reap 0;_collect 6;_free 4096;_free 6144;_free 8192;_free 10240;_free 12288;_free 14336",
            )?;
        }
        add_lines(
            &mut log,
            "new 4096;ok;new 6144;ok;_reap 0;new 8192;ok;new 10240;ok;_reap 0;new 12288;ok;new 14336;ok",
        )?;
    }
    add_lines(&mut trace, "stat")?;
    add_lines(&mut log, "stat 6 0 0 0;total 1201 600 594 6")?;
    let given = Given {
        words: &["--pages", "2", "--max", "4"],
        ..Given::whole(&trace)
    };
    check(&rt, alloc, &given, 0, &log, b"")
}
