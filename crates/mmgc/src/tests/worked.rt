// Worked traces of all commands with their logs.
ghost use Rattle.std.specs.Prelude.{◌≤◌};

use super::text::{add_lines, add_numbered, add_text, lines_of, occurrences};
use super::{Given, Written, check, ended};
use std::alloc::{AllocError, Global};
use std::process::Abort;
use std::test::Fail;

/// Words, a trace and its log, with a semicolon for the end of each line. A line of a log that stands before a reply
/// begins with `_`.
type Row<'a> = (&'a [&'a str], &'a str, &'a str);

const NONE: &[&str] = &[];

const TWO_PAGES: &[&str] = &["--pages", "2"];

const UP_TO_THREE: &[&str] = &["--pages", "2", "--max", "3"];

const ROWS: [Row<'static>; 28] = [
    (NONE, "", "total 0 0 0 0"),
    (NONE, "new t 0 4", "new 4096;total 1 1 0 1"),
    (
        NONE,
        "new t 0 4;inner 0 31;map 0;inner 1 32",
        "new 4096;word 4127;object 4096 t 32;outside;total 4 1 0 1",
    ),
    (
        NONE,
        "new r 0 0;reap;pop 1;reap",
        "new 4096;_reap 0;ok;ok;_reap 1;_free 4096;ok;total 4 1 1 0",
    ),
    (
        NONE,
        "new r 2 2;new r 0 0;put 1 0 0;put 1 1 0;pop 2;reap",
        "new 4096;new 8192;ok;ok;ok;_reap 2;_free 4096;_free 8192;ok;total 6 2 2 0",
    ),
    (
        NONE,
        "new r 1 1;put 0 0 0;pop 1;reap;collect",
        "new 4096;ok;ok;_reap 0;ok;_collect 1;_free 4096;ok;total 5 1 1 0",
    ),
    (
        TWO_PAGES,
        "new t 0 508;new t 0 508;new t 0 508",
        "new 4096;new 6144;_reap 0;_collect 0;full;total 3 2 0 2",
    ),
    (
        TWO_PAGES,
        "new t 0 508;new t 0 508;pop 2;new t 0 508",
        "new 4096;new 6144;ok;_reap 0;_collect 2;_free 4096;_free 6144;new 4096;total 4 3 2 1",
    ),
    (
        &["--pages", "4"],
        "new t 0 509;pop 1;new t 0 1021;collect;new t 0 1021",
        "new 4096;ok;new 8192;_collect 1;_free 4096;ok;_reap 0;_collect 0;full;total 5 2 1 1",
    ),
    (
        NONE,
        "new t 0 4;new r 0 0;put 1 0 0;pop 1;reap;get 0 0;get 0 0",
        "new 4096;new 8192;loose;ok;_reap 1;_free 8192;ok;word 8192;nothing;total 7 2 1 1",
    ),
    (
        NONE,
        "new r 1 1;new r 1 1;put 0 0 1;put 1 0 0;pop 2;reap;collect",
        "new 4096;new 4128;ok;ok;ok;_reap 0;ok;_collect 2;_free 4096;_free 4128;ok;total 7 2 2 0",
    ),
    (
        NONE,
        "push 4100;new l 0 0;pop 1;collect",
        "ok;new 4096;ok;_collect 0;ok;total 4 1 0 1",
    ),
    (
        NONE,
        "new t 0 4;push 4128;put 1 0 0;pop 1;begin;step 1;new t 0 4;pop 1;finish",
        "new 4096;ok;ok;ok;ok;_scan 4096 4;ok;new 4128;ok;_collect 0;ok;total 9 2 0 2",
    ),
    (
        NONE,
        "new t 0 4;new t 0 4;new t 0 4;put 1 0 0;put 2 0 1;pop 2;begin;step 1;get 0 0;get 0 0;put 2 1 0;push 0;\
put 2 0 0;pop 3;finish",
        "new 4096;new 4128;new 4160;ok;ok;ok;ok;_scan 4096 4;ok;word 4128;word 4160;ok;ok;ok;ok;_collect 0;ok;\
total 15 3 0 3",
    ),
    (
        NONE,
        "new r 0 0;begin;pop 1;reap;new l 0 4;step 1;finish",
        "new 4096;ok;ok;_reap 1;_free 4096;ok;new 4096;ok;_collect 0;ok;total 7 2 1 1",
    ),
    // An object that is scanned in part is freed.
    (
        NONE,
        "new r 0 100;begin;step 1;pop 1;reap;finish",
        "new 4096;ok;_scan 4096 64;ok;ok;_reap 1;_free 4096;ok;_collect 0;ok;total 6 1 1 0",
    ),
    // Gray objects are freed, in the queue and out of it, and the last one is found again.
    (
        NONE,
        "new r 0 0;new r 0 0;new t 0 0;begin;pop 3;reap;step 1;finish;collect",
        "new 4096;new 4112;new 4128;ok;ok;_reap 2;_free 4096;_free 4112;ok;_scan 4128 0;ok;_collect 0;ok;_collect 1;\
_free 4128;ok;total 9 3 3 0",
    ),
    (
        NONE,
        "root 0 1;new r 0 0;weak 0;weak 1;aput 0 0 0;look 0;pop 4;reap;aget 0 0;look 0",
        "area 0 4096;new 8192;new 8208;word 8208;ok;word 8192;ok;_reap 1;_free 8192;ok;word 8208;word 0;total 10 2 1 1",
    ),
    (
        &["--zct", "2"],
        "new r 0 0;pop 1;new r 0 0;new r 0 0",
        "new 4096;ok;_reap 1;_free 4096;new 4112;_reap 0;new 4096;total 4 3 1 2",
    ),
    (
        NONE,
        "new rf 0 2;push 7;put 1 0 0;push 5;put 2 1 0;pop 3;reap",
        "new 4096;ok;ok;ok;ok;ok;_final 4096 2 12;_reap 1;_free 4096;ok;total 7 1 1 0",
    ),
    (
        NONE,
        "new t 0 0;begin;step 1;pop 1;collect;finish",
        "new 4096;ok;_scan 4096 0;ok;ok;_collect 1;_free 4096;ok;idle;total 6 1 1 0",
    ),
    (
        NONE,
        "root 1 1;new r 0 0;aput 0 0 0;pop 1;reap;drop 0;reap;drop 0",
        "area 0 4096;new 8192;ok;ok;_reap 0;ok;ok;_reap 1;_free 8192;ok;no area;total 8 1 1 0",
    ),
    (
        NONE,
        "new l 1 1;new t 2 1;new t 0 1048576;get 0 0;push 7;get 0 0;look 0;finish;drop 0;aget 0 0;begin;begin",
        "bad shape;bad shape;bad shape;no cell;ok;nothing;nothing;idle;no area;no area;ok;busy;total 12 0 0 0",
    ),
    (
        NONE,
        "new t 1 2;get 0 2;put 0 0 0;put 0 1 0;look 0;weak 0;weak 0",
        "new 4096;no slot;not counted;ok;no weak;new 8192;no weak;total 7 2 0 2",
    ),
    (
        &["--stack", "1"],
        "push 1;push 2;dup 3;pop 2",
        "ok;stack full;no cell;no cell;total 4 0 0 0",
    ),
    (
        &["--pages", "3"],
        "new r 0 0;stat",
        "new 4096;stat 1 1 0 1;total 2 1 0 1",
    ),
    (
        UP_TO_THREE,
        "new t 0 508;new t 0 508;new t 0 508;stat;pop 1;collect;stat",
        "new 4096;new 6144;_reap 0;new 8192;stat 3 0 0 0;ok;_collect 1;_free 8192;ok;stat 2 0 0 0;total 7 3 1 2",
    ),
    (
        UP_TO_THREE,
        "new t 0 1021;new t 0 508",
        "_reap 0;new 4096;_reap 0;_collect 0;full;total 2 1 0 1",
    ),
];

// With more words before those of the row.
fn check_row(
    rt: &impl Abort,
    alloc: Global,
    row: Row<'_>,
    more: &[&str],
    piece: usize,
) -> Result<(), Fail>
    requires { 1 ≤ piece }
{
    let (own, trace, log) = row;
    let mut words = Vec::new(alloc);
    words.extend_from_slice(more)?;
    words.extend_from_slice(own)?;
    let trace = lines_of(alloc, trace)?;
    let log = lines_of(alloc, log)?;
    let given = Given {
        words: &words,
        piece,
        ..Given::whole(&trace)
    };
    check(rt, alloc, &given, 0, &log, b"")
}

#[test]
fn worked_traces_have_their_logs(rt: HostRuntime) -> Result<(), Fail> {
    for row in ROWS {
        check_row(&rt, rt.alloc(), row, NONE, 100)?;
        check_row(&rt, rt.alloc(), row, NONE, 1)?;
        check_row(&rt, rt.alloc(), row, &["--queue", "1"], 100)?;
        check_row(&rt, rt.alloc(), row, &["--queue", "65536"], 100)?;
    }
    Ok(())
}

// An object with so many counted slots, all of which hold another one and are then cleared.
fn check_count(rt: &impl Abort, alloc: Global, slots: u32, end: &str) -> Result<(), Fail> {
    let mut trace = lines_of(alloc, "new t 255 255;new r 0 0")?;
    let mut log = lines_of(alloc, "new 4096;new 8192")?;
    for slot in 0..slots {
        add_numbered(&mut trace, "put 1 ", slot, " 0")?;
        add_lines(&mut log, "ok")?;
    }
    add_lines(&mut trace, "push 0")?;
    add_lines(&mut log, "ok")?;
    for slot in 0..slots {
        add_numbered(&mut trace, "put 2 ", slot, " 0")?;
        add_lines(&mut log, "ok")?;
    }
    add_lines(&mut trace, "pop 2;reap;collect")?;
    add_lines(&mut log, end)?;
    check(rt, alloc, &Given::whole(&trace), 0, &log, b"")
}

#[test]
fn a_count_of_255_keeps_an_object_from_reaps(rt: HostRuntime) -> Result<(), Fail> {
    let sticky = "ok;_reap 0;ok;_collect 1;_free 8192;ok;total 516 2 1 1";
    check_count(&rt, rt.alloc(), 255, sticky)?;
    let counted = "ok;_reap 1;_free 8192;ok;_collect 0;ok;total 514 2 1 1";
    check_count(&rt, rt.alloc(), 254, counted)
}

#[test]
fn there_are_1024_areas(rt: HostRuntime) -> Result<(), Fail> {
    let alloc = rt.alloc();
    let mut trace = Vec::new(alloc);
    let mut log = Vec::new(alloc);
    for area in 0..1024u32 {
        add_lines(&mut trace, "fixed 1")?;
        add_text(&mut log, "area ")?;
        log.extend_from_slice(itoa::Buffer::new().format(area).as_bytes())?;
        add_numbered(&mut log, " ", 4096 + 16 * area, "")?;
    }
    add_lines(&mut trace, "fixed 1;drop 5;fixed 1")?;
    add_lines(&mut log, "areas full;ok;area 5 4176;total 1027 0 0 0")?;
    check(&rt, alloc, &Given::whole(&trace), 0, &log, b"")
}

#[test]
fn a_read_fails_behind_a_complete_line(rt: HostRuntime) -> Result<(), Fail> {
    let given = Given {
        piece: 100,
        reads: &[2],
        ..Given::whole(b"new t 0 0\nnew t ")
    };
    check(
        &rt,
        rt.alloc(),
        &given,
        3,
        b"new 4096\n",
        b"mmgc: read failed\n",
    )
}

// The order of the two objects is the program's choice.
#[test]
fn a_step_scans_in_parts_of_64_slots(rt: HostRuntime) -> Result<(), Fail> {
    let alloc = rt.alloc();
    let trace = lines_of(
        alloc,
        "new t 0 100;new t 0 0;begin;step 66;put 1 0 0;put 1 99 0;pop 2;finish;collect",
    )?;
    let wide_first = lines_of(
        alloc,
        "new 4096;new 8192;ok;_scan 4096 64;_scan 4096 36;ok;ok;ok;ok;_collect 0;ok;_collect 2;_free 4096;_free 8192;\
ok;total 9 2 2 0",
    )?;
    let wide_last = lines_of(
        alloc,
        "new 4096;new 8192;ok;_scan 8192 0;_scan 4096 64;ok;ok;ok;ok;_collect 0;ok;_collect 2;_free 4096;_free 8192;\
ok;total 9 2 2 0",
    )?;
    let Written { status, log, .. } = ended(alloc, &Given::whole(&trace))?;
    assert_eq!(rt; status, 0);
    assert!(rt; log.as_slice() == wide_first.as_slice() || log.as_slice() == wide_last.as_slice());
    Ok(())
}

// A stage with 200 nodes, of which the first 50 are let go.
fn display_tree(alloc: Global) -> Result<Vec<u8>, AllocError> {
    let mut trace = lines_of(alloc, "root 1 2;new r 200 200;aput 0 0 0")?;
    for slot in 0..200u32 {
        add_lines(&mut trace, "new r 1 3")?;
        add_numbered(&mut trace, "put 1 ", slot, " 0;pop 1")?;
    }
    add_lines(&mut trace, "get 0 0;weak 0;aput 0 1 0;pop 2")?;
    for slot in 0..50u32 {
        add_lines(&mut trace, "push 0")?;
        add_numbered(&mut trace, "put 1 ", slot, " 0;pop 1")?;
    }
    add_lines(
        &mut trace,
        "reap;aget 0 1;look 0;pop 2;begin;step 1000;finish;collect",
    )?;
    Ok(trace)
}

// What stands before the lines of the scans.
fn display_tree_log(alloc: Global) -> Result<Vec<u8>, AllocError> {
    let mut log = lines_of(alloc, "area 0 4096;new 8192;ok")?;
    for node in 0..200u32 {
        add_numbered(&mut log, "new ", 12288 + 32 * node, "")?;
        add_lines(&mut log, "ok;ok")?;
    }
    add_lines(&mut log, "word 12288;new 20480;ok;ok")?;
    for _ in 0..50u32 {
        add_lines(&mut log, "ok;ok;ok")?;
    }
    add_lines(&mut log, "_reap 50")?;
    for node in 0..50u32 {
        add_numbered(&mut log, "_free ", 12288 + 32 * node, "")?;
    }
    add_lines(&mut log, "ok;word 20480;word 0;ok;ok")?;
    Ok(log)
}

// Each object is scanned once, the stage in four parts, in an order of the program's choice.
fn check_scans(rt: &impl Abort, alloc: Global, scans: &[u8]) -> Result<(), Fail> {
    let stage = lines_of(
        alloc,
        "_scan 8192 64;_scan 8192 64;_scan 8192 64;_scan 8192 8",
    )?;
    assert_eq!(rt; occurrences(scans, b" scan "), 155);
    assert_eq!(rt; occurrences(scans, &stage), 1);
    assert_eq!(rt; occurrences(scans, b" scan 20480 0\n"), 1);
    for node in 50..200u32 {
        let mut line = Vec::new(alloc);
        add_numbered(&mut line, "_scan ", 12288 + 32 * node, " 3")?;
        assert_eq!(rt; occurrences(scans, &line), 1, "{node}");
    }
    Ok(())
}

#[test]
fn a_display_tree_is_reaped_and_marked(rt: HostRuntime) -> Result<(), Fail> {
    let alloc = rt.alloc();
    let trace = display_tree(alloc)?;
    let before = display_tree_log(alloc)?;
    let after = lines_of(alloc, "ok;_collect 0;ok;_collect 0;ok;total 765 202 50 152")?;
    let Written { status, log, .. } = ended(alloc, &Given::whole(&trace))?;
    assert_eq!(rt; status, 0);
    assert!(rt; log.as_slice().starts_with(before.as_slice()));
    assert!(rt; log.as_slice().ends_with(after.as_slice()));
    let scans = log
        .len()
        .saturating_sub(before.len())
        .saturating_sub(after.len());
    // 150 nodes, the weak reference and three parts of the stage have 14 bytes each, and the last part 13.
    assert_eq!(rt; scans, 2169);
    check_scans(&rt, alloc, log.as_slice())
}

#[test]
fn a_display_tree_ends_with_the_tenth_write(rt: HostRuntime) -> Result<(), Fail> {
    let alloc = rt.alloc();
    let trace = display_tree(alloc)?;
    let mut front = display_tree_log(alloc)?;
    front.truncate(900);
    let given = Given {
        piece: 10000,
        log_piece: 100,
        writes: &[10],
        ..Given::whole(&trace)
    };
    check(&rt, alloc, &given, 4, &front, b"mmgc: write failed\n")
}
