// Traces whose objects have sites.
ghost use Rattle.std.specs.Prelude.{◌≤◌};

use super::text::{add_lines, add_numbered, lines_of};
use super::{Given, Written, check, ended};
use std::alloc::{AllocError, Global};
use std::process::Abort;
use std::test::Fail;

/// Words, a trace and its log, with a semicolon for the end of each line. A line of a log that begins with a space
/// begins with `_`.
type Row<'a> = (&'a [&'a str], &'a str, &'a str);

const ROWS: [Row<'static>; 14] = [
    (
        &["--sites"],
        "#site 3;new t 0 4;new t 0 4;#site 5;new l 0 0;pop 3;new t 0 0;collect",
        "new 4096;new 4128;new 8192;ok;new 8208;_collect 3;_free 4096;_free 4128;_free 8192;ok;total 6 4 3 1;\
site 5 1 16",
    ),
    (
        &["--sites"],
        "#site 4096;new t 0 4",
        "new 4096;total 1 1 0 1;site 0 1 32",
    ),
    // Of these lines the last one alone names a site.
    (
        &["--sites"],
        "#site 5 ;#site  5;#site 00000000005;#site 5x;#sites 5;#site;# site 5;new t 0 4;#site 00003;new l 0 0",
        "new 4096;new 8192;total 2 2 0 2;site 0 1 32;site 3 1 16",
    ),
    // Without the flag nothing is told.
    (&[], "#site 3;new t 0 4", "new 4096;total 1 1 0 1"),
    (&["--sites"], "#site 3", "total 0 0 0 0"),
    // A weak reference has the site of the line before it was made.
    (
        &["--sites"],
        "#site 1;new t 0 4;#site 2;weak 0;#site 3;weak 1",
        "new 4096;new 8192;word 8192;total 3 2 0 2;site 1 1 32;site 2 1 16",
    ),
    // What is refused bears nothing, and areas have no site.
    (
        &["--sites"],
        "#site 1;new t 0 1048576;root 0 1;fixed 1",
        "bad shape;area 0 4096;area 1 4112;total 3 0 0 0",
    ),
    // An address is used again under another site: after a collection, in a cycle, and in the search of one birth.
    (
        &["--sites"],
        "#site 1;new t 0 4;pop 1;collect;#site 2;new t 0 4",
        "new 4096;ok;_collect 1;_free 4096;ok;new 4096;total 4 2 1 1;site 2 1 32",
    ),
    (
        &["--sites"],
        "#site 1;new t 0 4;pop 1;begin;#site 2;new l 0 0;finish;#site 3;new t 0 4",
        "new 4096;ok;ok;new 8192;_collect 1;_free 4096;ok;new 4096;total 6 3 1 2;site 2 1 16;site 3 1 32",
    ),
    (
        &["--sites", "--pages", "17"],
        "#site 1;new l 0 16380;pop 1;#site 2;new l 0 16380",
        "new 4096;ok;_reap 0;_collect 1;_free 4096;new 4096;total 3 2 1 1;site 2 1 65536",
    ),
    // What a reap frees leaves its site, too.
    (
        &["--sites"],
        "#site 4;new r 0 0;#site 5;new r 0 0;pop 2;push 4096;reap",
        "new 4096;new 4112;ok;ok;_reap 1;_free 4112;ok;total 5 2 1 1;site 4 1 16",
    ),
    // Commands that are added bear nothing.
    (
        &["--sites", "--pace", "1024", "--pages", "17"],
        "#site 9;new l 0 16380;pop 1;#site 8;new l 0 16380;step 1",
        "new 4096;ok;ok;_reap 0;_collect 1;_free 4096;new 4096;ok;_scan 4096 0;ok;total 6 2 1 1;site 8 1 65536",
    ),
    // The lines of the sites stand before what is told of a word.
    (
        &["--why", "4100", "--sites"],
        "#site 7;new t 0 4",
        "new 4096;total 1 1 0 1;site 7 1 32;path 1;_stack 0 4096",
    ),
    (
        &["--pace", "1", "--sites", "--why", "0"],
        "new t 0 4;#site 7;new l 0 0",
        "new 4096;new 8192;total 2 2 0 2;site 0 1 32;site 7 1 16;no object",
    ),
];

fn sited<'a>(words: &'a [&'a str], trace: &'a [u8]) -> Given<'a>
    ensures piece { 1 ≤ result.piece }
    ensures log_piece { 1 ≤ result.log_piece }
{
    Given {
        words,
        ..Given::whole(trace)
    }
}

fn check_row(rt: &impl Abort, alloc: Global, row: Row<'_>) -> Result<(), Fail> {
    let (words, trace, log) = row;
    let trace = lines_of(alloc, trace)?;
    let log = lines_of(alloc, log)?;
    check(rt, alloc, &sited(words, &trace), 0, &log, b"")
}

#[test]
fn live_objects_are_told_by_their_sites(rt: HostRuntime) -> Result<(), Fail> {
    for row in ROWS {
        check_row(&rt, rt.alloc(), row)?;
    }
    Ok(())
}

// The input is cut after the line, before its newline, and within its number.
#[test]
fn a_site_line_may_be_the_last(rt: HostRuntime) -> Result<(), Fail> {
    for trace in [
        "new l 0 0\n#site 12\n",
        "new l 0 0\n#site 12",
        "new l 0 0\n#site 1",
    ] {
        check(
            &rt,
            rt.alloc(),
            &sited(&["--sites"], trace.as_bytes()),
            0,
            b"new 4096\ntotal 1 1 0 1\nsite 0 1 16\n",
            b"",
        )?;
    }
    Ok(())
}

#[test]
fn a_read_may_end_anywhere_in_a_site_line(rt: HostRuntime) -> Result<(), Fail> {
    for piece in 1..10usize {
        let given = Given {
            piece,
            ..sited(&["--sites"], b"#site 345\nnew l 0 0\n")
        };
        check(
            &rt,
            rt.alloc(),
            &given,
            0,
            b"new 4096\ntotal 1 1 0 1\nsite 345 1 16\n",
            b"",
        )?;
    }
    Ok(())
}

#[test]
fn no_site_is_told_after_a_fault(rt: HostRuntime) -> Result<(), Fail> {
    check(
        &rt,
        rt.alloc(),
        &sited(&["--sites"], b"#site 5\nnew l 0 0\n #site 6\n"),
        1,
        b"new 4096\n",
        b"mmgc: line 3: unknown command\n",
    )
}

// A line of 1,024 bytes that begins like a site line is passed over, and a longer one is at fault.
#[test]
fn a_site_line_is_as_long_as_its_number(rt: HostRuntime) -> Result<(), Fail> {
    let alloc = rt.alloc();
    let mut line = Vec::new(alloc);
    line.extend_from_slice(b"#site 5")?;
    line.resize(1024, b' ')?;
    let mut trace = line.as_slice().to_vec(alloc)?;
    trace.extend_from_slice(b"\nnew l 0 0\n")?;
    check(
        &rt,
        alloc,
        &sited(&["--sites"], &trace),
        0,
        b"new 4096\ntotal 1 1 0 1\nsite 0 1 16\n",
        b"",
    )?;
    line.push(b' ')?;
    check(
        &rt,
        alloc,
        &sited(&["--sites"], &line),
        1,
        b"",
        b"mmgc: line 1: line too long\n",
    )
}

const OBJECTS: u32 = 100_000;

// Leaves of 16 bytes, the sites in turn, none of them on the stack for longer than its line.
fn many_births(alloc: Global) -> Result<Vec<u8>, AllocError> {
    let mut trace = Vec::new(alloc);
    for object in 0..OBJECTS {
        add_numbered(&mut trace, "#site ", object % 4096, ";new l 0 0;pop 1")?;
    }
    Ok(trace)
}

// The first 1,696 sites have 25 objects, the others 24.
fn many_sites(alloc: Global) -> Result<Vec<u8>, AllocError> {
    let mut lines = lines_of(alloc, "total 200000 100000 0 100000")?;
    for site in 0..4096u32 {
        let rest = if site < 1696 { " 25 400" } else { " 24 384" };
        add_numbered(&mut lines, "site ", site, rest)?;
    }
    Ok(lines)
}

#[test]
fn each_of_4096_sites_has_its_line(rt: HostRuntime) -> Result<(), Fail> {
    let alloc = rt.alloc();
    let trace = many_births(alloc)?;
    let lines = many_sites(alloc)?;
    let given = Given {
        piece: 4096,
        log_piece: 4096,
        room: 4_000_000,
        ..sited(&["--sites"], &trace)
    };
    let Written { status, log, .. } = ended(alloc, &given)?;
    assert_eq!(rt; status, 0);
    assert!(rt; log.as_slice().ends_with(lines.as_slice()));
    Ok(())
}

#[test]
fn the_flag_stands_once_and_has_no_value(rt: HostRuntime) -> Result<(), Fail> {
    let refused: [&[&str]; 3] = [
        &["--sites", "--sites"],
        &["--sites=1"],
        &["--gen", "1", "--count", "1", "--sites"],
    ];
    for words in refused {
        check(
            &rt,
            rt.alloc(),
            &sited(words, b"new t 0 4\n"),
            2,
            b"",
            b"mmgc: bad arguments\n",
        )?;
    }
    Ok(())
}
