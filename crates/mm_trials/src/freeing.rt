// What reaps and collections free, with the counts that they leave.
use crate::trial::{Row, Trial, pages, play};
use mm_model::Command;
use std::alloc::Global;
use std::process::Abort;
use std::test::Fail;

// A composite word of a zero-count object has bit 31, and its place in the table from bit 8 on.
const ENTRIES: [Row<'static>; 5] = [
    ("new r 0 0", "new 4096"),
    ("composites", "2147483648"),
    ("new r 2 4", "new 8192"),
    ("composites", "2147483648 2147483904"),
    ("stat", "stat 2 2 0 1"),
];

#[test]
fn a_zero_count_object_says_its_place_in_the_table(rt: HostRuntime) -> Result<(), Fail> {
    play(&rt, rt.alloc(), pages(4, 4), &ENTRIES)
}

// The object at 8224 names that at 8192, which names that at 4096. All are let go, or the last byte of the second stays
// on the stack, or an area holds the last.
const CHAIN: [Row<'static>; 33] = [
    ("new r 0 0", "new 4096"),
    ("new r 4 4", "new 8192"),
    ("new r 4 4", "new 8224"),
    ("put 0 0 1", "ok"),
    ("put 1 3 2", "ok"),
    ("pop 3", "ok"),
    ("composites", "1 1 2147483648"),
    ("reap", " reap 3; free 4096; free 8192; free 8224;ok"),
    ("new r 0 0", "new 4096"),
    ("new r 4 4", "new 8192"),
    ("new r 4 4", "new 8224"),
    ("put 0 0 1", "ok"),
    ("put 1 3 2", "ok"),
    ("pop 3", "ok"),
    ("push 8223", "ok"),
    ("reap", " reap 1; free 8224;ok"),
    ("composites", "1 2147483648"),
    ("pop 1", "ok"),
    ("reap", " reap 2; free 4096; free 8192;ok"),
    ("new r 0 0", "new 4096"),
    ("new r 4 4", "new 8192"),
    ("new r 4 4", "new 8224"),
    ("put 0 0 1", "ok"),
    ("put 1 3 2", "ok"),
    ("root 1 1", "area 0 12288"),
    ("aput 0 0 2", "ok"),
    ("composites", "2 1 2147483648"),
    ("pop 3", "ok"),
    ("reap", " reap 2; free 8192; free 8224;ok"),
    ("composites", "1"),
    ("drop 0", "ok"),
    ("composites", "2147483648"),
    ("reap", " reap 1; free 4096;ok"),
];

#[test]
fn a_chain_is_reaped_up_to_what_is_held(rt: HostRuntime) -> Result<(), Fail> {
    play(&rt, rt.alloc(), pages(4, 4), &CHAIN)
}

// So many slots of one object hold another, and are cleared again.
fn count_up<R: Abort>(rt: &R, alloc: Global, slots: u32, rows: [Row<'_>; 4]) -> Result<(), Fail> {
    let mut trial = Trial::open(rt, alloc, pages(3, 3))?;
    trial.check(rt, ("new t 255 255", "new 4096"));
    trial.check(rt, ("new r 0 0", "new 8192"));
    for s in 0..slots {
        trial.carry_out(rt, Command::Put(1, s, 0));
    }
    let [raised, lowered, reaped, collected] = rows;
    trial.check(rt, raised);
    trial.check(rt, ("push 0", "ok"));
    for s in 0..slots {
        trial.carry_out(rt, Command::Put(2, s, 0));
    }
    trial.check(rt, lowered);
    trial.check(rt, ("pop 2", "ok"));
    trial.check(rt, reaped);
    trial.check(rt, collected);
    trial.close();
    Ok(())
}

#[test]
fn a_count_of_255_is_sticky_for_good(rt: HostRuntime) -> Result<(), Fail> {
    let counted = [
        ("composites", "0 254"),
        ("composites", "0 2147483648"),
        ("reap", " reap 1; free 8192;ok"),
        ("collect", " collect 0;ok"),
    ];
    let sticky = [
        ("composites", "0 536871167"),
        ("composites", "0 536871167"),
        ("reap", " reap 0;ok"),
        ("collect", " collect 1; free 8192;ok"),
    ];
    count_up(&rt, rt.alloc(), 254, counted)?;
    count_up(&rt, rt.alloc(), 255, sticky)
}

// An integer on the stack keeps the object in which it falls, and a freed place is used again.
const UNREACHED: [Row<'static>; 9] = [
    ("new t 0 0", "new 4096"),
    ("new t 0 0", "new 4112"),
    ("new t 0 0", "new 4128"),
    ("pop 3", "ok"),
    ("push 4112", "ok"),
    ("collect", " collect 2; free 4096; free 4128;ok"),
    ("new t 0 0", "new 4096"),
    ("pop 2", "ok"),
    ("collect", " collect 2; free 4096; free 4112;ok"),
];

// A finalizer is told the words that were written last, before the phase, and their sum wraps.
const FINALIZED: [Row<'static>; 15] = [
    ("new tf 0 2", "new 4096"),
    ("push 1", "ok"),
    ("put 1 0 0", "ok"),
    ("push 5", "ok"),
    ("put 2 1 0", "ok"),
    ("push 7", "ok"),
    ("put 3 0 0", "ok"),
    ("pop 4", "ok"),
    ("collect", " final 4096 2 12; collect 1; free 4096;ok"),
    ("new lf 0 2", "new 4096"),
    ("push 4294967295", "ok"),
    ("put 1 0 0", "ok"),
    ("put 1 1 0", "ok"),
    ("pop 2", "ok"),
    (
        "collect",
        " final 4096 2 4294967294; collect 1; free 4096;ok",
    ),
];

// What a freed object alone held is at zero, a ring is freed as one, and each slot of what is freed lowers once.
const HELD: [Row<'static>; 28] = [
    ("new r 4 4", "new 4096"),
    ("new r 4 4", "new 4128"),
    ("put 1 0 0", "ok"),
    ("composites", "2147483648 1"),
    ("pop 2", "ok"),
    ("push 4128", "ok"),
    ("collect", " collect 1; free 4096;ok"),
    ("composites", "2147483648"),
    ("new r 4 4", "new 4096"),
    ("put 0 0 1", "ok"),
    ("put 1 3 0", "ok"),
    ("pop 2", "ok"),
    ("reap", " reap 0;ok"),
    ("collect", " collect 2; free 4096; free 4128;ok"),
    ("new r 4 4", "new 4096"),
    ("new r 4 4", "new 4128"),
    ("new r 4 4", "new 4160"),
    ("new r 4 4", "new 4192"),
    ("put 3 0 1", "ok"),
    ("put 3 1 2", "ok"),
    ("put 3 3 1", "ok"),
    ("put 2 2 3", "ok"),
    ("put 0 0 1", "ok"),
    ("composites", "1 1 3 2147483648"),
    ("pop 4", "ok"),
    ("push 4192", "ok"),
    ("collect", " collect 2; free 4096; free 4128;ok"),
    ("composites", "1 2147483648"),
];

#[test]
fn a_collection_frees_what_is_not_reached(rt: HostRuntime) -> Result<(), Fail> {
    play(&rt, rt.alloc(), pages(4, 4), &UNREACHED)?;
    play(&rt, rt.alloc(), pages(2, 2), &FINALIZED)?;
    play(&rt, rt.alloc(), pages(2, 2), &HELD)
}

const WEAK: [Row<'static>; 18] = [
    ("new tf 0 4", "new 4096"),
    ("new tf 0 4", "new 4128"),
    ("weak 1", "new 8192"),
    ("weak 1", "new 8208"),
    ("weak 3", "word 8192"),
    ("look 0", "word 4096"),
    ("pop 6", "ok"),
    ("push 8192", "ok"),
    ("push 8208", "ok"),
    ("push 4128", "ok"),
    ("collect", " final 4096 4 0; collect 1; free 4096;ok"),
    ("look 2", "word 0"),
    ("look 2", "word 4128"),
    ("pop 5", "ok"),
    ("push 4128", "ok"),
    ("collect", " collect 2; free 8192; free 8208;ok"),
    ("weak 0", "new 8192"),
    ("look 0", "word 4128"),
];

#[test]
fn a_weak_object_gives_its_target_until_it_is_freed(rt: HostRuntime) -> Result<(), Fail> {
    play(&rt, rt.alloc(), pages(3, 3), &WEAK)
}
