// Cycles of marking, with the colours that each command leaves.
use crate::trial::{Row, pages, play};
use mm_gc::Settings;
use std::test::Fail;

// The object at 4160 is moved from a gray object into a black one.
const MOVED: [Row<'static>; 20] = [
    ("new t 0 4", "new 4096"),
    ("new t 0 4", "new 4128"),
    ("new t 0 4", "new 4160"),
    ("put 1 0 0", "ok"),
    ("put 2 0 1", "ok"),
    ("pop 2", "ok"),
    ("begin", "ok"),
    ("colours", "gww"),
    ("step 1", " scan 4096 4;ok"),
    ("colours", "bgw"),
    ("get 0 0", "word 4128"),
    ("get 0 0", "word 4160"),
    ("put 2 1 0", "ok"),
    ("colours", "bgg"),
    ("push 0", "ok"),
    ("put 2 0 0", "ok"),
    ("pop 3", "ok"),
    ("finish", " collect 0;ok"),
    ("colours", "www"),
    ("finish", "idle"),
];

// Before the holder is scanned, a store grays nothing.
const STORED_EARLY: [Row<'static>; 11] = [
    ("new t 0 4", "new 4096"),
    ("new t 0 4", "new 4128"),
    ("pop 1", "ok"),
    ("begin", "ok"),
    ("push 4128", "ok"),
    ("put 1 1 0", "ok"),
    ("colours", "gw"),
    ("step 1", " scan 4096 4;ok"),
    ("colours", "bg"),
    ("step 1", " scan 4128 4;ok"),
    ("finish", " collect 0;ok"),
];

// The slots of an object that is scanned in part are done or not.
const STORED_BETWEEN: [Row<'static>; 14] = [
    ("new t 0 100", "new 4096"),
    ("new t 0 0", "new 8192"),
    ("pop 1", "ok"),
    ("begin", "ok"),
    ("step 1", " scan 4096 64;ok"),
    ("colours", "gw"),
    ("push 8192", "ok"),
    ("put 1 64 0", "ok"),
    ("colours", "gw"),
    ("put 1 63 0", "ok"),
    ("colours", "gg"),
    ("step 1000", "*"),
    ("colours", "bb"),
    ("finish", " collect 0;ok"),
];

#[test]
fn the_write_barrier_grays_what_a_scanned_slot_gets(rt: HostRuntime) -> Result<(), Fail> {
    play(&rt, rt.alloc(), pages(2, 2), &MOVED)?;
    play(&rt, rt.alloc(), pages(2, 2), &STORED_EARLY)?;
    play(&rt, rt.alloc(), pages(3, 3), &STORED_BETWEEN)
}

const WIDE: [Row<'static>; 9] = [
    ("new t 0 100", "new 4096"),
    ("begin", "ok"),
    ("step 1", " scan 4096 64;ok"),
    ("colours", "g"),
    ("step 1", " scan 4096 36;ok"),
    ("colours", "b"),
    ("step 1", "ok"),
    ("finish", " collect 0;ok"),
    ("colours", "w"),
];

#[test]
fn a_wide_object_is_scanned_in_parts_of_64_and_36(rt: HostRuntime) -> Result<(), Fail> {
    play(&rt, rt.alloc(), pages(2, 2), &WIDE)
}

// Two rings: one of 4096 and 4128, and one of 4160 and 4192, which names the first. What the stack names by now isn't
// seen until the end.
const RINGS: [Row<'static>; 20] = [
    ("new t 0 4", "new 4096"),
    ("new t 0 4", "new 4128"),
    ("new t 0 4", "new 4160"),
    ("new t 0 4", "new 4192"),
    ("new t 0 4", "new 4224"),
    ("put 4 0 3", "ok"),
    ("put 2 0 1", "ok"),
    ("put 1 0 2", "ok"),
    ("put 1 1 4", "ok"),
    ("push 4127", "ok"),
    ("put 4 3 0", "ok"),
    ("pop 5", "ok"),
    ("begin", "ok"),
    ("colours", "gwwww"),
    ("step 100", " scan 4096 4; scan 4128 4;ok"),
    ("colours", "bbwww"),
    ("push 4192", "ok"),
    ("colours", "bbwww"),
    ("finish", " collect 1; free 4224;ok"),
    ("colours", "wwww"),
];

#[test]
fn the_end_of_a_cycle_keeps_what_the_stack_reaches_by_then(rt: HostRuntime) -> Result<(), Fail> {
    play(&rt, rt.alloc(), pages(2, 2), &RINGS)
}

const NARROW_QUEUE: [Row<'static>; 8] = [
    ("new t 0 0", "new 4096"),
    ("new t 0 0", "new 4112"),
    ("new t 0 0", "new 4128"),
    ("begin", "ok"),
    ("colours", "ggg"),
    ("step 3", "*"),
    ("colours", "bbb"),
    ("finish", " collect 0;ok"),
];

#[test]
fn what_a_full_queue_left_out_is_found_in_the_heap(rt: HostRuntime) -> Result<(), Fail> {
    let settings = Settings {
        queue: 1,
        ..pages(2, 2)
    };
    play(&rt, rt.alloc(), settings, &NARROW_QUEUE)
}

// A collection ends a cycle, and objects that are born in one are black.
const STARTED_OVER: [Row<'static>; 14] = [
    ("new t 0 100", "new 4096"),
    ("new t 0 4", "new 8192"),
    ("begin", "ok"),
    ("colours", "gg"),
    ("step 1", "*"),
    ("collect", " collect 0;ok"),
    ("colours", "ww"),
    ("finish", "idle"),
    ("begin", "ok"),
    ("colours", "gg"),
    ("new t 0 4", "new 8224"),
    ("pop 1", "ok"),
    ("colours", "ggb"),
    ("finish", " collect 0;ok"),
];

#[test]
fn a_collection_leaves_all_white_and_the_next_cycle_starts_over(
    rt: HostRuntime,
) -> Result<(), Fail> {
    play(&rt, rt.alloc(), pages(3, 3), &STARTED_OVER)
}
