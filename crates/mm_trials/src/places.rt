// Where objects and areas go, worked out by hand.
use crate::trial::{Row, Trial, pages, play};
use mm_model::{Command, Kind, Refusal, Reply, Shape};
use std::alloc::Global;
use std::process::Abort;
use std::test::Fail;

// Objects and areas share no page, and the page of a freed object can be used again.
const SIX_PAGES: [Row<'static>; 11] = [
    ("new t 0 4", "new 4096"),
    ("new t 0 0", "new 8192"),
    ("pop 1", "ok"),
    ("fixed 1", "area 0 12288"),
    ("new t 0 4", "new 4128"),
    ("new t 0 1021", "new 16384"),
    ("collect", " collect 1; free 8192;ok"),
    ("new t 0 509", "new 8192"),
    ("fixed 4", "area 1 12304"),
    ("new t 0 0", " reap 0; collect 0;full"),
    ("stat", "stat 4 0 2 0"),
];

// Runs of one to four pages are taken, given back and joined.
const EIGHT_PAGES: [Row<'static>; 12] = [
    ("fixed 1024", "area 0 4096"),
    ("fixed 2048", "area 1 8192"),
    ("fixed 1024", "area 2 16384"),
    ("drop 1", "ok"),
    ("fixed 3072", "area 1 20480"),
    ("drop 0", "ok"),
    ("fixed 3072", "area 0 4096"),
    ("fixed 1024", " reap 0; collect 0;full"),
    ("drop 0", "ok"),
    ("drop 2", "ok"),
    ("fixed 4096", "area 0 4096"),
    ("stat", "stat 0 0 2 0"),
];

#[test]
fn each_piece_goes_to_the_lowest_place_of_its_family(rt: HostRuntime) -> Result<(), Fail> {
    play(&rt, rt.alloc(), pages(6, 6), &SIX_PAGES)?;
    play(&rt, rt.alloc(), pages(8, 8), &EIGHT_PAGES)
}

const NUMBERS: [Row<'static>; 7] = [
    ("fixed 1", "area 0 4096"),
    ("fixed 1", "area 1 4112"),
    ("fixed 1", "area 2 4128"),
    ("drop 1", "ok"),
    ("drop 1", "no area"),
    ("stat", "stat 0 0 2 1"),
    ("fixed 1", "area 1 4112"),
];

#[test]
fn an_area_has_the_lowest_free_number(rt: HostRuntime) -> Result<(), Fail> {
    play(&rt, rt.alloc(), pages(3, 3), &NUMBERS)
}

// The largest object has 4,194,316 bytes, which take 1,025 pages beside page 0.
const LARGEST: &str = "new t 0 1048575";

const LARGEST_READ: [Row<'static>; 9] = [
    (LARGEST, "new 4096"),
    ("map 0", "object 4096 t 4198400"),
    ("inner 0 4198399", "word 4202495"),
    ("inner 1 4198400", "outside"),
    ("push 7", "ok"),
    ("put 1 1048574 0", "ok"),
    ("get 1 1048574", "word 7"),
    ("get 2 1048573", "word 0"),
    ("get 3 1048575", "no slot"),
];

#[test]
fn the_largest_object_takes_1025_pages(rt: HostRuntime) -> Result<(), Fail> {
    let refused = [(LARGEST, " reap 0; collect 0;full")];
    play(&rt, rt.alloc(), pages(1025, 1025), &refused)?;
    play(&rt, rt.alloc(), pages(1026, 1026), &LARGEST_READ)
}

fn traced(slots: u32) -> Command {
    Command::New(Shape {
        kind: Kind::Traced,
        finalize: false,
        counted: 0,
        slots,
    })
}

// The bytes of each size class, and how many cells of it a page has.
const CLASSES: [(u32, u32); 19] = [
    (16, 256),
    (32, 128),
    (48, 85),
    (64, 64),
    (80, 51),
    (96, 42),
    (112, 36),
    (128, 32),
    (160, 25),
    (192, 21),
    (256, 16),
    (336, 12),
    (448, 9),
    (512, 8),
    (672, 6),
    (816, 5),
    (1024, 4),
    (1360, 3),
    (2048, 2),
];

// As many objects of a class as fill a page, one more, and one that needs a word more.
fn fill_pages<R: Abort>(rt: &R, alloc: Global, bytes: u32, cells: u32) -> Result<(), Fail> {
    let slots = bytes.saturating_sub(16) / 4;
    let mut trial = Trial::open(rt, alloc, pages(4, 4))?;
    for cell in 0..cells {
        let base = bytes.saturating_mul(cell).saturating_add(4096);
        let reply = trial.carry_out(rt, traced(slots));
        assert_eq!(rt; reply, Reply::New(base), "{bytes}");
    }
    let next = trial.carry_out(rt, traced(slots));
    assert_eq!(rt; next, Reply::New(8192), "{bytes}");
    let larger = trial.carry_out(rt, traced(slots + 1));
    assert_eq!(rt; larger, Reply::New(12288), "{bytes}");
    trial.close();
    Ok(())
}

#[test]
fn a_page_has_as_many_cells_of_a_class_as_fit(rt: HostRuntime) -> Result<(), Fail> {
    for (bytes, cells) in CLASSES {
        fill_pages(&rt, rt.alloc(), bytes, cells)?;
    }
    Ok(())
}

// In a region of so many pages, the place that the weak object of the first of so many others has.
const WEAK_PLACES: [(u32, u32, u32, Option<u32>); 10] = [
    (2, 0, 0, Some(4112)),
    (2, 0, 254, Some(8176)),
    (2, 0, 255, None),
    (2, 1, 0, None),
    (2, 255, 2, None),
    (3, 0, 254, Some(8176)),
    (3, 0, 255, Some(8192)),
    (3, 1, 0, Some(8192)),
    (3, 255, 2, Some(8192)),
    (3, 255, 3, None),
];

fn make_weak<R: Abort>(
    rt: &R,
    alloc: Global,
    place: (u32, u32, u32, Option<u32>),
) -> Result<(), Fail> {
    let (count, slots, others, place) = place;
    let mut trial = Trial::open(rt, alloc, pages(count, count))?;
    trial.carry_out(rt, traced(slots));
    for _ in 0..others {
        trial.carry_out(rt, traced(slots));
    }
    let expected = match place {
        Some(base) => Reply::New(base),
        None => Reply::Refused(Refusal::Full),
    };
    let reply = trial.carry_out(rt, Command::Weak(others));
    assert_eq!(rt; reply, expected, "{slots} {others}");
    trial.close();
    Ok(())
}

#[test]
fn a_weak_object_is_made_in_a_page_of_its_class_or_refused(rt: HostRuntime) -> Result<(), Fail> {
    for place in WEAK_PLACES {
        make_weak(&rt, rt.alloc(), place)?;
    }
    Ok(())
}
