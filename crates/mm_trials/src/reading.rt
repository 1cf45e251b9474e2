// What is read of objects, areas and the stack.
ghost use Rattle.std.specs.Prelude.{◌≡◌, ◌<◌, true};
ghost use Rattle.mm_object.specs.Heap.{HasSlot};

use crate::trial::{Row, Trial, is_object, pages, play};
use mm_model::{Command, Kind, Shape};
use mm_object::{Heap, Slot};
use mm_roots::{AreaShape, ScannedArea};
use mm_steps::Steps;
use std::alloc::Global;
use std::marker::Brand;
use std::process::Abort;
use std::sync::ledger::{Blank, Ledger};
use std::test::Fail;

// An object of 32 bytes and one of 24, which takes a cell of 32.
const FALLS: [Row<'static>; 14] = [
    ("new r 2 4", "new 4096"),
    ("new lf 0 2", "new 4128"),
    ("push 4095", "ok"),
    ("map 0", "nothing"),
    ("push 4127", "ok"),
    ("map 0", "object 4096 r 32"),
    ("push 4128", "ok"),
    ("map 0", "object 4128 lf 32"),
    ("push 4159", "ok"),
    ("map 0", "object 4128 lf 32"),
    ("push 4160", "ok"),
    ("map 0", "nothing"),
    ("push 4294967295", "ok"),
    ("map 0", "nothing"),
];

// A slot is 0 until it is written, also in the place of a freed object.
const SLOTS: [Row<'static>; 10] = [
    ("new r 2 4", "new 4096"),
    ("new l 0 2", "new 4128"),
    ("put 1 0 0", "not counted"),
    ("put 1 2 0", "ok"),
    ("get 1 2", "word 4128"),
    ("get 2 3", "word 0"),
    ("pop 4", "ok"),
    ("collect", " collect 2; free 4096; free 4128;ok"),
    ("new r 2 4", "new 4096"),
    ("get 0 2", "word 0"),
];

#[test]
fn a_word_falls_in_the_object_whose_byte_it_names(rt: HostRuntime) -> Result<(), Fail> {
    play(&rt, rt.alloc(), pages(2, 2), &FALLS)?;
    play(&rt, rt.alloc(), pages(2, 2), &SLOTS)
}

const CELLS: [Row<'static>; 15] = [
    ("root 1 2", "area 0 4096"),
    ("fixed 2", "area 1 4112"),
    ("push 7", "ok"),
    ("aput 0 0 0", "not counted"),
    ("aput 0 1 0", "ok"),
    ("aput 1 0 0", "ok"),
    ("aget 0 1", "word 7"),
    ("aget 1 1", "word 0"),
    ("aget 0 2", "no slot"),
    ("aput 0 2 0", "no slot"),
    ("aget 2 0", "no area"),
    ("drop 0", "ok"),
    ("root 1 2", "area 0 4096"),
    ("aget 0 1", "word 0"),
    ("aget 1 0", "word 7"),
];

// 4,100 bytes take two pages.
const WHOLE_PAGES: [Row<'static>; 7] = [
    ("root 0 1025", "area 0 4096"),
    ("fixed 1", "area 1 12288"),
    ("push 8", "ok"),
    ("aput 0 1024 0", "ok"),
    ("aget 0 1023", "word 0"),
    ("aget 0 1024", "word 8"),
    ("aget 0 1025", "no slot"),
];

const NO_PLACE: [Row<'static>; 3] = [
    ("new t 0 1020", "new 4096"),
    ("root 0 1", " reap 0; collect 0;full"),
    ("stat", "stat 1 0 0 0"),
];

#[test]
fn a_cell_of_an_area_is_read_by_its_kind(rt: HostRuntime) -> Result<(), Fail> {
    play(&rt, rt.alloc(), pages(2, 2), &CELLS)?;
    play(&rt, rt.alloc(), pages(4, 4), &WHOLE_PAGES)?;
    play(&rt, rt.alloc(), pages(2, 2), &NO_PLACE)
}

fn has_slot<L: Ledger>(heap: &Heap, base: u32, s: u32, steps: &mut Steps<L>) -> bool
    ensures { result ≡ true → HasSlot heap.now base s }
{
    match heap.look_up(base, steps) {
        Some(found) => found.base == base && s < found.shape.slots,
        None => false,
    }
}

const NODE: Shape = Shape {
    kind: Kind::Counted,
    finalize: false,
    counted: 2,
    slots: 4,
};

// An object at 8192 whose fourth slot is 7.
fn read_object<L: Ledger>(rt: &impl Abort, heap: &Heap, steps: &mut Steps<L>) {
    if !is_object(heap, 8192, steps) || !has_slot(heap, 8192, 3, steps) {
        rt.abort();
    }
    assert_eq!(rt; heap.shape(8192, steps), NODE);
    assert_eq!(rt; heap.extent(8192, steps), 32);
    assert_eq!(rt; heap.link(8192, steps), 0);
    assert_eq!(rt; heap.slot(8192, 3, steps), Slot::Word(7));
    assert_eq!(rt; heap.slots(8192, steps), [0, 0, 0, 7].as_slice());
    assert_eq!(rt; heap.scanned(8192, steps), [0, 0, 0, 7].as_slice());
    assert_eq!(rt; heap.scanned_count(8192, steps), 4);
}

fn read_parts<L: Ledger, R: Abort>(rt: &R, alloc: Global, blank: Blank) -> Result<(), Fail>
    requires name { blank.name ≡ L.name }
    requires parts { blank.parts ≡ L.parts }
    requires shared { 0 < L.parts }
{
    let mut steps: Steps<L> = Steps::open(blank);
    let mut trial = Trial::open(rt, alloc, pages(4, 4))?;
    for command in [
        Command::Root(1, 3),
        Command::New(NODE),
        Command::Push(7),
        Command::Put(1, 3, 0),
    ] {
        trial.carry_out(rt, command);
    }
    let heap = trial.heap();
    read_object(rt, heap.heap(), &mut steps);
    assert_eq!(rt; heap.stack().words(&mut steps), [8192, 7].as_slice());
    assert_eq!(rt; heap.areas().live(), 1);
    assert_eq!(rt;
        heap.areas().shape(0),
        Some(AreaShape {
            scanned: true,
            counted: 1,
            cells: 3,
            base: 4096,
            extent: 16,
        })
    );
    assert_eq!(rt;
        heap.areas().next_scanned(0),
        Some(ScannedArea {
            number: 0,
            base: 4096,
            cells: 3,
        })
    );
    assert_eq!(rt; heap.areas().next_scanned(1), None);
    trial.close();
    Ok(())
}

#[test]
fn what_the_layers_say_of_a_heap_is_what_was_made(rt: HostRuntime) -> Result<(), Fail> {
    read_parts::<Brand, HostRuntime>(&rt, rt.alloc(), Blank::new(1))
}
