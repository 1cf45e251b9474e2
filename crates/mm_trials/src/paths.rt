// Shortest paths to objects, worked out by hand.
ghost use Rattle.std.specs.Prelude.{◌≡◌, ◌<◌, ◌≤◌};
ghost use Rattle.mm_roots.specs.Areas.{IsBeside};

use crate::trial::{Trial, add_number, is_object, pages};
use arrayvec::ArrayVec;
use mm_object::Heap;
use mm_roots::{Areas, Stack};
use mm_steps::Steps;
use mm_why::{Hop, Via, Why};
use std::alloc::Global;
use std::marker::Brand;
use std::process::Abort;
use std::sync::ledger::{Blank, Ledger};
use std::test::Fail;

// The regions of these heaps have at most so many pages.
const PAGES: u32 = 4;

/// Commands, a base, and the path that leads to the object there after them.
type PathRow<'a> = (&'a [&'a str], u32, &'a str);

const PATHS: [PathRow<'static>; 7] = [
    // An interior word in slot 2 of the first object, and the second one's base in slot 0 for the third.
    (
        &[
            "new t 0 4",
            "new t 0 4",
            "new t 0 4",
            "inner 1 5",
            "put 3 2 0",
            "pop 1",
            "put 1 0 0",
            "pop 2",
            "push 4127",
        ],
        4160,
        "stack 0 4096 slot 2 4128 slot 0 4160",
    ),
    // The same, where the stack has a word of the last one besides.
    (
        &[
            "new t 0 4",
            "new t 0 4",
            "new t 0 4",
            "inner 1 5",
            "put 3 2 0",
            "pop 1",
            "put 1 0 0",
            "pop 2",
            "push 4191",
        ],
        4160,
        "stack 0 4160",
    ),
    (
        &[
            "root 0 1",
            "new t 0 4",
            "new t 0 4",
            "put 0 2 1",
            "aput 0 0 0",
            "pop 2",
        ],
        8192,
        "area 0 0 8224 slot 2 8192",
    ),
    (
        &[
            "root 0 1",
            "new t 0 4",
            "new t 0 4",
            "put 0 2 1",
            "aput 0 0 0",
            "pop 1",
        ],
        8192,
        "stack 0 8192",
    ),
    // A ring that an object outside holds.
    (
        &[
            "new t 0 4",
            "new t 0 4",
            "new t 0 4",
            "put 2 0 1",
            "put 1 3 2",
            "put 0 1 2",
            "pop 3",
            "push 4160",
        ],
        4128,
        "stack 0 4160 slot 1 4096 slot 0 4128",
    ),
    (&["new l 0 0", "pop 1"], 4096, "none"),
    // A weak object has no slots, so it keeps nothing.
    (&["new t 0 0", "weak 0", "pop 2", "push 4112"], 4096, "none"),
];

fn add_hop(hop: Hop, text: &mut ArrayVec<u8, 4096>) {
    if !text.is_empty() {
        let _ = text.try_push(b' ');
    }
    match hop.via {
        Via::Stack { cell } => {
            let _ = text.try_extend_from_slice(b"stack");
            add_number(text, cell);
        }
        Via::Area { area, cell } => {
            let _ = text.try_extend_from_slice(b"area");
            add_number(text, area);
            add_number(text, cell);
        }
        Via::Slot { slot } => {
            let _ = text.try_extend_from_slice(b"slot");
            add_number(text, slot);
        }
    }
    add_number(text, hop.base);
}

/// The hops of a shortest path to the object at a base, or `none`.
fn add_path<L: Ledger>(
    why: &mut Why,
    heap: &Heap,
    stack: &Stack,
    areas: &Areas,
    base: u32,
    text: &mut ArrayVec<u8, 4096>,
    steps: &mut Steps<L>,
)
    requires beside { IsBeside areas.now heap.now }
    requires pages { PAGES ≤ why.old.pages }
{
    if !is_object(heap, base, steps) || PAGES < heap.size() {
        return;
    }
    match why.search(heap, stack, areas, base, steps) {
        None => {
            let _ = text.try_extend_from_slice(b"none");
        }
        Some(length) => {
            for k in 0..length {
                add_hop(why.hop(k), text);
            }
        }
    }
}

fn check_paths<L: Ledger, R: Abort>(rt: &R, alloc: Global, blank: Blank) -> Result<(), Fail>
    requires name { blank.name ≡ L.name }
    requires parts { blank.parts ≡ L.parts }
    requires shared { 0 < L.parts }
{
    let mut steps: Steps<L> = Steps::open(blank);
    for (commands, base, path) in PATHS {
        let mut why = Why::make(alloc, PAGES)?;
        let mut trial = Trial::open(rt, alloc, pages(PAGES, PAGES))?;
        for &line in commands {
            trial.check(rt, (line, "*"));
        }
        let mut text: ArrayVec<u8, 4096> = ArrayVec::new();
        let gc = trial.heap();
        add_path(
            &mut why,
            gc.heap(),
            gc.stack(),
            gc.areas(),
            base,
            &mut text,
            &mut steps,
        );
        trial.close();
        assert_eq!(rt; text.as_slice(), path.as_bytes());
    }
    Ok(())
}

#[test]
fn shortest_paths_lead_to_objects(rt: HostRuntime) -> Result<(), Fail> {
    check_paths::<Brand, HostRuntime>(&rt, rt.alloc(), Blank::new(1))
}
