// Shortest paths through many objects.
ghost use Rattle.std.specs.Prelude.{◌≡◌, ◌<◌, ◌≤◌};

use crate::trial::{Trial, is_object, pages};
use mm_gc::Gc;
use mm_model::{Command, Kind, Reply, Shape};
use mm_steps::Steps;
use mm_why::{Hop, Via, Why};
use std::alloc::Global;
use std::marker::Brand;
use std::process::Abort;
use std::sync::ledger::{Blank, Ledger};
use std::test::Fail;

// The regions of these heaps have so many pages.
const PAGES: u32 = 1100;

const RING: u32 = 100_000;

fn traced(slots: u32) -> Shape {
    Shape {
        kind: Kind::Traced,
        finalize: false,
        counted: 0,
        slots,
    }
}

/// The base of a new object, which is the top cell then.
fn make<R: Abort>(rt: &R, trial: &mut Trial, shape: Shape) -> u32 {
    match trial.carry_out(rt, Command::New(shape)) {
        Reply::New(base) => base,
        _ => rt.abort(),
    }
}

/// Makes objects of which each names the one before, and the first the last. Cell 0 of area 0 names the last. It
/// answers the bases of the first and the last.
fn link_ring<R: Abort>(rt: &R, trial: &mut Trial) -> (u32, u32) {
    trial.carry_out(rt, Command::Root(0, 1));
    let first = make(rt, trial, traced(1));
    trial.carry_out(rt, Command::AreaPut(0, 0, 0));
    trial.carry_out(rt, Command::Pop(1));
    let mut last = first;
    for _ in 1..RING {
        last = make(rt, trial, traced(1));
        trial.carry_out(rt, Command::AreaGet(0, 0));
        trial.carry_out(rt, Command::Put(1, 0, 0));
        trial.carry_out(rt, Command::AreaPut(0, 0, 1));
        trial.carry_out(rt, Command::Pop(2));
    }
    trial.carry_out(rt, Command::AreaGet(0, 0));
    trial.carry_out(rt, Command::Push(first));
    trial.carry_out(rt, Command::Put(0, 0, 1));
    trial.carry_out(rt, Command::Pop(2));
    (first, last)
}

/// Whether the shortest path goes from cell 0 of area 0 to the object at `from`, and through slot 0 of each to ever
/// lower ones, as long as the ring is, down to the one at `to`.
fn descends<L: Ledger>(why: &mut Why, gc: &Gc, from: u32, to: u32, steps: &mut Steps<L>) -> bool
    requires pages { PAGES ≤ why.old.pages }
{
    let heap = gc.heap();
    if !is_object(heap, to, steps) || PAGES < heap.size() {
        return false;
    }
    match why.search(heap, gc.stack(), gc.areas(), to, steps) {
        Some(count) if count == RING => {
            let mut before = from.saturating_add(1);
            for k in 0..count {
                let hop = why.hop(k);
                let follows = match hop.via {
                    Via::Area { area, cell } => k == 0
                        && area == 0
                        && cell == 0
                        && hop.base == from,
                    Via::Slot { slot } => k > 0 && slot == 0,
                    Via::Stack { .. } => false,
                };
                if !follows || before <= hop.base {
                    return false;
                }
                before = hop.base;
            }
            before == to
        }
        _ => false,
    }
}

fn check_ring<L: Ledger, R: Abort>(rt: &R, alloc: Global, blank: Blank) -> Result<(), Fail>
    requires name { blank.name ≡ L.name }
    requires parts { blank.parts ≡ L.parts }
    requires shared { 0 < L.parts }
{
    let mut steps: Steps<L> = Steps::open(blank);
    let mut why = Why::make(alloc, PAGES)?;
    let mut trial = Trial::open(rt, alloc, pages(PAGES, PAGES))?;
    let (first, last) = link_ring(rt, &mut trial);
    let found = descends(&mut why, trial.heap(), last, first, &mut steps);
    trial.close();
    assert!(rt; found);
    Ok(())
}

#[test]
fn a_path_leads_through_all_of_a_ring(rt: HostRuntime) -> Result<(), Fail> {
    check_ring::<Brand, HostRuntime>(&rt, rt.alloc(), Blank::new(1))
}

// The slots of each object of the display tree. An object of so many takes a page.
const SLOTS: u32 = 1000;

const MIDDLES: u32 = 9;

// How many leaves each middle has.
const LEAVES: u32 = 110;

/// Makes a tree of 1,000 objects. Cell 0 of area 0 names the root, the first slots of the root the middles, and those
/// of each middle its leaves. It answers the base of one more object, which nothing names: a search for that one looks
/// at all slots of the tree.
fn grow_tree<R: Abort>(rt: &R, trial: &mut Trial) -> u32 {
    trial.carry_out(rt, Command::Root(0, 1));
    make(rt, trial, traced(SLOTS));
    trial.carry_out(rt, Command::AreaPut(0, 0, 0));
    for middle in 0..MIDDLES {
        make(rt, trial, traced(SLOTS));
        trial.carry_out(rt, Command::Put(1, middle, 0));
        for leaf in 0..LEAVES {
            make(rt, trial, traced(SLOTS));
            trial.carry_out(rt, Command::Put(1, leaf, 0));
            trial.carry_out(rt, Command::Pop(1));
        }
        trial.carry_out(rt, Command::Pop(1));
    }
    let alone = make(rt, trial, traced(SLOTS));
    trial.carry_out(rt, Command::Pop(2));
    alone
}

/// The base of the object of the tree that was made after so many others. The area has page 1.
fn base_after(others: u32) -> u32
    requires { others < 1000 }
{
    4096 * (2 + others)
}

/// The hops to a leaf.
fn hops_to(middle: u32, leaf: u32) -> [Hop; 3]
    requires middle { middle < MIDDLES }
    requires leaf { leaf < LEAVES }
{
    let others = 1 + middle * (1 + LEAVES);
    [
        Hop {
            via: Via::Area { area: 0, cell: 0 },
            base: base_after(0),
        },
        Hop {
            via: Via::Slot { slot: middle },
            base: base_after(others),
        },
        Hop {
            via: Via::Slot { slot: leaf },
            base: base_after(others + 1 + leaf),
        },
    ]
}

/// Whether the shortest path to an object has these hops, or there is none where no hops are given.
fn has_path<L: Ledger>(
    why: &mut Why,
    gc: &Gc,
    base: u32,
    hops: &[Hop],
    steps: &mut Steps<L>,
) -> bool
    requires pages { PAGES ≤ why.old.pages }
    ensures pages { why.new.pages ≡ why.old.pages }
{
    let heap = gc.heap();
    if !is_object(heap, base, steps) || PAGES < heap.size() {
        return false;
    }
    match why.search(heap, gc.stack(), gc.areas(), base, steps) {
        Some(count) if count as usize == hops.len() => {
            for k in 0..count {
                if why.hop(k) != hops[k as usize] {
                    return false;
                }
            }
            true
        }
        Some(_) => false,
        None => hops.is_empty(),
    }
}

/// Whether the shortest path to each leaf goes over its middle, and none leads to the object that nothing names.
fn all_are_short<L: Ledger>(why: &mut Why, gc: &Gc, alone: u32, steps: &mut Steps<L>) -> bool
    requires pages { PAGES ≤ why.old.pages }
{
    for middle in 0..MIDDLES {
        for leaf in 0..LEAVES {
            let hops = hops_to(middle, leaf);
            if !has_path(why, gc, hops[2].base, &hops, steps) {
                return false;
            }
        }
    }
    has_path(why, gc, alone, &[], steps)
}

fn check_tree<L: Ledger, R: Abort>(rt: &R, alloc: Global, blank: Blank) -> Result<(), Fail>
    requires name { blank.name ≡ L.name }
    requires parts { blank.parts ≡ L.parts }
    requires shared { 0 < L.parts }
{
    let mut steps: Steps<L> = Steps::open(blank);
    let mut why = Why::make(alloc, PAGES)?;
    let mut trial = Trial::open(rt, alloc, pages(PAGES, PAGES))?;
    let alone = grow_tree(rt, &mut trial);
    let short = all_are_short(&mut why, trial.heap(), alone, &mut steps);
    trial.close();
    assert!(rt; short);
    Ok(())
}

#[test]
fn paths_through_a_display_tree_are_short(rt: HostRuntime) -> Result<(), Fail> {
    check_tree::<Brand, HostRuntime>(&rt, rt.alloc(), Blank::new(1))
}
