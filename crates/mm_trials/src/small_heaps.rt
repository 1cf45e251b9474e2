// Shortest paths in small heaps that are drawn, compared with what is reached round by round.
ghost use Rattle.std.specs.Prelude.{◌≡◌, ◌<◌, ◌≤◌, length};

use crate::trial::{Trial, is_object, pages};
use arrayvec::ArrayVec;
use mm_gc::Gc;
use mm_model::{Command, Kind, Shape};
use mm_object::Heap;
use mm_steps::Steps;
use mm_why::{Via, Why};
use std::alloc::Global;
use std::marker::Brand;
use std::process::Abort;
use std::sync::ledger::{Blank, Ledger};
use std::test::Fail;

const HEAPS: u32 = 300;

// The regions of these heaps have so many pages.
const PAGES: u32 = 8;

// More than the objects of a heap, and than the rounds that it takes to reach them.
const MOST: usize = 32;

// How many areas each heap has, and how many cells the largest one.
const AREAS: u32 = 3;

const AREA_CELLS: u32 = 3;

/// Draws numbers, the same ones from each seed.
#[derive(Drop)]
struct Draws {
    state: u32,
}

impl Draws {
    fn below(&mut self, limit: u32) -> u32
        requires { 0 < limit }
        ensures { result < limit }
    {
        self.state = self.state.wrapping_mul(1664525).wrapping_add(1013904223);
        self.state / 65536 % limit
    }

    fn shape(&mut self) -> Shape {
        let slots = self.below(10);
        let (kind, counted) = match self.below(8) {
            0 => (Kind::Leaf, 0),
            1..4 => (Kind::Counted, slots / 2),
            _ => (Kind::Traced, slots / 3),
        };
        Shape {
            kind,
            finalize: false,
            counted,
            slots,
        }
    }

    /// A word near the begin of a page, where it may fall in an object or beside one.
    fn word(&mut self) -> u32 {
        4096 * self.below(PAGES) + self.below(256)
    }

    /// A command that pushes a drawn word, or that of a cell, or one inside the object that a cell means.
    fn push(&mut self, cell: u32) -> Command {
        match self.below(8) {
            0 => Command::Push(self.word()),
            1..5 => Command::Dup(cell),
            _ => Command::Inner(cell, self.below(16)),
        }
    }
}

/// Makes objects, and stores words in their slots and in cells of areas. Of the stack a few words are left. A reap may
/// free counted objects, also where words of slots fall in them.
fn build<R: Abort>(rt: &R, trial: &mut Trial, draws: &mut Draws) {
    trial.carry_out(rt, Command::Root(1, AREA_CELLS));
    trial.carry_out(rt, Command::Fixed(AREA_CELLS));
    trial.carry_out(rt, Command::Root(0, 2));
    let objects = 2 + draws.below(16);
    for _ in 0..objects {
        trial.carry_out(rt, Command::New(draws.shape()));
    }
    trial.carry_out(rt, Command::Weak(draws.below(objects)));
    trial.carry_out(rt, Command::Weak(draws.below(objects)));
    for _ in 0..8 * objects {
        store(rt, trial, draws, objects);
    }
    let depth = trial.heap().stack().depth();
    trial.carry_out(rt, Command::Pop(depth.saturating_sub(draws.below(3))));
    trial.carry_out(rt, Command::Push(draws.word()));
    if draws.below(2) == 0 {
        trial.carry_out(rt, Command::Reap);
    }
}

/// Stores a word in a slot of one of the objects that the top cells name, or in a cell of an area.
fn store<R: Abort>(rt: &R, trial: &mut Trial, draws: &mut Draws, objects: u32)
    requires { 0 < objects }
{
    let cell = draws.below(objects);
    trial.carry_out(rt, draws.push(cell));
    let command = match draws.below(32) {
        0 => Command::AreaPut(draws.below(AREAS), draws.below(AREA_CELLS), 0),
        _ => Command::Put(1 + draws.below(objects), draws.below(6), 0),
    };
    trial.carry_out(rt, command);
    trial.carry_out(rt, Command::Pop(1));
}

/// An object, and in which round it is reached, from 1 on.
#[derive(Clone, Copy, Debug, Default, PartialEq, Eq, Drop)]
struct Reached {
    base: u32,
    round: Option<u32>,
}

type Objects = ArrayVec<Reached, MOST>;

/// The live objects, none of them reached yet.
fn list_objects<L: Ledger, R: Abort>(rt: &R, heap: &Heap, steps: &mut Steps<L>) -> Objects {
    let mut objects = ArrayVec::new();
    let mut from = 0;
    for _ in 0..MOST {
        match heap.cells().next_taken(from, steps) {
            Some(base) => {
                let _ = objects.try_push(Reached { base, round: None });
                from = base.saturating_add(1);
            }
            None => return objects,
        }
    }
    rt.abort()
}

/// Whether a word is the address of a byte of the object at a base.
fn falls<L: Ledger>(heap: &Heap, word: u32, base: u32, steps: &mut Steps<L>) -> bool {
    is_object(heap, base, steps) && base <= word && word - base < heap.extent(base, steps)
}

/// The word of a cell of a scanned area.
fn area_word<L: Ledger>(gc: &Gc, number: u32, cell: u32, steps: &mut Steps<L>) -> Option<u32> {
    match gc.areas().next_scanned(number) {
        Some(area) if area.number == number && cell < area.cells => {
            Some(gc.areas().word(gc.heap(), area, cell, steps))
        }
        _ => None,
    }
}

/// Whether a word of the stack or of a scanned area falls in an object.
fn is_rooted<L: Ledger>(gc: &Gc, base: u32, steps: &mut Steps<L>) -> bool {
    for &word in gc.stack().words(steps) {
        if falls(gc.heap(), word, base, steps) {
            return true;
        }
    }
    for number in 0..AREAS {
        for cell in 0..AREA_CELLS {
            if let Some(word) = area_word(gc, number, cell, steps)
                && falls(gc.heap(), word, base, steps)
            {
                return true;
            }
        }
    }
    false
}

/// Whether the word of a scanned slot of a holder falls in an object.
fn names<L: Ledger>(heap: &Heap, holder: u32, base: u32, steps: &mut Steps<L>) -> bool {
    if !is_object(heap, holder, steps) {
        return false;
    }
    for &word in heap.scanned(holder, steps) {
        if falls(heap, word, base, steps) {
            return true;
        }
    }
    false
}

/// Whether an object is named after so many rounds: by words outside at first, and then by what the last round reached.
fn is_named<L: Ledger>(
    gc: &Gc,
    rounds: u32,
    objects: &Objects,
    base: u32,
    steps: &mut Steps<L>,
) -> bool {
    if rounds == 0 {
        return is_rooted(gc, base, steps);
    }
    for holder in objects.as_slice() {
        if holder.round == Some(rounds) && names(gc.heap(), holder.base, base, steps) {
            return true;
        }
    }
    false
}

/// One more round after so many: it reaches what is named by then and wasn't reached before.
fn reach<L: Ledger>(gc: &Gc, rounds: u32, objects: &Objects, steps: &mut Steps<L>) -> Objects
    requires { rounds < MOST }
{
    let mut after = ArrayVec::new();
    for &object in objects.as_slice() {
        let base = object.base;
        let round = if object.round.is_none() && is_named(gc, rounds, objects, base, steps) {
            Some(rounds + 1)
        } else {
            object.round
        };
        let _ = after.try_push(Reached { base, round });
    }
    after
}

/// The word of a scanned slot of an object.
fn slot_word<L: Ledger>(heap: &Heap, holder: u32, slot: u32, steps: &mut Steps<L>) -> Option<u32> {
    if !is_object(heap, holder, steps) {
        return None;
    }
    let words = heap.scanned(holder, steps);
    if (slot as usize) < words.len() {
        Some(words[slot as usize])
    } else {
        None
    }
}

/// The word of a hop behind an object, or of the first hop.
fn hop_word<L: Ledger>(
    gc: &Gc,
    before: Option<u32>,
    via: Via,
    steps: &mut Steps<L>,
) -> Option<u32> {
    match (before, via) {
        (None, Via::Stack { cell }) if cell < gc.stack().depth() => {
            Some(gc.stack().cell(cell, steps))
        }
        (None, Via::Area { area, cell }) => area_word(gc, area, cell, steps),
        (Some(holder), Via::Slot { slot }) => slot_word(gc.heap(), holder, slot, steps),
        _ => None,
    }
}

/// Whether the last search's hops are a path to an object.
fn is_path<L: Ledger>(why: &Why, gc: &Gc, count: u32, base: u32, steps: &mut Steps<L>) -> bool
    requires { count ≤ length why.now.hops }
{
    let mut before = None;
    for k in 0..count {
        let hop = why.hop(k);
        match hop_word(gc, before, hop.via, steps) {
            Some(word) if falls(gc.heap(), word, hop.base, steps) => before = Some(hop.base),
            _ => return false,
        }
    }
    before == Some(base)
}

/// Whether a search finds a path with as many hops as it took rounds to reach the object, or none where it isn't
/// reached.
fn agrees<L: Ledger>(why: &mut Why, gc: &Gc, object: Reached, steps: &mut Steps<L>) -> bool
    requires pages { PAGES ≤ why.old.pages }
    ensures pages { why.new.pages ≡ why.old.pages }
{
    let heap = gc.heap();
    if !is_object(heap, object.base, steps) || PAGES < heap.size() {
        return false;
    }
    match why.search(heap, gc.stack(), gc.areas(), object.base, steps) {
        Some(count) => object.round == Some(count) && is_path(why, gc, count, object.base, steps),
        None => object.round.is_none(),
    }
}

/// Compares each object of a heap, and answers the last round in which one is reached.
fn compare<L: Ledger, R: Abort>(rt: &R, why: &mut Why, gc: &Gc, steps: &mut Steps<L>) -> u32
    requires pages { PAGES ≤ why.old.pages }
    ensures pages { why.new.pages ≡ why.old.pages }
{
    let mut objects = list_objects(rt, gc.heap(), steps);
    for rounds in 0..MOST as u32 {
        objects = reach(gc, rounds, &objects, steps);
    }
    let mut last = 0;
    for &object in objects.as_slice() {
        assert!(rt; agrees(why, gc, object, steps), "{object:?}");
        last = last.max(object.round.unwrap_or(0));
    }
    last
}

fn check_heaps<L: Ledger, R: Abort>(rt: &R, alloc: Global, blank: Blank) -> Result<(), Fail>
    requires name { blank.name ≡ L.name }
    requires parts { blank.parts ≡ L.parts }
    requires shared { 0 < L.parts }
{
    let mut steps: Steps<L> = Steps::open(blank);
    let mut why = Why::make(alloc, PAGES)?;
    let mut longest = 0;
    for seed in 0..HEAPS {
        let mut trial = Trial::open(rt, alloc, pages(PAGES, PAGES))?;
        let mut draws = Draws { state: seed };
        build(rt, &mut trial, &mut draws);
        longest = longest.max(compare(rt, &mut why, trial.heap(), &mut steps));
        trial.close();
    }
    // Else these heaps would show little.
    assert!(rt; 5 <= longest);
    Ok(())
}

#[test]
fn a_path_is_as_long_as_it_takes_rounds_to_reach_its_object(rt: HostRuntime) -> Result<(), Fail> {
    check_heaps::<Brand, HostRuntime>(&rt, rt.alloc(), Blank::new(1))
}
