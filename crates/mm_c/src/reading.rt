// What C reads without a command: a stack cell, and a slot of the object in which a word falls.
ghost use Rattle.std.specs.Prelude.{◌≡◌, ◌<◌};
ghost use Rattle.mm_gc.specs.Describing.{SlotAnswer};
ghost use Rattle.mm_gc.specs.Gc.{view_of_gc};
ghost use Rattle.mm_gc.specs.Refused.{CellAnswer};
ghost use Rattle.mm_c.specs.Reading.{Loads, ReadsCell, TellsWord};

use crate::answer::MmAnswer;
use crate::handle::MmHeap;
use crate::status::Status;
use mm_gc::Gc;
use mm_steps::Steps;
use std::alloc::Global;
use std::marker::Brand;
use std::sync::ledger::{Blank, Ledger};

fn cell<L: Ledger>(gc: &Gc, i: u32, blank: Blank) -> MmAnswer
    requires name { blank.name ≡ L.name }
    requires parts { blank.parts ≡ L.parts }
    requires shared { 0 < L.parts }
    ensures { TellsWord (CellAnswer gc.now.stack.words i) result }
{
    let mut steps = Steps::<L>::open(blank);
    MmAnswer::of_word(gc.cell(i, &mut steps))
}

fn load<L: Ledger>(gc: &Gc, word: u32, s: u32, blank: Blank) -> MmAnswer
    requires name { blank.name ≡ L.name }
    requires parts { blank.parts ≡ L.parts }
    requires shared { 0 < L.parts }
    ensures { TellsWord (SlotAnswer (view_of_gc gc.now) word s) result }
{
    let mut steps = Steps::<L>::open(blank);
    MmAnswer::of_word(gc.slot(word, s, &mut steps))
}

/// The word of cell `i`.
#[unsafe(no_mangle)]
pub extern "C" fn mm_cell(alloc: Global, heap: &mut MmHeap, i: u32) -> MmAnswer
    ensures { ReadsCell heap.old.held.value heap.new.held.value i result }
{
    match heap.take(alloc) {
        Some(owned) => {
            let answer = cell::<Brand>(&owned.gc, i, Blank::new(1));
            heap.restore(owned);
            answer
        }
        None => MmAnswer::bare(Status::Closed),
    }
}

/// Slot `s` of the object in which the word falls.
#[unsafe(no_mangle)]
pub extern "C" fn mm_load(alloc: Global, heap: &mut MmHeap, word: u32, s: u32) -> MmAnswer
    ensures { Loads heap.old.held.value heap.new.held.value word s result }
{
    match heap.take(alloc) {
        Some(owned) => {
            let answer = load::<Brand>(&owned.gc, word, s, Blank::new(1));
            heap.restore(owned);
            answer
        }
        None => MmAnswer::bare(Status::Closed),
    }
}
