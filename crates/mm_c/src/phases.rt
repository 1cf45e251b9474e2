// Phases and cycles, for C.
ghost use Rattle.std.specs.Prelude.{◌≡◌, ◌≤◌, ◌<◌, false};
ghost use Rattle.mm_model.specs.declared.command.Command.TheVariants as commands;
ghost use Rattle.mm_gc.specs.Ending.{Ends};
ghost use Rattle.mm_c.specs.Calls.{IsCall, Ticks};
ghost use Rattle.mm_c.specs.Finals.{Keeps};

use crate::answer::MmAnswer;
use crate::handle::MmHeap;
use crate::owned::Owned;
use crate::status::Status;
use mm_model::Command;
use mm_steps::Steps;
use std::alloc::Global;
use std::marker::Brand;
use std::sync::ledger::{Blank, Ledger};

/// Frees what counting alone shows to be dead.
#[unsafe(no_mangle)]
pub extern "C" fn mm_reap(alloc: Global, heap: &mut MmHeap) -> MmAnswer
    ensures { IsCall heap.old.held.value heap.new.held.value commands.Reap result }
{
    heap.call(alloc, Command::Reap)
}

/// Frees all that neither the stack nor a scanned area reaches.
#[unsafe(no_mangle)]
pub extern "C" fn mm_collect(alloc: Global, heap: &mut MmHeap) -> MmAnswer
    ensures { IsCall heap.old.held.value heap.new.held.value commands.Collect result }
{
    heap.call(alloc, Command::Collect)
}

/// Begins a cycle.
#[unsafe(no_mangle)]
pub extern "C" fn mm_begin(alloc: Global, heap: &mut MmHeap) -> MmAnswer
    ensures { IsCall heap.old.held.value heap.new.held.value commands.Begin result }
{
    heap.call(alloc, Command::Begin)
}

/// Scans in the cycle that runs until the cost is at least `k`.
#[unsafe(no_mangle)]
pub extern "C" fn mm_step(alloc: Global, heap: &mut MmHeap, k: u32) -> MmAnswer
    ensures { IsCall heap.old.held.value heap.new.held.value (commands.Step k) result }
{
    heap.call(alloc, Command::Step(k))
}

/// Ends the cycle, and frees what it didn't reach.
#[unsafe(no_mangle)]
pub extern "C" fn mm_finish(alloc: Global, heap: &mut MmHeap) -> MmAnswer
    ensures { IsCall heap.old.held.value heap.new.held.value commands.Finish result }
{
    heap.call(alloc, Command::Finish)
}

/// Reaps where there are as many zero-count objects as the threshold says, as the program `mmgc` does at the end of
/// each command.
#[unsafe(no_mangle)]
pub extern "C" fn mm_tick(alloc: Global, heap: &mut MmHeap) -> u32
    ensures { Ticks heap.old.held.value heap.new.held.value result }
{
    match heap.take(alloc) {
        Some(owned) => {
            let mut owned = owned;
            owned.tick::<Brand>(Blank::new(1));
            heap.restore(owned);
            Status::Done.number()
        }
        None => Status::Closed.number(),
    }
}

impl Owned {
    /// Ends a command.
    fn tick<L: Ledger>(&mut self, blank: Blank)
        requires name { blank.name ≡ L.name }
        requires parts { blank.parts ≡ L.parts }
        requires shared { 0 < L.parts }
        ensures { Ends self.old.gc self.new.gc false (Keeps self.old.finals self.new.finals) }
    {
        if self.gc.stat().zero < self.gc.threshold() {
            return;
        }
        let mut steps = Steps::<L>::open(blank);
        self.gc.reap(&mut self.finals, &mut steps);
    }
}
