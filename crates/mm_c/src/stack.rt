// The stack, for C.
ghost use Rattle.std.specs.Prelude.{◌≡◌, ◌<◌};
ghost use Rattle.mm_model.specs.declared.command.Command.TheVariants as commands;
ghost use Rattle.mm_c.specs.Calls.{IsCall};
ghost use Rattle.mm_c.specs.InBulk.{IsSlidBy, Slides};

use crate::answer::MmAnswer;
use crate::handle::MmHeap;
use crate::owned::Owned;
use crate::status::Status;
use mm_model::Command;
use mm_steps::Steps;
use std::alloc::Global;
use std::marker::Brand;
use std::sync::ledger::{Blank, Ledger};

/// Pushes a word.
#[unsafe(no_mangle)]
pub extern "C" fn mm_push(alloc: Global, heap: &mut MmHeap, word: u32) -> MmAnswer
    ensures { IsCall heap.old.held.value heap.new.held.value (commands.Push word) result }
{
    heap.call(alloc, Command::Push(word))
}

/// Pushes cell `i` again.
#[unsafe(no_mangle)]
pub extern "C" fn mm_dup(alloc: Global, heap: &mut MmHeap, i: u32) -> MmAnswer
    ensures { IsCall heap.old.held.value heap.new.held.value (commands.Dup i) result }
{
    heap.call(alloc, Command::Dup(i))
}

/// Removes `k` cells from the top.
#[unsafe(no_mangle)]
pub extern "C" fn mm_pop(alloc: Global, heap: &mut MmHeap, k: u32) -> MmAnswer
    ensures { IsCall heap.old.held.value heap.new.held.value (commands.Pop k) result }
{
    heap.call(alloc, Command::Pop(k))
}

impl Owned {
    fn slide<L: Ledger>(&mut self, k: u32, blank: Blank) -> MmAnswer
        requires name { blank.name ≡ L.name }
        requires parts { blank.parts ≡ L.parts }
        requires shared { 0 < L.parts }
        ensures { IsSlidBy self.old self.new k result }
    {
        let mut steps = Steps::<L>::open(blank);
        MmAnswer::of_done(self.gc.slide(k, &mut steps))
    }
}

/// Removes the `k` cells below the top. The top stays.
#[unsafe(no_mangle)]
pub extern "C" fn mm_slide(alloc: Global, heap: &mut MmHeap, k: u32) -> MmAnswer
    ensures { Slides heap.old.held.value heap.new.held.value k result }
{
    match heap.take(alloc) {
        Some(owned) => {
            let mut owned = owned;
            let answer = owned.slide::<Brand>(k, Blank::new(1));
            heap.restore(owned);
            answer
        }
        None => MmAnswer::bare(Status::Closed),
    }
}
