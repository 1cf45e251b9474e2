// Slots of objects, for C.
ghost use Rattle.mm_model.specs.declared.command.Command.TheVariants as commands;
ghost use Rattle.mm_c.specs.Calls.{IsCall};

use crate::answer::MmAnswer;
use crate::handle::MmHeap;
use mm_model::Command;
use std::alloc::Global;

/// Pushes slot `s` of the object that cell `i` means.
#[unsafe(no_mangle)]
pub extern "C" fn mm_get(alloc: Global, heap: &mut MmHeap, i: u32, s: u32) -> MmAnswer
    ensures { IsCall heap.old.held.value heap.new.held.value (commands.Get i s) result }
{
    heap.call(alloc, Command::Get(i, s))
}

/// Writes the word of cell `j` into slot `s` of the object that cell `i` means. The word of the answer is 1 where the
/// store was loose.
#[unsafe(no_mangle)]
pub extern "C" fn mm_put(alloc: Global, heap: &mut MmHeap, i: u32, s: u32, j: u32) -> MmAnswer
    ensures { IsCall heap.old.held.value heap.new.held.value (commands.Put i s j) result }
{
    heap.call(alloc, Command::Put(i, s, j))
}

/// Pushes the target of the weak reference that cell `i` means, or 0 once it was freed.
#[unsafe(no_mangle)]
pub extern "C" fn mm_look(alloc: Global, heap: &mut MmHeap, i: u32) -> MmAnswer
    ensures { IsCall heap.old.held.value heap.new.held.value (commands.Look i) result }
{
    heap.call(alloc, Command::Look(i))
}
