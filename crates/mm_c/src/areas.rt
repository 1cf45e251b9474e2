// Areas, for C.
ghost use Rattle.mm_model.specs.declared.command.Command.TheVariants as commands;
ghost use Rattle.mm_c.specs.Calls.{IsCall};

use crate::answer::MmAnswer;
use crate::handle::MmHeap;
use mm_model::Command;
use std::alloc::Global;

/// Makes an area whose cells are roots, the first ones counted. The word of the answer is its number.
#[unsafe(no_mangle)]
pub extern "C" fn mm_root(alloc: Global, heap: &mut MmHeap, counted: u32, cells: u32) -> MmAnswer
    ensures { IsCall heap.old.held.value heap.new.held.value (commands.Root counted cells) result }
{
    heap.call(alloc, Command::Root(counted, cells))
}

/// Makes an area that nothing scans. The word of the answer is its number.
#[unsafe(no_mangle)]
pub extern "C" fn mm_fixed(alloc: Global, heap: &mut MmHeap, cells: u32) -> MmAnswer
    ensures { IsCall heap.old.held.value heap.new.held.value (commands.Fixed cells) result }
{
    heap.call(alloc, Command::Fixed(cells))
}

/// Gives an area back.
#[unsafe(no_mangle)]
pub extern "C" fn mm_drop(alloc: Global, heap: &mut MmHeap, area: u32) -> MmAnswer
    ensures { IsCall heap.old.held.value heap.new.held.value (commands.DropArea area) result }
{
    heap.call(alloc, Command::DropArea(area))
}

/// Pushes cell `s` of an area.
#[unsafe(no_mangle)]
pub extern "C" fn mm_aget(alloc: Global, heap: &mut MmHeap, area: u32, s: u32) -> MmAnswer
    ensures { IsCall heap.old.held.value heap.new.held.value (commands.AreaGet area s) result }
{
    heap.call(alloc, Command::AreaGet(area, s))
}

/// Writes the word of stack cell `j` into cell `s` of an area. The word of the answer is 1 where the store was loose.
#[unsafe(no_mangle)]
pub extern "C" fn mm_aput(alloc: Global, heap: &mut MmHeap, area: u32, s: u32, j: u32) -> MmAnswer
    ensures { IsCall heap.old.held.value heap.new.held.value (commands.AreaPut area s j) result }
{
    heap.call(alloc, Command::AreaPut(area, s, j))
}
