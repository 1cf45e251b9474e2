// Objects are made for C.
ghost use Rattle.mm_model.specs.declared.command.Command.TheVariants as commands;
ghost use Rattle.mm_model.specs.declared.object.Kind.TheVariants.{Traced, Leaf, Counted};
ghost use Rattle.mm_c.specs.Calls.{IsCall};

use crate::answer::MmAnswer;
use crate::handle::MmHeap;
use mm_model::{Command, Kind, Shape};
use std::alloc::Global;

/// Makes an object that isn't counted, and pushes its base.
#[unsafe(no_mangle)]
pub extern "C" fn mm_new_traced(
    alloc: Global,
    heap: &mut MmHeap,
    finalize: bool,
    counted: u32,
    slots: u32,
) -> MmAnswer
    ensures { IsCall heap.old.held.value heap.new.held.value (commands.New (record {
      kind = Traced;
      finalize = finalize;
      counted = counted;
      slots = slots;
    })) result }
{
    let shape = Shape {
        kind: Kind::Traced,
        finalize,
        counted,
        slots,
    };
    heap.call(alloc, Command::New(shape))
}

/// Makes a counted object, and pushes its base.
#[unsafe(no_mangle)]
pub extern "C" fn mm_new_counted(
    alloc: Global,
    heap: &mut MmHeap,
    finalize: bool,
    counted: u32,
    slots: u32,
) -> MmAnswer
    ensures { IsCall heap.old.held.value heap.new.held.value (commands.New (record {
      kind = Counted;
      finalize = finalize;
      counted = counted;
      slots = slots;
    })) result }
{
    let shape = Shape {
        kind: Kind::Counted,
        finalize,
        counted,
        slots,
    };
    heap.call(alloc, Command::New(shape))
}

/// Makes an object whose slots nothing scans, and pushes its base.
#[unsafe(no_mangle)]
pub extern "C" fn mm_new_leaf(
    alloc: Global,
    heap: &mut MmHeap,
    finalize: bool,
    slots: u32,
) -> MmAnswer
    ensures { IsCall heap.old.held.value heap.new.held.value (commands.New (record {
      kind = Leaf;
      finalize = finalize;
      counted = 0;
      slots = slots;
    })) result }
{
    let shape = Shape {
        kind: Kind::Leaf,
        finalize,
        counted: 0,
        slots,
    };
    heap.call(alloc, Command::New(shape))
}

/// Pushes the weak reference to the object that cell `i` means.
#[unsafe(no_mangle)]
pub extern "C" fn mm_weak(alloc: Global, heap: &mut MmHeap, i: u32) -> MmAnswer
    ensures { IsCall heap.old.held.value heap.new.held.value (commands.Weak i) result }
{
    heap.call(alloc, Command::Weak(i))
}
