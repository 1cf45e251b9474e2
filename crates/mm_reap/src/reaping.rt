// Which objects a reap frees.
ghost use Rattle.std.specs.Prelude.{◌≡◌, ◌≤◌, ◌<◌, ◌+◌, ◌-◌, ◌*◌, ℕ, false, length, take, drop, IsPermutation};
ghost use Rattle.std.specs.List.Sorted.{IsNonDecreasing};
ghost use Rattle.mm_model.specs.Views.GoodView.{HoldTight};
ghost use Rattle.mm_model.specs.Views.SetsByBase.{IsReapableAt, AreBasesAt};
ghost use Rattle.mm_object.specs.Object.{views_of};
ghost use Rattle.mm_object.specs.Heap.{IsSound};
ghost use Rattle.mm_count.specs.Table.{IsRight, IsSameTable};
ghost use Rattle.mm_count.specs.Counts.{IsCountedBy};
ghost use Rattle.mm_count.specs.Apart.{AreCountsApart};
ghost use Rattle.mm_count.specs.Listed.{AllListed, NonePinned};
ghost use Rattle.mm_count.specs.DeadApart.{AreDeadApart, IsRecounted};
ghost use Rattle.mm_reap.specs.Slots.{counted_slots_of};
ghost use Rattle.mm_reap.specs.Filled.{IsFilled};

use crate::dead::take_entries;
use crate::following::follow_all;
use crate::pins::set_pins;
use mm_count::ZeroTable;
use mm_object::Heap;
use mm_roots::Stack;
use mm_steps::Steps;
use mm_words::Words;
use std::sync::ledger::Ledger;

/// Sorts the first `k` words.
fn sort_front(words: &mut Words, k: u32)
    requires { k ≤ length words.old.words }
    ensures filled { IsFilled words.old words.new 0 k }
    ensures same { IsPermutation (take k words.old.words) (take k words.new.words) }
    ensures sorted { IsNonDecreasing (take k words.new.words) }
{
    words.part_mut(0, k).sort_unstable();
}

/// Finds the objects that a reap frees: writes their bases, ascending, to the front of `dead`, and answers how many.
/// They still stand in the heap, out of the zero-count table, and their slots hold no counts.
pub fn reap<L: Ledger>(
    heap: &mut Heap,
    count: &mut ZeroTable,
    stack: &Stack,
    dead: &mut Words,
    steps: &mut Steps<L>,
) -> u32
    requires right { IsRight count.old heap.old }
    requires tight { HoldTight (views_of heap.old.objects) }
    requires counted { (outside : ℕ → ℕ) × IsCountedBy heap.old.objects outside }
    requires listed { AllListed heap.old.objects }
    requires unpinned { NonePinned heap.old.objects }
    requires room { 256 * (heap.old.pages - 1) ≤ length dead.old.words }
    ensures bases { (outside : ℕ → ℕ) → IsCountedBy heap.old.objects outside
        → AreBasesAt (views_of heap.old.objects) (IsReapableAt (views_of heap.old.objects) stack.now.words outside)
        (take result dead.new.words) }
    ensures counts { (outside : ℕ → ℕ) → IsCountedBy heap.old.objects outside
        → AreCountsApart (take result dead.new.words) heap.new.objects outside }
    ensures apart { AreDeadApart (take result dead.new.words) heap.new.objects }
    ensures dead { IsFilled dead.old dead.new 0 result }
    ensures heap { IsRecounted heap.old heap.new }
    ensures table { IsSameTable count.old count.new }
    ensures unpinned { NonePinned heap.new.objects }
    ensures right { IsRight count.new heap.new }
    ensures sound { IsSound heap.new }
    ensures cost { steps.new < steps.old + 32 * (1 + length stack.now.words + length count.old.entries
        + counted_slots_of (views_of heap.old.objects) (take result dead.new.words)) }
{
    prove!(256 * (heap.size() - 1) <= dead.len());
    set_pins(heap, count, stack, true, steps);
    let entries = take_entries(heap, count, dead, steps);
    let found = follow_all(heap, count, dead, entries, steps);
    set_pins(heap, count, stack, false, steps);
    sort_front(dead, found);
    found
}
