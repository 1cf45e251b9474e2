// Objects that are found since those found before them alone hold them.
ghost use Rattle.std.specs.Prelude.{◌≡◌, ◌≤◌, ◌<◌, ◌+◌, ◌-◌, ◌*◌, [], ℕ, List, length, take, slice_index};
ghost use Rattle.mm_model.specs.Views.GoodView.{HoldTight};
ghost use Rattle.mm_object.specs.Object.{views_of};
ghost use Rattle.mm_count.specs.Table.{IsCountedAt, IsSameTable};
ghost use Rattle.mm_count.specs.DeadApart.{IsRecounted};
ghost use Rattle.mm_reap.specs.Slots.{counted_slots_at, counted_slots_of};
ghost use Rattle.mm_reap.specs.Filled.{IsFilled};
ghost use Rattle.mm_reap.specs.Pins.{ListsPinned, ListsPinnedOrNamed};
ghost use Rattle.mm_reap.specs.Found.{AreReapable, SomeReapable, IsReaped};

use crate::dead::follow_slot;
use mm_count::ZeroTable;
use mm_object::Heap;
use mm_steps::Steps;
use mm_words::Words;
use std::sync::ledger::Ledger;

/// Takes what the counted slots of the object at `base` name out of the table, as far as it isn't pinned, and answers
/// how many are found then.
fn follow_slots<L: Ledger>(
    heap: &mut Heap,
    count: &mut ZeroTable,
    base: u32,
    dead: &mut Words,
    k: u32,
    steps: &mut Steps<L>,
) -> u32
    requires counted { IsCountedAt heap.old.objects base }
    requires tight { HoldTight (views_of heap.old.objects) }
    requires pinned { ListsPinnedOrNamed heap.old.objects base 0 }
    requires reaped { IsReaped count.old heap.old (take k dead.old.words) }
    requires room { 256 * (heap.old.pages - 1) ≤ length dead.old.words }
    requires within { k ≤ length dead.old.words }
    ensures few { result ≤ k + counted_slots_at (views_of heap.old.objects) base }
    ensures pinned { ListsPinned heap.new.objects [] }
    ensures filled { IsFilled dead.old dead.new k result }
    ensures reaped { IsReaped count.new heap.new (take result dead.new.words) }
    ensures reapable { (stack dropped : List ℕ) (outside : ℕ → ℕ)
        → AreReapable heap.old.objects stack dropped (take k dead.old.words) outside
        → AreReapable heap.new.objects stack dropped (take result dead.new.words) outside }
    ensures table { IsSameTable count.old count.new }
    ensures heap { IsRecounted heap.old heap.new }
    ensures cost { steps.new ≤ steps.old + 1 + 11 * counted_slots_at (views_of heap.old.objects) base }
{
    let mut found = k;
    for s in 0..heap.shape(base, steps).counted {
        found = follow_slot(heap, count, base, s, dead, found, steps);
    }
    found
}

/// Drops what the object found at place `i` holds, and answers how many are found then.
fn follow<L: Ledger>(
    heap: &mut Heap,
    count: &mut ZeroTable,
    i: u32,
    dead: &mut Words,
    k: u32,
    steps: &mut Steps<L>,
) -> u32
    requires next { i < k }
    requires some { SomeReapable heap.old.objects (take i dead.old.words) (take k dead.old.words) }
    requires tight { HoldTight (views_of heap.old.objects) }
    requires pinned { ListsPinned heap.old.objects [] }
    requires reaped { IsReaped count.old heap.old (take k dead.old.words) }
    requires room { 256 * (heap.old.pages - 1) ≤ length dead.old.words }
    requires within { k ≤ length dead.old.words }
    ensures few { result ≤ k + counted_slots_at (views_of heap.old.objects) (slice_index dead.old.words i) }
    ensures pinned { ListsPinned heap.new.objects [] }
    ensures filled { IsFilled dead.old dead.new k result }
    ensures reaped { IsReaped count.new heap.new (take result dead.new.words) }
    ensures reapable { (stack : List ℕ) (outside : ℕ → ℕ)
        → AreReapable heap.old.objects stack (take i dead.old.words) (take k dead.old.words) outside
        → AreReapable heap.new.objects stack (take (i + 1) dead.new.words) (take result dead.new.words) outside }
    ensures table { IsSameTable count.old count.new }
    ensures heap { IsRecounted heap.old heap.new }
    ensures cost { steps.new ≤ steps.old + 3
        + 21 * counted_slots_at (views_of heap.old.objects) (slice_index dead.old.words i) }
{
    let base = dead.get(i);
    count.lower_slots(heap, base, steps);
    follow_slots(heap, count, base, dead, k, steps)
}

/// Drops what the objects found hold, and finds those which are held by no others then, until there are no more.
pub(crate) fn follow_all<L: Ledger>(
    heap: &mut Heap,
    count: &mut ZeroTable,
    dead: &mut Words,
    k: u32,
    steps: &mut Steps<L>,
) -> u32
    requires some { SomeReapable heap.old.objects [] (take k dead.old.words) }
    requires tight { HoldTight (views_of heap.old.objects) }
    requires pinned { ListsPinned heap.old.objects [] }
    requires reaped { IsReaped count.old heap.old (take k dead.old.words) }
    requires room { 256 * (heap.old.pages - 1) ≤ length dead.old.words }
    requires within { k ≤ length dead.old.words }
    ensures few { result ≤ k + counted_slots_of (views_of heap.old.objects) (take result dead.new.words) }
    ensures pinned { ListsPinned heap.new.objects [] }
    ensures filled { IsFilled dead.old dead.new k result }
    ensures reaped { IsReaped count.new heap.new (take result dead.new.words) }
    ensures reapable { (stack : List ℕ) (outside : ℕ → ℕ)
        → AreReapable heap.old.objects stack [] (take k dead.old.words) outside
        → AreReapable heap.new.objects stack (take result dead.new.words) (take result dead.new.words) outside }
    ensures table { IsSameTable count.old count.new }
    ensures heap { IsRecounted heap.old heap.new }
    ensures cost { steps.new ≤ steps.old + 3 * result
        + 21 * counted_slots_of (views_of heap.old.objects) (take result dead.new.words) }
{
    let mut found = k;
    let mut i = 0;
    while i < found {
        found = follow(heap, count, i, dead, found, steps);
        i += 1;
    }
    found
}
