// Objects that come out of the table, since nothing that stays refers to them.
ghost use Rattle.std.specs.Prelude.{◌≡◌, ◌≤◌, ◌<◌, ◌+◌, ◌-◌, ◌*◌, [], ℕ, List, length, take, slice_set, slice_index};
ghost use Rattle.mm_model.specs.Views.ByBase.{Begins};
ghost use Rattle.mm_model.specs.Views.GoodView.{HoldTight};
ghost use Rattle.mm_object.specs.Object.{StoredObject, views_of};
ghost use Rattle.mm_object.specs.Heap.{IsSound};
ghost use Rattle.mm_words.specs.Piece.{with_words};
ghost use Rattle.mm_count.specs.Table.{IsCountedAt, IsSameTable};
ghost use Rattle.mm_count.specs.Counts.{composite_at, HasCountedSlot, table_left};
ghost use Rattle.mm_count.specs.DeadApart.{IsRecounted};
ghost use Rattle.mm_reap.specs.Filled.{IsFilled};
ghost use Rattle.mm_reap.specs.Pins.{ListsPinned, ListsPinnedOrNamed, ArePinnedFrom};
ghost use Rattle.mm_reap.specs.Pins.{IsUnpinnedEntry, IsEntryIf, HasLeft};
ghost use Rattle.mm_reap.specs.Found.{AreReapable, IsReaped};

use mm_count::ZeroTable;
use mm_object::{Heap, Slot};
use mm_steps::Steps;
use mm_words::Words;
use std::sync::ledger::Ledger;

/// Takes an object out of the table, and writes its base behind the first `k` of `dead`.
fn take_out<L: Ledger>(
    heap: &mut Heap,
    count: &mut ZeroTable,
    base: u32,
    dead: &mut Words,
    k: u32,
    steps: &mut Steps<L>,
)
    requires entry { IsUnpinnedEntry heap.old.objects base }
    requires reaped { IsReaped count.old heap.old (take k dead.old.words) }
    requires room { 256 * (heap.old.pages - 1) ≤ length dead.old.words }
    requires within { k ≤ length dead.old.words }
    ensures dead { dead.new ≡ with_words dead.old (slice_set dead.old.words k base) }
    ensures filled { IsFilled dead.old dead.new k (k + 1) }
    ensures few { k + 1 ≤ 256 * (heap.old.pages - 1) }
    ensures table { count.new ≡ table_left count.old (composite_at heap.old.objects base) }
    ensures left { HasLeft heap.old.objects heap.new.objects base }
    ensures reaped { IsReaped count.new heap.new (take (k + 1) dead.new.words) }
    ensures reapable { (stack dropped : List ℕ) (outside : ℕ → ℕ)
        → AreReapable heap.old.objects stack dropped (take k dead.old.words) outside
        → AreReapable heap.new.objects stack dropped (take (k + 1) dead.new.words) outside }
    ensures heap { IsRecounted heap.old heap.new }
    ensures cost { steps.new ≤ steps.old + 8 }
{
    count.leave(heap, base, steps);
    dead.set(k, base);
}

/// Takes the entry at place `i` out of the table unless it's pinned, and answers how many are found then.
fn take_entry<L: Ledger>(
    heap: &mut Heap,
    count: &mut ZeroTable,
    i: u32,
    dead: &mut Words,
    k: u32,
    steps: &mut Steps<L>,
) -> u32
    requires entry { i < length count.old.entries }
    requires pinned { ArePinnedFrom (i + 1) count.old.entries heap.old.objects }
    requires reaped { IsReaped count.old heap.old (take k dead.old.words) }
    requires room { 256 * (heap.old.pages - 1) ≤ length dead.old.words }
    requires within { k ≤ length dead.old.words }
    ensures few { result ≤ k + 1 }
    ensures entries { i ≤ length count.new.entries }
    ensures pinned { ArePinnedFrom i count.new.entries heap.new.objects }
    ensures filled { IsFilled dead.old dead.new k result }
    ensures reaped { IsReaped count.new heap.new (take result dead.new.words) }
    ensures reapable { (stack dropped : List ℕ) (outside : ℕ → ℕ)
        → AreReapable heap.old.objects stack dropped (take k dead.old.words) outside
        → AreReapable heap.new.objects stack dropped (take result dead.new.words) outside }
    ensures table { IsSameTable count.old count.new }
    ensures heap { IsRecounted heap.old heap.new }
    ensures cost { steps.new ≤ steps.old + 10 }
{
    let base = count.entry(i, steps);
    if count.is_pinned(heap, base, steps) {
        return k;
    }
    take_out(heap, count, base, dead, k, steps);
    k + 1
}

/// Takes the entries that aren't pinned out of the table, and answers how many there are.
pub(crate) fn take_entries<L: Ledger>(
    heap: &mut Heap,
    count: &mut ZeroTable,
    dead: &mut Words,
    steps: &mut Steps<L>,
) -> u32
    requires reaped { IsReaped count.old heap.old [] }
    requires room { 256 * (heap.old.pages - 1) ≤ length dead.old.words }
    ensures few { result ≤ length count.old.entries }
    ensures pinned { ListsPinned heap.new.objects [] }
    ensures filled { IsFilled dead.old dead.new 0 result }
    ensures reaped { IsReaped count.new heap.new (take result dead.new.words) }
    ensures reapable { (stack dropped : List ℕ) (outside : ℕ → ℕ)
        → AreReapable heap.old.objects stack dropped [] outside
        → AreReapable heap.new.objects stack dropped (take result dead.new.words) outside }
    ensures table { IsSameTable count.old count.new }
    ensures heap { IsRecounted heap.old heap.new }
    ensures cost { steps.new ≤ steps.old + 10 * length count.old.entries }
{
    let mut k = 0;
    // From the last entry down, since the last one comes into the place of one that is taken out.
    let mut i = count.len();
    while 0 < i {
        i -= 1;
        k = take_entry(heap, count, i, dead, k, steps);
    }
    k
}

/// Whether the object at `base` is in the table and isn't pinned.
fn is_unpinned_entry<L: Ledger>(
    heap: &Heap,
    count: &ZeroTable,
    base: u32,
    steps: &mut Steps<L>,
) -> bool
    requires { IsCountedAt heap.now.objects base }
    ensures entry { IsEntryIf heap.now.objects base result }
    ensures cost { steps.new ≤ steps.old + 2 }
{
    count.is_listed(heap, base, steps) && !count.is_pinned(heap, base, steps)
}

/// The word of a counted slot.
fn counted_word<L: Ledger>(heap: &Heap, base: u32, s: u32, steps: &mut Steps<L>) -> u32
    requires { HasCountedSlot heap.now.objects base s }
    ensures word { (object : StoredObject) → Begins heap.now.objects base object → result ≡ slice_index object.words s }
    ensures sound { IsSound heap.now }
    ensures cost { steps.new ≡ steps.old + 1 }
{
    match heap.slot(base, s, steps) {
        Slot::Count(word) => word,
        Slot::Word(_) | Slot::Raw(_) => unreachable!(),
    }
}

/// Takes the object that a counted slot names out of the table, if it's there and isn't pinned, and answers how many
/// are found then.
pub(crate) fn follow_slot<L: Ledger>(
    heap: &mut Heap,
    count: &mut ZeroTable,
    base: u32,
    s: u32,
    dead: &mut Words,
    k: u32,
    steps: &mut Steps<L>,
) -> u32
    requires slot { HasCountedSlot heap.old.objects base s }
    requires tight { HoldTight (views_of heap.old.objects) }
    requires pinned { ListsPinnedOrNamed heap.old.objects base s }
    requires reaped { IsReaped count.old heap.old (take k dead.old.words) }
    requires room { 256 * (heap.old.pages - 1) ≤ length dead.old.words }
    requires within { k ≤ length dead.old.words }
    ensures few { result ≤ k + 1 }
    ensures pinned { ListsPinnedOrNamed heap.new.objects base (s + 1) }
    ensures filled { IsFilled dead.old dead.new k result }
    ensures reaped { IsReaped count.new heap.new (take result dead.new.words) }
    ensures reapable { (stack dropped : List ℕ) (outside : ℕ → ℕ)
        → AreReapable heap.old.objects stack dropped (take k dead.old.words) outside
        → AreReapable heap.new.objects stack dropped (take result dead.new.words) outside }
    ensures table { IsSameTable count.old count.new }
    ensures heap { IsRecounted heap.old heap.new }
    ensures cost { steps.new ≤ steps.old + 11 }
{
    let word = counted_word(heap, base, s, steps);
    if word == 0 {
        return k;
    }
    if !is_unpinned_entry(heap, count, word, steps) {
        return k;
    }
    take_out(heap, count, word, dead, k, steps);
    k + 1
}
