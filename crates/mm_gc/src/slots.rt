// Writes into slots of objects.
ghost use Rattle.std.specs.Prelude.{◌≡◌, ◌==◌, ◌||◌, ◌+◌, ◌≤◌, ℕ, if◌then◌else◌, true, false, OnErr};
ghost use Rattle.mm_model.specs.declared.command.Command.TheVariants as commands;
ghost use Rattle.mm_model.specs.declared.reply.Put.TheVariants.{Tight, Loose};
ghost use Rattle.mm_model.specs.Store.{is_counted_slot};
ghost use Rattle.mm_model.specs.Views.ByBase.{Begins};
ghost use Rattle.mm_model.specs.Views.ObjectView.{ObjectView, slot_kind_of};
ghost use Rattle.mm_model.specs.Views.View.{View};
ghost use Rattle.mm_model.specs.Views.ViewStore.{view_barrier};
ghost use Rattle.mm_model.specs.Views.ViewWords.{outside_references};
ghost use Rattle.mm_model.specs.Views.ViewWords.{begins_counted_in, falls_in_counted_of};
ghost use Rattle.mm_object.specs.Object.{StoredObject, view_of_stored, views_of};
ghost use Rattle.mm_object.specs.Heap.{HasSlot, IsSound};
ghost use Rattle.mm_count.specs.Table.{Table, IsSameTable};
ghost use Rattle.mm_count.specs.Counts.{HasCountedSlot, IsCountedBy};
ghost use Rattle.mm_mark.specs.Marker.{AreKnown, KeepsGray, IsSameButQueue, marking};
ghost use Rattle.mm_mark.specs.Stale.{KeepsFewStale};
ghost use Rattle.mm_gc.specs.Replies.{put_reply};
ghost use Rattle.mm_gc.specs.Rows.{Answers};
ghost use Rattle.mm_gc.specs.Counts.{HasCounts};
ghost use Rattle.mm_gc.specs.Stores.{IsCounting, IsStored, StoreAnswer, cycle_with};

use crate::gc::Gc;
use mm_count::ZeroTable;
use mm_mark::Marker;
use mm_model::{Put, Refusal};
use mm_object::{Heap, Slot};
use mm_steps::Steps;
use std::sync::ledger::Ledger;

/// Whether a counted object begins at the word.
fn begins_counted<L: Ledger>(heap: &Heap, word: u32, steps: &mut Steps<L>) -> bool
    ensures answer { result ≡ begins_counted_in (views_of heap.now.objects) word }
    ensures cost { steps.new ≤ steps.old + 1 }
{
    match heap.look_up(word, steps) {
        Some(found) => found.base == word && found.shape.kind.is_counted(),
        None => false,
    }
}

/// Whether the word is 0 or the base of a counted object, so that a counted slot or cell takes it.
pub(crate) fn is_tight<L: Ledger>(heap: &Heap, word: u32, steps: &mut Steps<L>) -> bool
    ensures answer { result ≡ (word == 0 || begins_counted_in (views_of heap.now.objects) word) }
    ensures cost { steps.new ≤ steps.old + 1 }
{
    word == 0 || begins_counted(heap, word, steps)
}

/// Whether the word falls in a counted object.
fn falls_in_counted<L: Ledger>(heap: &Heap, word: u32, steps: &mut Steps<L>) -> bool
    ensures falls { result ≡ falls_in_counted_of (views_of heap.now.objects) word }
    ensures sound { IsSound heap.now }
    ensures cost { steps.new ≤ steps.old + 1 }
{
    match heap.look_up(word, steps) {
        Some(found) => found.shape.kind.is_counted(),
        None => false,
    }
}

/// Loose where the word falls in a counted object: the slot or cell keeps no count of it.
pub(crate) fn looseness<L: Ledger>(heap: &Heap, word: u32, steps: &mut Steps<L>) -> Put
    ensures loose { result ≡ (if falls_in_counted_of (views_of heap.now.objects) word then Loose else Tight) }
    ensures sound { IsSound heap.now }
    ensures cost { steps.new ≤ steps.old + 1 }
{
    if falls_in_counted(heap, word, steps) {
        Put::Loose
    } else {
        Put::Tight
    }
}

/// Writes a counted slot, which takes only what is tight. The counts follow.
fn write_counted<L: Ledger>(
    heap: &mut Heap,
    count: &mut ZeroTable,
    base: u32,
    s: u32,
    word: u32,
    steps: &mut Steps<L>,
) -> Result<Put, Refusal>
    requires slot { HasCountedSlot heap.old.objects base s }
    requires counting { IsCounting count.old heap.old }
    requires sound { IsSound heap.old }
    ensures answer { (view : View) (object : ObjectView) → view.objects ≡ views_of heap.old.objects
        → Begins view.objects base object → IsCountedBy heap.old.objects (outside_references view)
        → StoreAnswer view (record { holder = record { base = base; value = object }; slot = s; word = word })
        (views_of heap.new.objects) result }
    ensures counts { (outside : ℕ → ℕ) → HasCounts count.old heap.old outside
        → HasCounts count.new heap.new outside }
    ensures table { IsSameTable count.old count.new }
    ensures rest { heap.new ≡ record heap.old { objects = heap.new.objects } }
    ensures same_table { OnErr result (count.new ≡ count.old) }
    ensures same_heap { OnErr result (heap.new ≡ heap.old) }
    ensures sound { IsSound heap.new }
    ensures cost { steps.new ≤ steps.old + 25 }
{
    if !is_tight(heap, word, steps) {
        return Err(Refusal::NotCounted);
    }
    count.store(heap, base, s, word, steps);
    Ok(Put::Tight)
}

/// Writes a slot that isn't counted.
fn write_uncounted<L: Ledger>(
    heap: &mut Heap,
    base: u32,
    s: u32,
    word: u32,
    steps: &mut Steps<L>,
) -> Put
    requires slot { HasSlot heap.old base s }
    requires plain { (object : StoredObject) → Begins heap.old.objects base object
        → is_counted_slot (slot_kind_of (view_of_stored object) s) ≡ false }
    ensures answer { (view : View) (object : ObjectView) → view.objects ≡ views_of heap.old.objects
        → Begins view.objects base object
        → IsStored view (record { holder = record { base = base; value = object }; slot = s; word = word })
        (views_of heap.new.objects) result }
    ensures counts { (table : Table) (outside : ℕ → ℕ) → HasCounts table heap.old outside
        → HasCounts table heap.new outside }
    ensures rest { heap.new ≡ record heap.old { objects = heap.new.objects } }
    ensures sound { IsSound heap.new }
    ensures cost { steps.new ≤ steps.old + 2 }
{
    let answer = looseness(heap, word, steps);
    heap.set_slot(base, s, word, steps);
    answer
}

/// Writes a slot. A counted one takes only what is tight, and the counts follow.
fn write_slot<L: Ledger>(
    heap: &mut Heap,
    count: &mut ZeroTable,
    base: u32,
    s: u32,
    word: u32,
    steps: &mut Steps<L>,
) -> Result<Put, Refusal>
    requires slot { HasSlot heap.old base s }
    requires counting { IsCounting count.old heap.old }
    ensures answer { (view : View) (object : ObjectView) → view.objects ≡ views_of heap.old.objects
        → Begins view.objects base object → IsCountedBy heap.old.objects (outside_references view)
        → StoreAnswer view (record { holder = record { base = base; value = object }; slot = s; word = word })
        (views_of heap.new.objects) result }
    ensures counts { (outside : ℕ → ℕ) → HasCounts count.old heap.old outside
        → HasCounts count.new heap.new outside }
    ensures table { IsSameTable count.old count.new }
    ensures rest { heap.new ≡ record heap.old { objects = heap.new.objects } }
    ensures same_table { OnErr result (count.new ≡ count.old) }
    ensures same_heap { OnErr result (heap.new ≡ heap.old) }
    ensures sound { IsSound heap.new }
    ensures cost { steps.new ≤ steps.old + 26 }
{
    match heap.slot(base, s, steps) {
        Slot::Count(_) => write_counted(heap, count, base, s, word, steps),
        Slot::Word(_) | Slot::Raw(_) => Ok(write_uncounted(heap, base, s, word, steps)),
    }
}

/// Tells marking, where a cycle runs, that a word went into a slot.
fn tell_marking<L: Ledger>(
    marker: &mut Marker,
    heap: &mut Heap,
    base: u32,
    s: u32,
    word: u32,
    steps: &mut Steps<L>,
)
    requires slot { HasSlot heap.old base s }
    requires keeps { marker.old.running ≡ true → KeepsGray marker.old (views_of heap.old.objects) }
    ensures barred { (view : View) (gone : ℕ) (object : ObjectView) → view.objects ≡ views_of heap.old.objects
        → view.cycle ≡ cycle_with gone marker.old → Begins view.objects base object
        → views_of heap.new.objects ≡ (view_barrier (record { base = base; value = object }) s word view).objects }
    ensures counts { (table : Table) (outside : ℕ → ℕ) → HasCounts table heap.old outside
        → HasCounts table heap.new outside }
    ensures known { AreKnown marker.old (views_of heap.old.objects)
        → AreKnown marker.new (views_of heap.new.objects) }
    ensures few { KeepsFewStale (marking marker.old heap.old) (marking marker.new heap.new) }
    ensures rest { heap.new ≡ record heap.old { objects = heap.new.objects } }
    ensures cycle { IsSameButQueue marker.old marker.new }
    ensures sound { IsSound heap.old → IsSound heap.new }
    ensures cost { steps.new ≤ steps.old + 8 }
{
    if marker.running() {
        marker.barrier(heap, base, s, word, steps);
    }
}

impl Gc {
    /// Writes the word of cell `j` into a slot of the object that cell `i` means.
    pub fn put<L: Ledger>(
        &mut self,
        i: u32,
        s: u32,
        j: u32,
        steps: &mut Steps<L>,
    ) -> Result<Put, Refusal>
        ensures row { Answers self.old self.new (commands.Put i s j) (put_reply result) }
        ensures cost { steps.new ≤ steps.old + 37 }
    {
        let word = self.cell(j, steps)?;
        let meant = self.meant(i, steps)?;
        if meant.found.shape.slots <= s {
            return Err(Refusal::NoSlot);
        }
        let base = meant.found.base;
        let answer = write_slot(&mut self.region.heap, &mut self.count, base, s, word, steps)?;
        tell_marking(
            &mut self.marker,
            &mut self.region.heap,
            base,
            s,
            word,
            steps,
        );
        Ok(answer)
    }
}
