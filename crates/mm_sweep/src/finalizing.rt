// The finalizers of the objects that a phase frees.
ghost use Rattle.std.specs.Prelude.{◌≡◌, ◌+◌, ◌≤◌, length, take};
ghost use Rattle.mm_model.specs.Views.ByBase.{Begins};
ghost use Rattle.mm_model.specs.Views.ViewWords.{object_at};
ghost use Rattle.mm_object.specs.Object.{StoredObject, views_of};
ghost use Rattle.mm_object.specs.Heap.{cells_in, IsObject, IsSound};
ghost use Rattle.mm_sweep.specs.Release.{AreObjects, final_slots, final_told, finalized_slots, finals_told};

use crate::journal::Journal;
use bitflags::Flags;
use mm_cells::{CellBits, Cells};
use mm_object::Heap;
use mm_steps::Steps;
use mm_words::Words;
use std::sync::ledger::Ledger;

/// Whether the object at `base` has a finalizer, by the flags of its cell.
fn has_finalizer<L: Ledger>(heap: &Heap, cells: &Cells, base: u32, steps: &mut Steps<L>) -> bool
    requires object { IsObject heap.now base }
    requires cells { cells.now ≡ cells_in heap.now }
    ensures flag { (object : StoredObject) → Begins heap.now.objects base object → result ≡ object.finalize }
    ensures cost { steps.new ≡ steps.old + 1 }
{
    cells.flags(base, steps).contains(CellBits::FINALIZE)
}

/// Runs the finalizer of the object at `base`, if it has one.
fn run_finalizer<J: Journal, L: Ledger>(
    heap: &Heap,
    cells: &Cells,
    base: u32,
    journal: &mut J,
    steps: &mut Steps<L>,
)
    requires object { IsObject heap.now base }
    requires cells { cells.now ≡ cells_in heap.now }
    ensures told { J.tells journal.old journal.new (final_told (object_at (views_of heap.now.objects) base)) }
    ensures cost { steps.new ≡ steps.old + 1 + final_slots (object_at (views_of heap.now.objects) base) }
{
    if has_finalizer(heap, cells, base, steps) {
        journal.finalize(base, heap.slots(base, steps));
    }
}

/// Runs the finalizers of the objects whose bases are the first `k` of `dead`, in their order.
pub(crate) fn run_finalizers<J: Journal, L: Ledger>(
    heap: &Heap,
    dead: &Words,
    k: u32,
    journal: &mut J,
    steps: &mut Steps<L>,
)
    requires within { k ≤ length dead.now.words }
    requires objects { AreObjects heap.now (take k dead.now.words) }
    ensures told { J.tells journal.old journal.new
        (finals_told (views_of heap.now.objects) (take k dead.now.words)) }
    ensures sound { IsSound heap.now }
    ensures cost { steps.new ≡ steps.old + k + finalized_slots (views_of heap.now.objects) (take k dead.now.words) }
{
    let cells = heap.cells();
    for i in 0..k {
        run_finalizer(heap, cells, dead.get(i), journal, steps);
    }
}
