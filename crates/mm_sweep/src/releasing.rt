// One phase, from its finalizers to the last object that it frees.
ghost use Rattle.std.specs.Prelude.{◌≡◌, ◌≤◌, ℕ, List, length, take, false, IsTrue};
ghost use Rattle.mm_model.specs.Views.ByBase.{Begins, changed};
ghost use Rattle.mm_model.specs.Phase.{IsAscending, lists};
ghost use Rattle.mm_model.specs.Views.View.{View};
ghost use Rattle.mm_model.specs.Views.ViewPhase.{view_phase_lines, view_after_release};
ghost use Rattle.mm_pages.specs.Pages.{IsSoundHeap};
ghost use Rattle.mm_pages.specs.Parked.{AreParked, HaveNoCommonRun, AreAllParked};
ghost use Rattle.mm_object.specs.Object.{StoredObject, views_of};
ghost use Rattle.mm_object.specs.Heap.{IsSound, FitsHeap};
ghost use Rattle.mm_weak.specs.Links.{IsLinked};
ghost use Rattle.mm_count.specs.Table.{Table, IsRight, composite_of};
ghost use Rattle.mm_count.specs.Counts.{IsCountedBy};
ghost use Rattle.mm_count.specs.Listed.{AllListed, NonePinned};
ghost use Rattle.mm_count.specs.Apart.{AreCountsApart};
ghost use Rattle.mm_count.specs.DeadApart.{AreDeadApart};
ghost use Rattle.mm_sweep.specs.Release.{after_release, finalized_slots, AreObjects, KeepsRaw, IsReleaseCost};
ghost use Rattle.mm_sweep.specs.Told.{IsToldOf};

use crate::finalizing::run_finalizers;
use crate::freeing::free_objects;
use crate::journal::Journal;
use mm_model::Phase;
use mm_object::Heap;
use mm_pages::PageHeap;
use mm_steps::Steps;
use mm_words::Words;
use std::sync::ledger::Ledger;

/// Writes one phase and frees the objects whose bases are the first `k` of `dead`: first all finalizers by ascending
/// base, then the phase line, then a free line for each. The weak object of a freed target gives 0 from then on, and
/// the target of a freed weak object has none.
pub fn release<J: Journal, L: Ledger>(
    heap: &mut Heap,
    pages: &mut PageHeap,
    dead: &Words,
    k: u32,
    what: Phase,
    journal: &mut J,
    steps: &mut Steps<L>,
)
    requires within { k ≤ length dead.now.words }
    requires ascending { IsAscending (take k dead.now.words) }
    requires objects { AreObjects heap.old (take k dead.now.words) }
    // None of them is in the zero-count table.
    requires left { (base : ℕ) (object : StoredObject) → Begins heap.old.objects base object
        → IsTrue (lists (take k dead.now.words) base) → (composite_of object).listed ≡ false }
    requires linked { IsLinked heap.old }
    requires fits { FitsHeap heap.old pages.old }
    ensures told { (view : View) → view.objects ≡ views_of heap.old.objects
        → IsToldOf (J.tells journal.old journal.new) view.objects
        (view_phase_lines what view (take k dead.now.words)) }
    ensures views { views_of heap.new.objects
        ≡ changed (view_after_release (take k dead.now.words)) (views_of heap.old.objects) }
    ensures objects { heap.new.objects ≡ changed (after_release (take k dead.now.words)) heap.old.objects }
    ensures right { (table : Table) → IsRight table heap.old → IsRight table heap.new }
    ensures counts { (outside : ℕ → ℕ) → AreCountsApart (take k dead.now.words) heap.old.objects outside
        → IsCountedBy heap.new.objects outside }
    ensures listed { AreDeadApart (take k dead.now.words) heap.old.objects → AllListed heap.new.objects }
    ensures unpinned { NonePinned heap.old.objects → NonePinned heap.new.objects }
    ensures linked { IsLinked heap.new }
    ensures fits { FitsHeap heap.new pages.new }
    ensures apart { (runs : List ℕ) → HaveNoCommonRun heap.old.runs runs → HaveNoCommonRun heap.new.runs runs }
    ensures others { (runs : List ℕ) → HaveNoCommonRun heap.old.runs runs → AreParked runs pages.old
        → AreParked runs pages.new }
    ensures all_parked { (others : List ℕ) → AreAllParked heap.old.runs others pages.old
        → AreAllParked heap.new.runs others pages.new }
    ensures pages_sound { IsSoundHeap pages.old → IsSoundHeap pages.new }
    ensures raw { KeepsRaw heap.old.raw heap.new.raw }
    ensures rest { heap.new ≡ record heap.old {
      objects = heap.new.objects;
      runs = heap.new.runs;
      raw = heap.new.raw;
    } }
    ensures pages_rest { pages.new ≡ record pages.old { parked = pages.new.parked } }
    ensures sound { IsSound heap.new }
    ensures cost { IsReleaseCost pages.old.pages k
        (finalized_slots (views_of heap.old.objects) (take k dead.now.words)) steps.old steps.new }
{
    run_finalizers(heap, dead, k, journal, steps);
    journal.phase(what, k);
    free_objects(heap, pages, dead, k, journal, steps);
}
