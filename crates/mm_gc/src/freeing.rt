// What phases do to the parts of a heap: marking to the end, and freeing what was found.
ghost use Rattle.std.specs.Prelude.{◌≡◌, ◌≤◌, ◌<◌, ◌^◌, ◌+◌, ◌*◌, ◌-◌, ℕ, false, true, None, IfSome, List, length};
ghost use Rattle.std.specs.Prelude.{take};
ghost use Rattle.mm_model.specs.declared.line.Phase.TheVariants as phases;
ghost use Rattle.mm_model.specs.declared.object.Colour.TheVariants.{White};
ghost use Rattle.mm_model.specs.Views.ByBase.{changed};
ghost use Rattle.mm_model.specs.Views.GoodView.{AreWhite, HoldTight};
ghost use Rattle.mm_model.specs.Views.SetsByBase.{AreBasesAt, IsReapableAt, IsUnreachedAt, IsFreedAtFinishAt};
ghost use Rattle.mm_model.specs.Views.View.{View};
ghost use Rattle.mm_model.specs.Views.ViewEffect.{with_colour};
ghost use Rattle.mm_model.specs.Views.ViewPhase.{view_phase_lines, view_after_release};
ghost use Rattle.mm_words.specs.Location.{location_of};
ghost use Rattle.mm_object.specs.Object.{views_of};
ghost use Rattle.mm_object.specs.Heap.{IsSound};
ghost use Rattle.mm_roots.specs.Areas.{IsBeside};
ghost use Rattle.mm_count.specs.Table.{IsSameTable};
ghost use Rattle.mm_mark.specs.Colours.{IsSameButColours, root_words};
ghost use Rattle.mm_mark.specs.Draining.{NamesNoWhiteDone};
ghost use Rattle.mm_mark.specs.Marker.{IsIdle, AreKnown, KeepsGray, HasBegun, marking};
ghost use Rattle.mm_mark.specs.Parts.{IsUnderScanOrGone, HasForgotten};
ghost use Rattle.mm_mark.specs.Stale.{HasFewStale, KeepsFewStale};
ghost use Rattle.mm_sweep.specs.Sweep.{IsWhiteAt};
ghost use Rattle.mm_gc.specs.Gc.{objects_in, areas_in};
ghost use Rattle.mm_gc.specs.Kept.{IsSettled};
ghost use Rattle.mm_gc.specs.Counts.{HasCounts};
ghost use Rattle.mm_gc.specs.Regions.{IsSameRegion};
ghost use Rattle.mm_sweep.specs.Told.{IsToldOf};
ghost use Rattle.mm_gc.specs.Steps.{reap_bound, mark_bound, free_bound};

use crate::region::Region;
use mm_count::ZeroTable;
use mm_mark::Marker;
use mm_model::Phase;
use mm_object::Heap;
use mm_roots::{Areas, Stack};
use mm_steps::Steps;
use mm_sweep::{Journal, sweep};
use mm_words::Words;
use std::sync::ledger::Ledger;

/// Ends a cycle that runs, without a result. All objects are white then.
fn abandon_cycle<L: Ledger>(marker: &mut Marker, heap: &mut Heap, steps: &mut Steps<L>)
    requires white { marker.old.running ≡ false → AreWhite (views_of heap.old.objects) }
    requires partly { marker.old.running ≡ false → marker.old.partly ≡ None }
    ensures colours { IsSameButColours heap.old heap.new }
    ensures white { AreWhite (views_of heap.new.objects) }
    ensures idle { IsIdle marker.old marker.new }
    ensures sound { IsSound heap.old → IsSound heap.new }
{
    if marker.running() {
        marker.abandon(heap, steps);
    }
}

/// Marks in a new cycle what the stack and the scanned areas reach. A cycle that runs ends without a result. What is
/// white then isn't reached.
pub(crate) fn mark_all<L: Ledger>(
    marker: &mut Marker,
    heap: &mut Heap,
    stack: &Stack,
    areas: &Areas,
    steps: &mut Steps<L>,
)
    requires white { marker.old.running ≡ false → AreWhite (views_of heap.old.objects) }
    requires partly { marker.old.running ≡ false → marker.old.partly ≡ None }
    requires beside { IsBeside areas.now heap.old }
    ensures unreached { (dead : List ℕ)
        → AreBasesAt (views_of heap.new.objects) (IsWhiteAt (views_of heap.new.objects)) dead
        → AreBasesAt (views_of heap.old.objects)
        (IsUnreachedAt (views_of heap.old.objects) (root_words stack.now areas.now heap.old)) dead }
    ensures colours { IsSameButColours heap.old heap.new }
    ensures runs { HasBegun marker.old marker.new }
    ensures sound { IsSound heap.old → IsSound heap.new }
{
    abandon_cycle(marker, heap, steps);
    marker.begin(heap, stack, areas, steps);
    marker.drain(heap, steps);
}

/// Marks the rest in a cycle that runs, also what the stack and the scanned areas came to hold since. What is white
/// then is freed when the cycle ends.
pub(crate) fn mark_rest<L: Ledger>(
    marker: &mut Marker,
    heap: &mut Heap,
    stack: &Stack,
    areas: &Areas,
    steps: &mut Steps<L>,
)
    requires runs { marker.old.running ≡ true }
    requires keeps { KeepsGray marker.old (views_of heap.old.objects) }
    requires done { IfSome marker.old.partly (NamesNoWhiteDone (views_of heap.old.objects)) }
    requires beside { IsBeside areas.now heap.old }
    ensures unmarked { (dead : List ℕ)
        → AreBasesAt (views_of heap.new.objects) (IsWhiteAt (views_of heap.new.objects)) dead
        → AreBasesAt (views_of heap.old.objects)
        (IsFreedAtFinishAt (views_of heap.old.objects) (root_words stack.now areas.now heap.old)) dead }
    ensures colours { IsSameButColours heap.old heap.new }
    ensures runs { HasBegun marker.old marker.new }
    ensures sound { IsSound heap.old → IsSound heap.new }
    ensures cost { (stale : ℕ) → HasFewStale (marking marker.old heap.old) stale → (dead : List ℕ)
        → AreBasesAt (views_of heap.new.objects) (IsWhiteAt (views_of heap.new.objects)) dead
        → steps.new ≤ steps.old + mark_bound (views_of heap.old.objects) dead
        (length (root_words stack.now areas.now heap.old)) stale }
{
    marker.rescan(heap, stack, areas, steps);
    marker.drain(heap, steps);
}

/// Forgets the object that a cycle has scanned in part, if it was freed.
pub(crate) fn forget_freed<L: Ledger>(marker: &mut Marker, heap: &Heap, steps: &mut Steps<L>)
    requires known { AreKnown marker.old (views_of heap.now.objects) }
    requires partly { IfSome marker.old.partly (IsUnderScanOrGone (views_of heap.now.objects)) }
    requires idle { marker.old.running ≡ false → marker.old.partly ≡ None }
    ensures forgotten { HasForgotten marker.old marker.new (views_of heap.now.objects) }
    ensures known { AreKnown marker.new (views_of heap.now.objects) }
    ensures few { KeepsFewStale (marking marker.old heap.now) (marking marker.new heap.now) }
    ensures cost { steps.new ≤ steps.old + 1 }
{
    if marker.running() {
        marker.forget_freed(heap, steps);
    }
}

/// Frees the reapable objects: counted ones that aren't sticky, that no stack word names, and that only counted slots
/// of reapable objects hold. It answers how many it freed.
pub(crate) fn free_reapable<J: Journal, L: Ledger>(
    region: &mut Region,
    count: &mut ZeroTable,
    stack: &Stack,
    dead: &mut Words,
    journal: &mut J,
    steps: &mut Steps<L>,
) -> u32
    requires settled { IsSettled region.old }
    requires tight { HoldTight (objects_in region.old) }
    requires counted { (outside : ℕ → ℕ) × HasCounts count.old region.old.heap outside }
    requires room { 256 * (region.old.heap.pages - 1) ≤ length dead.old.words }
    ensures bases { (outside : ℕ → ℕ) → HasCounts count.old region.old.heap outside
        → AreBasesAt (objects_in region.old) (IsReapableAt (objects_in region.old) stack.now.words outside)
        (take result dead.new.words) }
    ensures within { result ≤ length dead.new.words }
    ensures told { (view : View) → view.objects ≡ objects_in region.old
        → IsToldOf (J.tells journal.old journal.new) view.objects
        (view_phase_lines phases.Reap view (take result dead.new.words)) }
    ensures objects { objects_in region.new
        ≡ changed (view_after_release (take result dead.new.words)) (objects_in region.old) }
    ensures counted { (outside : ℕ → ℕ) → HasCounts count.old region.old.heap outside
        → HasCounts count.new region.new.heap outside }
    ensures areas { areas_in region.new ≡ areas_in region.old }
    ensures same { IsSameRegion region.old region.new }
    ensures settled { IsSettled region.new }
    ensures table { IsSameTable count.old count.new }
    ensures dead { location_of dead.new ≡ location_of dead.old }
    ensures cost { (digits : ℕ) → region.old.pages.pages < 2 ^ digits → steps.new < steps.old
        + reap_bound (objects_in region.old) (take result dead.new.words) (length stack.now.words)
        (length count.old.entries) digits }
{
    let found = mm_reap::reap(&mut region.heap, count, stack, dead, steps);
    region.release(dead, found, Phase::Reap, journal, steps);
    found
}

/// Frees the white objects, and makes the others white. It answers how many it freed.
pub(crate) fn free_white<J: Journal, L: Ledger>(
    region: &mut Region,
    count: &mut ZeroTable,
    dead: &mut Words,
    journal: &mut J,
    steps: &mut Steps<L>,
) -> u32
    requires settled { IsSettled region.old }
    requires tight { HoldTight (objects_in region.old) }
    requires counted { (outside : ℕ → ℕ) × HasCounts count.old region.old.heap outside }
    requires room { 256 * (region.old.heap.pages - 1) ≤ length dead.old.words }
    ensures bases { AreBasesAt (objects_in region.old) (IsWhiteAt (objects_in region.old))
        (take result dead.new.words) }
    ensures within { result ≤ length dead.new.words }
    ensures told { (view : View) → view.objects ≡ objects_in region.old
        → IsToldOf (J.tells journal.old journal.new) view.objects
        (view_phase_lines phases.Collect view (take result dead.new.words)) }
    ensures objects { objects_in region.new ≡ changed (view_after_release (take result dead.new.words))
        (changed (with_colour White) (objects_in region.old)) }
    ensures counted { (outside : ℕ → ℕ) → HasCounts count.old region.old.heap outside
        → HasCounts count.new region.new.heap outside }
    ensures areas { areas_in region.new ≡ areas_in region.old }
    ensures same { IsSameRegion region.old region.new }
    ensures settled { IsSettled region.new }
    ensures table { IsSameTable count.old count.new }
    ensures dead { location_of dead.new ≡ location_of dead.old }
    ensures cost { (digits : ℕ) → region.old.pages.pages < 2 ^ digits → steps.new ≤ steps.old
        + free_bound (objects_in region.old) (take result dead.new.words) region.old.heap.pages digits }
{
    let found = sweep(&mut region.heap, count, dead, steps);
    region.release(dead, found, Phase::Collect, journal, steps);
    found
}
