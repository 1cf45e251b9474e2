// What no marking has reached is found, and its counts are dropped.
ghost use Rattle.std.specs.Prelude.{◌≡◌, ◌≤◌, ◌+◌, ◌*◌, ◌-◌, ◌++◌, ◌∷◌, [], ℕ, List, length, drop, take};
ghost use Rattle.mm_model.specs.declared.object.Colour.TheVariants.{White};
ghost use Rattle.mm_model.specs.Views.ByBase.{based, changed};
ghost use Rattle.mm_model.specs.Views.GoodView.{HoldTight};
ghost use Rattle.mm_model.specs.Phase.{IsAscending};
ghost use Rattle.mm_model.specs.Views.SetsByBase.{AreBasesAt};
ghost use Rattle.mm_model.specs.Views.ViewEffect.{with_colour};
ghost use Rattle.mm_words.specs.Location.{location_of};
ghost use Rattle.mm_object.specs.Object.{views_of};
ghost use Rattle.mm_object.specs.Heap.{IsObject, IsSound};
ghost use Rattle.mm_count.specs.Table.{IsRight, IsSameTable};
ghost use Rattle.mm_count.specs.Counts.{IsCountedBy};
ghost use Rattle.mm_count.specs.Listed.{AllListed, NonePinned};
ghost use Rattle.mm_count.specs.Apart.{AreCountsApart};
ghost use Rattle.mm_count.specs.DeadApart.{AreDeadApart, IsRecounted};
ghost use Rattle.mm_sweep.specs.Release.{AreObjects};
ghost use Rattle.mm_sweep.specs.Sweep.{IsWhiteAt, KeepsWhitened, counted_slots_of, IsSweepCost};

use mm_count::ZeroTable;
use mm_model::{Colour, Kind};
use mm_object::Heap;
use mm_steps::Steps;
use mm_words::Words;
use std::sync::ledger::Ledger;

/// Writes the bases of the white objects to the front of `dead`, and answers how many there are.
fn find_white<L: Ledger>(heap: &Heap, dead: &mut Words, steps: &mut Steps<L>) -> u32
    requires room { 256 * (heap.now.pages - 1) ≤ length dead.old.words }
    ensures bases { AreBasesAt (views_of heap.now.objects) (IsWhiteAt (views_of heap.now.objects))
        (take result dead.new.words) }
    ensures within { result ≤ length dead.new.words }
    ensures dead { location_of dead.new ≡ location_of dead.old }
    ensures behind { drop result dead.new.words ≡ drop result dead.old.words }
    ensures sound { IsSound heap.now }
    ensures cost { steps.new ≤ steps.old + 1 + 2 * result + heap.now.pages }
{
    let mut from = 0;
    let mut k = 0;
    while let Some(base) = heap.next_of(from, Colour::White, steps) {
        dead.set(k, base);
        k += 1;
        from = base + 1;
    }
    k
}

/// Drops the counts of what the first `k` of `dead` name.
fn drop_counts<L: Ledger>(
    heap: &mut Heap,
    count: &mut ZeroTable,
    dead: &Words,
    k: u32,
    steps: &mut Steps<L>,
)
    requires within { k ≤ length dead.now.words }
    requires ascending { IsAscending (take k dead.now.words) }
    requires objects { AreObjects heap.old (take k dead.now.words) }
    requires right { IsRight count.old heap.old }
    requires tight { HoldTight (views_of heap.old.objects) }
    requires counted { (outside : ℕ → ℕ) × IsCountedBy heap.old.objects outside }
    requires sound { IsSound heap.old }
    ensures counts { (outside : ℕ → ℕ) → IsCountedBy heap.old.objects outside
        → AreCountsApart (take k dead.now.words) heap.new.objects outside }
    ensures heap { IsRecounted heap.old heap.new }
    ensures listed { AllListed heap.old.objects → AllListed heap.new.objects }
    ensures unpinned { NonePinned heap.old.objects → NonePinned heap.new.objects }
    ensures table { IsSameTable count.old count.new }
    ensures right { IsRight count.new heap.new }
    ensures sound { IsSound heap.new }
    ensures cost { steps.new ≤ steps.old + 2 * k
        + 10 * counted_slots_of (views_of heap.old.objects) (take k dead.now.words) }
{
    for i in 0..k {
        let base = dead.get(i);
        count.lower_slots(heap, base, steps);
    }
}

/// Takes an object out of the zero-count table, if it's there.
fn leave_table<L: Ledger>(heap: &mut Heap, count: &mut ZeroTable, base: u32, steps: &mut Steps<L>)
    requires object { IsObject heap.old base }
    requires right { IsRight count.old heap.old }
    ensures left { (bases : List ℕ) → AreDeadApart bases heap.old.objects
        → AreDeadApart (bases ++ base ∷ []) heap.new.objects }
    ensures counts { (dropped : List ℕ) (outside : ℕ → ℕ) → AreCountsApart dropped heap.old.objects outside
        → AreCountsApart dropped heap.new.objects outside }
    ensures heap { IsRecounted heap.old heap.new }
    ensures unpinned { NonePinned heap.old.objects → NonePinned heap.new.objects }
    ensures table { IsSameTable count.old count.new }
    ensures right { IsRight count.new heap.new }
    ensures sound { IsSound heap.new }
    ensures cost { steps.new ≤ steps.old + 9 }
{
    match heap.shape(base, steps).kind {
        Kind::Counted => count.leave(heap, base, steps),
        _ => (),
    }
}

/// Takes the first `k` of `dead` out of the zero-count table, those that are there.
fn leave_all<L: Ledger>(
    heap: &mut Heap,
    count: &mut ZeroTable,
    dead: &Words,
    k: u32,
    steps: &mut Steps<L>,
)
    requires within { k ≤ length dead.now.words }
    requires objects { AreObjects heap.old (take k dead.now.words) }
    requires right { IsRight count.old heap.old }
    requires sound { IsSound heap.old }
    ensures left { AreDeadApart [] heap.old.objects → AreDeadApart (take k dead.now.words) heap.new.objects }
    ensures counts { (dropped : List ℕ) (outside : ℕ → ℕ) → AreCountsApart dropped heap.old.objects outside
        → AreCountsApart dropped heap.new.objects outside }
    ensures heap { IsRecounted heap.old heap.new }
    ensures unpinned { NonePinned heap.old.objects → NonePinned heap.new.objects }
    ensures table { IsSameTable count.old count.new }
    ensures right { IsRight count.new heap.new }
    ensures sound { IsSound heap.new }
    ensures cost { steps.new ≤ steps.old + 9 * k }
{
    for i in 0..k {
        leave_table(heap, count, dead.get(i), steps);
    }
}

/// Finds the white objects as a reap finds the reapable ones, and makes the black ones white: it answers how many it
/// found, whose bases are as many first words of `dead`, drops the counts of what they name, and takes them out of the
/// zero-count table.
pub fn sweep<L: Ledger>(
    heap: &mut Heap,
    count: &mut ZeroTable,
    dead: &mut Words,
    steps: &mut Steps<L>,
) -> u32
    requires right { IsRight count.old heap.old }
    requires tight { HoldTight (views_of heap.old.objects) }
    requires counted { (outside : ℕ → ℕ) × IsCountedBy heap.old.objects outside }
    requires listed { AllListed heap.old.objects }
    requires unpinned { NonePinned heap.old.objects }
    requires room { 256 * (heap.old.pages - 1) ≤ length dead.old.words }
    ensures bases { AreBasesAt (views_of heap.old.objects) (IsWhiteAt (views_of heap.old.objects))
        (take result dead.new.words) }
    ensures within { result ≤ length dead.new.words }
    ensures counts { (outside : ℕ → ℕ) → IsCountedBy heap.old.objects outside
        → AreCountsApart (take result dead.new.words) heap.new.objects outside }
    ensures apart { AreDeadApart (take result dead.new.words) heap.new.objects }
    ensures unpinned { NonePinned heap.new.objects }
    ensures table { IsSameTable count.old count.new }
    ensures right { IsRight count.new heap.new }
    ensures views { views_of heap.new.objects ≡ changed (with_colour White) (views_of heap.old.objects) }
    ensures objects { KeepsWhitened heap.old.objects heap.new.objects }
    ensures rest { heap.new ≡ record heap.old { objects = heap.new.objects } }
    ensures dead { location_of dead.new ≡ location_of dead.old }
    ensures behind { drop result dead.new.words ≡ drop result dead.old.words }
    ensures sound { IsSound heap.new }
    ensures cost { IsSweepCost heap.old.pages (length (based (views_of heap.old.objects)))
        (counted_slots_of (views_of heap.old.objects) (take result dead.new.words)) steps.old steps.new }
{
    let k = find_white(heap, dead, steps);
    drop_counts(heap, count, dead, k, steps);
    leave_all(heap, count, dead, k, steps);
    heap.whiten(steps);
    k
}
