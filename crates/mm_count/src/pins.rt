// Pins, which mark within a reap what the stack names.
ghost use Rattle.std.specs.Prelude.{◌≡◌, ◌+◌, ◌≤◌, ℕ, List, true, false};
ghost use Rattle.mm_object.specs.Object.{views_of};
ghost use Rattle.mm_object.specs.Heap.{IsSound};
ghost use Rattle.mm_count.specs.Table.{IsCountedAt, IsRight};
ghost use Rattle.mm_count.specs.Counts.{composite_at, IsCountedBy, with_pin, changed_at, without_places, KeepsObjects};
ghost use Rattle.mm_count.specs.Listed.{AllListed, PinsOne};
ghost use Rattle.mm_count.specs.Apart.{AreCountsApart};

use crate::counts::{composite_of, set_composite};
use crate::table::ZeroTable;
use mm_object::Heap;
use mm_steps::Steps;
use std::sync::ledger::Ledger;

impl ZeroTable {
    /// Pins an object, or takes the pin off.
    pub fn set_pin<L: Ledger>(&self, heap: &mut Heap, base: u32, pinned: bool, steps: &mut Steps<L>)
        requires counted { IsCountedAt heap.old.objects base }
        requires right { IsRight self.now heap.old }
        ensures heap { without_places heap.new ≡ changed_at (with_pin pinned) base (without_places heap.old) }
        ensures counts { (outside : ℕ → ℕ) → IsCountedBy heap.old.objects outside
            → IsCountedBy heap.new.objects outside }
        ensures objects { KeepsObjects heap.old.objects heap.new.objects }
        ensures rest { heap.new ≡ record heap.old { objects = heap.new.objects } }
        ensures views { views_of heap.new.objects ≡ views_of heap.old.objects }
        ensures pinned { PinsOne base pinned heap.old.objects heap.new.objects }
        ensures listed { AllListed heap.old.objects → AllListed heap.new.objects }
        ensures apart { (dropped : List ℕ) (outside : ℕ → ℕ) → AreCountsApart dropped heap.old.objects outside
            → AreCountsApart dropped heap.new.objects outside }
        ensures right { IsRight self.now heap.new }
        ensures sound { IsSound heap.new }
        ensures cost { steps.new ≡ steps.old + 2 }
    {
        let composite = composite_of(heap, base, steps);
        set_composite(heap, base, composite.with_pin(pinned), steps);
    }

    /// Whether an object is pinned.
    pub fn is_pinned<L: Ledger>(&self, heap: &Heap, base: u32, steps: &mut Steps<L>) -> bool
        requires { IsCountedAt heap.now.objects base }
        ensures pinned { result ≡ (composite_at heap.now.objects base).pinned }
        ensures sound { IsSound heap.now }
        ensures cost { steps.new ≡ steps.old + 1 }
    {
        composite_of(heap, base, steps).pinned
    }
}
