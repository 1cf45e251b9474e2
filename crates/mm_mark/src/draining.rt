// Scanning to the end.
ghost use Rattle.std.specs.Prelude.{◌≡◌, ℕ, ◌+◌, ◌*◌, ◌≤◌, length, true, IfSome, None};
ghost use Rattle.mm_object.specs.Object.{views_of};
ghost use Rattle.mm_object.specs.Heap.{IsSound};
ghost use Rattle.mm_mark.specs.Marker.{KeepsGray, marking};
ghost use Rattle.mm_mark.specs.Stale.{HasFewStale};
ghost use Rattle.mm_mark.specs.Colours.{IsSameButColours};
ghost use Rattle.mm_mark.specs.Parts.{IsSameCycle, NoneIsGray};
ghost use Rattle.mm_mark.specs.Draining.{IsDrained, NamesNoWhiteDone, unscanned};

use crate::marker::Marker;
use mm_object::Heap;
use mm_steps::Steps;
use std::sync::ledger::Ledger;

impl Marker {
    /// Scans until no object is gray.
    pub fn drain<L: Ledger>(&mut self, heap: &mut Heap, steps: &mut Steps<L>)
        requires runs { self.old.running ≡ true }
        requires keeps { KeepsGray self.old (views_of heap.old.objects) }
        requires done { IfSome self.old.partly (NamesNoWhiteDone (views_of heap.old.objects)) }
        ensures drained { IsDrained (views_of heap.old.objects) (views_of heap.new.objects) }
        ensures none { NoneIsGray (views_of heap.new.objects) }
        ensures rest { IsSameButColours heap.old heap.new }
        ensures cycle { IsSameCycle self.old self.new }
        ensures partly { self.new.partly ≡ None }
        ensures keeps { KeepsGray self.new (views_of heap.new.objects) }
        ensures sound { IsSound heap.old → IsSound heap.new }
        ensures cost { (stale : ℕ) → HasFewStale (marking self.old heap.old) stale
            → steps.new + 16 * unscanned (views_of heap.new.objects)
            ≤ steps.old + 16 * (1 + unscanned (views_of heap.old.objects) + stale) }
    {
        'parts: while self.scan_next(heap, steps).is_some() {}
    }
}
