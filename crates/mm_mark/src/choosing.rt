// Which gray object is scanned next. The choice is inlined into the scan: its results would go through memory else.
ghost use Rattle.std.specs.Prelude.{◌≡◌, ◌+◌, ◌-◌, ◌*◌, ◌/◌, ◌≤◌, length, MatchOption, MatchBool, Some, None, []};
ghost use Rattle.std.specs.Option.{option_map};
ghost use Rattle.mm_model.specs.declared.object.Colour.TheVariants.{Gray};
ghost use Rattle.mm_object.specs.Object.{views_of};
ghost use Rattle.mm_mark.specs.Marker.{view_of_partly, IsSameButQueue, AreKnown, KeepsGray, marking};
ghost use Rattle.mm_mark.specs.Stale.{IsTidy, stale_of, with_partly_at};
ghost use Rattle.mm_mark.specs.Colours.{HasColour};
ghost use Rattle.mm_mark.specs.Refill.{NoneGrayBefore, IsRefilled, IsPut, IsStopped, IsWalked, IsChoiceCost};
ghost use Rattle.mm_mark.specs.Parts.{NoneIsGray, IsTaken, IsChosen, IsSameCycle};

use crate::colours::is_gray_at;
use crate::marker::{Marker, PartlyScanned};
use mm_model::Colour;
use mm_object::Heap;
use mm_steps::Steps;
use std::sync::ledger::Ledger;

impl Marker {
    /// The object that is scanned next, which counts as scanned in part from now on.
    #[inline(always)]
    pub(crate) fn choose<L: Ledger>(
        &mut self,
        heap: &Heap,
        steps: &mut Steps<L>,
    ) -> Option<PartlyScanned>
        requires { KeepsGray self.old (views_of heap.now.objects) }
        ensures next { MatchOption result (NoneIsGray (views_of heap.now.objects))
            (λ next. IsChosen self.old (views_of heap.now.objects) (view_of_partly next)) }
        ensures partly { self.new.partly ≡ option_map view_of_partly result }
        ensures cycle { IsSameCycle self.old self.new }
        ensures known { AreKnown self.new (views_of heap.now.objects) }
        ensures tidy { IsTidy (marking self.old heap.now) → IsTidy (marking self.new heap.now) }
        ensures paid { IsTidy (marking self.old heap.now)
            → steps.new + 8 * stale_of (marking self.new heap.now)
            ≤ steps.old + 2 + 8 * stale_of (marking self.old heap.now) }
        ensures fewer { IsTidy (marking self.old heap.now)
            → stale_of (marking self.new heap.now) ≤ stale_of (marking self.old heap.now) }
        ensures cost { IsChoiceCost self.old self.new heap.now.pages steps.old steps.new }
    {
        match self.partly {
            Some(partly) => Some(partly),
            None => self.choose_another(heap, steps),
        }
    }

    /// The same where none is scanned in part.
    #[inline(always)]
    fn choose_another<L: Ledger>(
        &mut self,
        heap: &Heap,
        steps: &mut Steps<L>,
    ) -> Option<PartlyScanned>
        requires none { self.old.partly ≡ None }
        requires known { AreKnown self.old (views_of heap.now.objects) }
        ensures next { MatchOption result (NoneIsGray (views_of heap.now.objects))
            (λ next. IsChosen self.old (views_of heap.now.objects) (view_of_partly next)) }
        ensures partly { self.new.partly ≡ option_map view_of_partly result }
        ensures cycle { IsSameCycle self.old self.new }
        ensures known { AreKnown self.new (views_of heap.now.objects) }
        ensures tidy { IsTidy (marking self.old heap.now) → IsTidy (marking self.new heap.now) }
        ensures paid { IsTidy (marking self.old heap.now)
            → steps.new + 8 * stale_of (marking self.new heap.now)
            ≤ steps.old + 2 + 8 * stale_of (marking self.old heap.now) }
        ensures fewer { IsTidy (marking self.old heap.now)
            → stale_of (marking self.new heap.now) ≤ stale_of (marking self.old heap.now) }
        ensures cost { IsChoiceCost self.old self.new heap.now.pages steps.old steps.new }
    {
        match self.next_base(heap, steps) {
            Some(base) => {
                let next = PartlyScanned {
                    base,
                    slots_done: 0,
                };
                self.partly = Some(next);
                Some(next)
            }
            None => None,
        }
    }

    /// The base of a gray object that isn't scanned in part.
    #[inline(always)]
    fn next_base<L: Ledger>(&mut self, heap: &Heap, steps: &mut Steps<L>) -> Option<u32>
        requires none { self.old.partly ≡ None }
        requires known { AreKnown self.old (views_of heap.now.objects) }
        ensures base { MatchOption result (NoneIsGray (views_of heap.now.objects))
            (λ base. IsTaken heap.now self.new base) }
        ensures cycle { IsSameButQueue self.old self.new }
        ensures tidy { IsTidy (marking self.old heap.now) → MatchOption result (IsTidy (marking self.new heap.now))
            (λ base. IsTidy (marking (with_partly_at self.new base) heap.now)) }
        ensures paid { IsTidy (marking self.old heap.now)
            → steps.new + 8 * stale_of (marking self.new heap.now)
            ≤ steps.old + 2 + 8 * stale_of (marking self.old heap.now) }
        ensures fewer { IsTidy (marking self.old heap.now)
            → stale_of (marking self.new heap.now) ≤ stale_of (marking self.old heap.now) }
        ensures cost { IsChoiceCost self.old self.new heap.now.pages steps.old steps.new }
    {
        match self.next_queued(heap, steps) {
            Some(base) => Some(base),
            None => self.next_left_out(heap, steps),
        }
    }

    /// Takes entries until a gray object begins at one.
    #[inline(always)]
    fn next_queued<L: Ledger>(&mut self, heap: &Heap, steps: &mut Steps<L>) -> Option<u32>
        requires none { self.old.partly ≡ None }
        requires known { AreKnown self.old (views_of heap.now.objects) }
        ensures base { MatchOption result (AreKnown self.new (views_of heap.now.objects) × (self.new.queue ≡ []))
            (λ base. IsTaken heap.now self.new base) }
        ensures cycle { IsSameButQueue self.old self.new }
        ensures tidy { IsTidy (marking self.old heap.now) → MatchOption result (IsTidy (marking self.new heap.now))
            (λ base. IsTidy (marking (with_partly_at self.new base) heap.now)) }
        ensures paid { IsTidy (marking self.old heap.now)
            → steps.new + 8 * stale_of (marking self.new heap.now)
            ≤ steps.old + 2 + 8 * stale_of (marking self.old heap.now) }
        ensures fewer { IsTidy (marking self.old heap.now)
            → stale_of (marking self.new heap.now) ≤ stale_of (marking self.old heap.now) }
        ensures left { self.new.left_out ≡ self.old.left_out }
        ensures cost { steps.new + 2 * length self.new.queue ≡ steps.old + 2 * length self.old.queue }
    {
        'entries: while self.queue.depth() > 0 {
            let base = self.take(steps);
            if is_gray_at(heap, base, steps) {
                return Some(base);
            }
        }
        None
    }

    /// The first gray object that was left out, where some were: those behind it fill the queue again.
    #[cold]
    fn next_left_out<L: Ledger>(&mut self, heap: &Heap, steps: &mut Steps<L>) -> Option<u32>
        requires none { self.old.partly ≡ None }
        requires empty { self.old.queue ≡ [] }
        requires known { AreKnown self.old (views_of heap.now.objects) }
        ensures base { MatchOption result (NoneIsGray (views_of heap.now.objects))
            (λ base. IsTaken heap.now self.new base) }
        ensures cycle { IsSameButQueue self.old self.new }
        ensures tidy { IsTidy (marking self.old heap.now)
            → (result ≡ None) × (self.new ≡ self.old) × (steps.new ≡ steps.old) }
        ensures cost { IsChoiceCost self.old self.new heap.now.pages steps.old steps.new }
    {
        match self.left_out {
            Some(next) => self.walk(heap, next, steps),
            None => None,
        }
    }

    /// Walks the heap from where on objects are left out.
    fn walk<L: Ledger>(&mut self, heap: &Heap, next: u32, steps: &mut Steps<L>) -> Option<u32>
        requires none { self.old.partly ≡ None }
        requires empty { self.old.queue ≡ [] }
        requires left { self.old.left_out ≡ Some next }
        requires known { AreKnown self.old (views_of heap.now.objects) }
        ensures base { MatchOption result (NoneIsGray (views_of heap.now.objects))
            (λ base. IsTaken heap.now self.new base) }
        ensures cycle { IsSameButQueue self.old self.new }
        ensures walked { IsWalked self.old self.new heap.now.pages steps.old steps.new }
    {
        match heap.next_of(next, Colour::Gray, steps) {
            Some(base) => {
                self.refill(heap, base, steps);
                Some(base)
            }
            None => {
                self.left_out = None;
                None
            }
        }
    }

    /// Fills the queue with the gray objects behind `first`, until it's full or the heap is through.
    fn refill<L: Ledger>(&mut self, heap: &Heap, first: u32, steps: &mut Steps<L>)
        requires none { self.old.partly ≡ None }
        requires empty { self.old.queue ≡ [] }
        requires gray { HasColour heap.now first Gray }
        requires before { NoneGrayBefore (views_of heap.now.objects) first }
        ensures taken { IsTaken heap.now self.new first }
        ensures cycle { IsSameButQueue self.old self.new }
        ensures refilled { IsRefilled self.new }
        ensures cost { steps.new ≤ steps.old + 2 * (1 + length self.new.queue) + (heap.now.pages - first / 4096) }
    {
        let mut from = first + 1;
        while let Some(base) = heap.next_of(from, Colour::Gray, steps) {
            if !self.put(base) {
                return;
            }
            from = base + 1;
        }
        self.left_out = None;
    }

    /// Puts an object in the queue, or leaves it out with all behind it: whether the queue had room.
    fn put(&mut self, base: u32) -> bool
        ensures { MatchBool result (IsPut self.old self.new base) (IsStopped self.old self.new base) }
    {
        match self.queue.push(base) {
            Ok(()) => true,
            Err(_) => {
                self.left_out = Some(base);
                false
            }
        }
    }
}
