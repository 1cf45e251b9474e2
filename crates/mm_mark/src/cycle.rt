// The beginning and the end of a cycle.
ghost use Rattle.std.specs.Prelude.{◌≡◌, ◌+◌, ◌*◌, ◌≤◌, ◌++◌, length, true, false, IfSome, MatchBool, None};
ghost use Rattle.mm_model.specs.Views.GoodView.{AreWhite};
ghost use Rattle.mm_object.specs.Object.{views_of};
ghost use Rattle.mm_object.specs.Heap.{IsSound};
ghost use Rattle.mm_object.specs.Colours.{all_whitened};
ghost use Rattle.mm_roots.specs.Areas.{IsBeside};
ghost use Rattle.mm_mark.specs.Marker.{IsSameButQueue, HasBegun, IsIdle, AreKnown, KeepsGray, HasStarted};
ghost use Rattle.mm_mark.specs.Marker.{IsUnderScan, marking};
ghost use Rattle.mm_mark.specs.Stale.{HasFewStale, KeepsFewStale};
ghost use Rattle.mm_mark.specs.Parts.{IsUnderScanOrGone, IsFreed, HasForgotten};
ghost use Rattle.mm_mark.specs.Colours.{IsGrayed, root_words};

use crate::colours::is_free_at;
use crate::marker::Marker;
use mm_object::Heap;
use mm_roots::{Areas, Stack};
use mm_steps::Steps;
use std::sync::ledger::Ledger;

impl Marker {
    /// Begins a cycle: what a word of the stack or of a scanned area falls in becomes gray.
    pub fn begin<L: Ledger>(
        &mut self,
        heap: &mut Heap,
        stack: &Stack,
        areas: &Areas,
        steps: &mut Steps<L>,
    )
        requires idle { self.old.running ≡ false }
        requires beside { IsBeside areas.now heap.old }
        requires white { AreWhite (views_of heap.old.objects) }
        ensures grayed { IsGrayed heap.old heap.new (root_words stack.now areas.now heap.old) }
        ensures runs { HasBegun self.old self.new }
        ensures keeps { KeepsGray self.new (views_of heap.new.objects) }
        ensures sound { IsSound heap.old → IsSound heap.new }
        ensures few { length heap.old.objects ≤ self.old.room + 256 → HasFewStale (marking self.new heap.new) 0 }
        ensures cost { steps.new ≡ steps.old + 2 * length (root_words stack.now areas.now heap.old) }
    {
        self.start();
        self.shade_roots(heap, stack, areas, steps);
    }

    /// Looks at the stack and the scanned areas again, before a cycle ends.
    pub fn rescan<L: Ledger>(
        &mut self,
        heap: &mut Heap,
        stack: &Stack,
        areas: &Areas,
        steps: &mut Steps<L>,
    )
        requires runs { self.old.running ≡ true }
        requires beside { IsBeside areas.now heap.old }
        requires keeps { KeepsGray self.old (views_of heap.old.objects) }
        ensures grayed { IsGrayed heap.old heap.new (root_words stack.now areas.now heap.old) }
        ensures cycle { IsSameButQueue self.old self.new }
        ensures keeps { KeepsGray self.new (views_of heap.new.objects) }
        ensures sound { IsSound heap.old → IsSound heap.new }
        ensures few { KeepsFewStale (marking self.old heap.old) (marking self.new heap.new) }
        ensures cost { steps.new ≡ steps.old + 2 * length (root_words stack.now areas.now heap.old) }
    {
        self.shade_roots(heap, stack, areas, steps);
    }

    /// Makes every object white and ends the cycle, as if it had never begun.
    pub fn abandon<L: Ledger>(&mut self, heap: &mut Heap, steps: &mut Steps<L>)
        requires runs { self.old.running ≡ true }
        ensures white { heap.new ≡ all_whitened heap.old }
        ensures idle { IsIdle self.old self.new }
        ensures sound { IsSound heap.new }
        ensures cost { steps.new ≡ steps.old + heap.old.pages }
    {
        heap.whiten(steps);
        self.end();
    }

    /// Ends the cycle, once what it left white is freed and what it kept is white.
    pub fn end(&mut self)
        requires runs { self.old.running ≡ true }
        ensures idle { IsIdle self.old self.new }
    {
        self.running = false;
        self.partly = None;
    }

    /// With an empty queue, and nothing scanned in part.
    fn start(&mut self)
        ensures { HasStarted self.old self.new }
    {
        self.queue.pop(self.queue.depth());
        self.left_out = None;
        self.running = true;
        self.partly = None;
    }

    /// Forgets the object that is scanned in part if it isn't there any more, after a phase freed objects.
    pub fn forget_freed<L: Ledger>(&mut self, heap: &Heap, steps: &mut Steps<L>)
        requires runs { self.old.running ≡ true }
        requires known { AreKnown self.old (views_of heap.now.objects) }
        requires partly { IfSome self.old.partly (IsUnderScanOrGone (views_of heap.now.objects)) }
        ensures forgotten { HasForgotten self.old self.new (views_of heap.now.objects) }
        ensures keeps { KeepsGray self.new (views_of heap.now.objects) }
        ensures few { KeepsFewStale (marking self.old heap.now) (marking self.new heap.now) }
        ensures cost { steps.new ≤ steps.old + 1 }
    {
        if self.is_freed(heap, steps) {
            self.partly = None;
        }
    }

    /// Whether the object that was scanned in part is gone.
    fn is_freed<L: Ledger>(&self, heap: &Heap, steps: &mut Steps<L>) -> bool
        requires { IfSome self.now.partly (IsUnderScanOrGone (views_of heap.now.objects)) }
        ensures freed { MatchBool result (IsFreed self.now (views_of heap.now.objects))
            (IfSome self.now.partly (IsUnderScan (views_of heap.now.objects))) }
        ensures cost { steps.new ≤ steps.old + 1 }
    {
        match self.partly {
            Some(partly) => is_free_at(heap, partly.base, steps),
            None => false,
        }
    }
}
