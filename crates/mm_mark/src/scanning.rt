// Scanning a part of one object. It is inlined into the loop over parts: its results would go through memory else.
ghost use Rattle.std.specs.Prelude.{◌≡◌, ℕ, ◌+◌, ◌-◌, ◌*◌, ◌≤◌, length, true, Some, None, MatchOption, min, take, drop};
ghost use Rattle.mm_model.specs.Views.ByBase.{Begins};
ghost use Rattle.mm_model.specs.declared.object.Colour.TheVariants.{Gray};
ghost use Rattle.mm_model.specs.Views.ObjectView.{ObjectView, scanned_words_of};
ghost use Rattle.mm_object.specs.Object.{StoredObject, view_of_stored, views_of};
ghost use Rattle.mm_object.specs.Heap.{IsObject, IsSound};
ghost use Rattle.mm_mark.specs.Marker.{view_of_partly, IsSameButQueue, AreKnown, KeepsGray, marking};
ghost use Rattle.mm_mark.specs.Marker.{IsPartDone, HasNoGray};
ghost use Rattle.mm_mark.specs.Colours.{IsGrayed, IsSameButColours, HasColour};
ghost use Rattle.mm_mark.specs.Parts.{NoneIsGray, IsScanned, IsAdvanced, part_words, IsSameCycle, IsEnded, IsOfPartly};
ghost use Rattle.mm_mark.specs.Refill.{IsScanCost};
ghost use Rattle.mm_mark.specs.Stale.{IsTidy, HasFewStale, KeepsFewStale, IsPaid, stale_of, slots_of};

use crate::marker::{Marker, PartlyScanned};
use mm_model::{Colour, Part};
use mm_object::Heap;
use mm_steps::Steps;
use std::sync::ledger::Ledger;

/// How many slots a part has at most.
const PART_SLOTS: u32 = 64;

/// How many slots the next part has where so many are left.
fn part_slots(left: u32) -> u32
    ensures { result ≡ min 64 left }
{
    if left < PART_SLOTS { left } else { PART_SLOTS }
}

impl Marker {
    /// Scans a part of one gray object: at most 64 of its slots, from the first that isn't done on.
    pub fn scan_part<L: Ledger>(&mut self, heap: &mut Heap, steps: &mut Steps<L>) -> Option<Part>
        requires runs { self.old.running ≡ true }
        requires keeps { KeepsGray self.old (views_of heap.old.objects) }
        ensures part { MatchOption result (HasNoGray (marking self.old heap.old))
            (λ part. IsPartDone (marking self.old heap.old) (marking self.new heap.new) part) }
        // Where there is nothing to scan, nothing changes.
        ensures stays { result ≡ None → heap.new ≡ heap.old }
        ensures partly { result ≡ None → self.new.partly ≡ self.old.partly }
        ensures rest { IsSameButColours heap.old heap.new }
        ensures cycle { IsSameCycle self.old self.new }
        ensures keeps { KeepsGray self.new (views_of heap.new.objects) }
        ensures sound { IsSound heap.old → IsSound heap.new }
        ensures few { (stale : ℕ) → HasFewStale (marking self.old heap.old) stale
            → IsPaid (marking self.new heap.new) steps.new (steps.old + 16 * (1 + slots_of result) + 8 * stale) }
        ensures fewer { KeepsFewStale (marking self.old heap.old) (marking self.new heap.new) }
        ensures cost { IsScanCost self.old heap.old.pages (slots_of result) steps.old steps.new }
    {
        self.scan_next(heap, steps)
    }

    /// The same, where no view tells what is scanned in part.
    #[inline(always)]
    pub(crate) fn scan_next<L: Ledger>(
        &mut self,
        heap: &mut Heap,
        steps: &mut Steps<L>,
    ) -> Option<Part>
        requires { KeepsGray self.old (views_of heap.old.objects) }
        ensures part { MatchOption result
            (NoneIsGray (views_of heap.old.objects) × (heap.new ≡ heap.old) × (self.new.partly ≡ None))
            (λ part. IsScanned (marking self.old heap.old) (marking self.new heap.new) part) }
        ensures rest { IsSameButColours heap.old heap.new }
        ensures cycle { IsSameCycle self.old self.new }
        ensures keeps { KeepsGray self.new (views_of heap.new.objects) }
        ensures sound { IsSound heap.old → IsSound heap.new }
        ensures tidy { IsTidy (marking self.old heap.old) → IsTidy (marking self.new heap.new) }
        ensures paid { IsTidy (marking self.old heap.old)
            → steps.new + 8 * stale_of (marking self.new heap.new)
            ≤ steps.old + 4 + 2 * slots_of result + 8 * stale_of (marking self.old heap.old) }
        ensures fewer { IsTidy (marking self.old heap.old)
            → stale_of (marking self.new heap.new) ≤ stale_of (marking self.old heap.old) }
        ensures cost { IsScanCost self.old heap.old.pages (slots_of result) steps.old steps.new }
    {
        match self.choose(heap, steps) {
            Some(next) => Some(self.scan_from(heap, next, steps)),
            None => None,
        }
    }

    /// Scans the next part of a gray object of which some slots may be done.
    #[inline(always)]
    fn scan_from<L: Ledger>(
        &mut self,
        heap: &mut Heap,
        from: PartlyScanned,
        steps: &mut Steps<L>,
    ) -> Part
        requires gray { HasColour heap.old from.base Gray }
        requires fits { (object : ObjectView) → Begins (views_of heap.old.objects) from.base object
            → from.slots_done ≤ length (scanned_words_of object) }
        requires partly { self.old.partly ≡ Some (view_of_partly from) }
        requires known { AreKnown self.old (views_of heap.old.objects) }
        ensures base { result.base ≡ from.base }
        ensures slots { (object : ObjectView) → Begins (views_of heap.old.objects) from.base object
            → result.slots ≡ length (part_words (view_of_partly from) object) }
        ensures advanced { (object : ObjectView) → Begins (views_of heap.old.objects) from.base object
            → IsAdvanced (views_of heap.old.objects) (view_of_partly from) object (marking self.new heap.new) }
        ensures rest { IsSameButColours heap.old heap.new }
        ensures cycle { IsSameCycle self.old self.new }
        ensures known { AreKnown self.new (views_of heap.new.objects) }
        ensures sound { IsSound heap.old → IsSound heap.new }
        ensures few { KeepsFewStale (marking self.old heap.old) (marking self.new heap.new) }
        ensures cost { steps.new ≤ steps.old + 2 + 2 * result.slots }
    {
        let count = heap.scanned_count(from.base, steps);
        let slots = part_slots(count - from.slots_done);
        let end = from.slots_done + slots;
        self.shade_slots(heap, from, end, steps);
        self.advance(
            heap,
            PartlyScanned {
                base: from.base,
                slots_done: end,
            },
            count,
            steps,
        );
        Part {
            base: from.base,
            slots,
        }
    }

    /// Shades the words of the slots of a gray object up to one.
    fn shade_slots<L: Ledger>(
        &mut self,
        heap: &mut Heap,
        from: PartlyScanned,
        end: u32,
        steps: &mut Steps<L>,
    )
        requires gray { HasColour heap.old from.base Gray }
        requires some { from.slots_done ≤ end }
        requires within { (object : ObjectView) → Begins (views_of heap.old.objects) from.base object
            → end ≤ length (scanned_words_of object) }
        requires known { AreKnown self.old (views_of heap.old.objects) }
        ensures grayed { (object : ObjectView) → Begins (views_of heap.old.objects) from.base object
            → IsGrayed heap.old heap.new
            (take (end - from.slots_done) (drop from.slots_done (scanned_words_of object))) }
        ensures cycle { IsSameButQueue self.old self.new }
        ensures known { AreKnown self.new (views_of heap.new.objects) }
        ensures sound { IsSound heap.old → IsSound heap.new }
        ensures few { KeepsFewStale (marking self.old heap.old) (marking self.new heap.new) }
        ensures cost { steps.new ≡ steps.old + 2 * (end - from.slots_done) }
    {
        for s in from.slots_done..end {
            let word = heap.slot_word(from.base, s, steps);
            self.shade(heap, word, steps);
        }
    }

    /// Notes how far the scan of an object is: at its end the object becomes black.
    fn advance<L: Ledger>(
        &mut self,
        heap: &mut Heap,
        to: PartlyScanned,
        count: u32,
        steps: &mut Steps<L>,
    )
        requires object { IsObject heap.old to.base }
        requires known { AreKnown self.old (views_of heap.old.objects) }
        requires own { IsOfPartly self.old.partly to.base }
        ensures ended { IsEnded (marking self.old heap.old) (view_of_partly to) count (marking self.new heap.new) }
        ensures rest { IsSameButColours heap.old heap.new }
        ensures cycle { IsSameCycle self.old self.new }
        ensures known { AreKnown self.new (views_of heap.new.objects) }
        ensures sound { IsSound heap.old → IsSound heap.new }
        ensures few { KeepsFewStale (marking self.old heap.old) (marking self.new heap.new) }
        ensures cost { steps.new ≤ steps.old + 1 }
    {
        if to.slots_done == count {
            heap.set_colour(to.base, Colour::Black, steps);
            self.partly = None;
        } else {
            self.partly = Some(to);
        }
    }
}
