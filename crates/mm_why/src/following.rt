// Following objects: finding those in which the words of their scanned slots fall.
ghost use Rattle.std.specs.Prelude.{◌≡◌, ℕ, ◌+◌, ◌*◌, ◌<◌, ◌≤◌, ◌⊎◌, List, Some, slice_get, length, MatchBool};
ghost use Rattle.mm_model.specs.Views.ByBase.{Begins};
ghost use Rattle.mm_model.specs.Views.ObjectView.{ObjectView, scanned_words_of};
ghost use Rattle.mm_model.specs.Views.View.{AreaView};
ghost use Rattle.mm_object.specs.Object.{views_of};
ghost use Rattle.mm_why.specs.declared.found.Found.{Found as Entry};
ghost use Rattle.mm_why.specs.Queue.{AreShort, IsGrown, IsPlace, IsFound, IsSoundQueue};
ghost use Rattle.mm_why.specs.Search.{shown_with, HaveReasons, AreWordsFound, AreLive, IsSearched, cost_of, slots_at};

use crate::found::{Found, Lead};
use crate::hop::Via;
use crate::queue::Queue;
use mm_object::Heap;
use mm_steps::Steps;
use std::sync::ledger::Ledger;

impl Queue {
    /// Follows the objects of the queue from the first one on, until the target is found or none is left.
    pub(crate) fn follow<L: Ledger>(&mut self, heap: &Heap, target: u32, steps: &mut Steps<L>)
        requires target { IsPlace self.old.places target }
        requires short { AreShort self.old.found 1 }
        requires live { AreLive (views_of heap.now.objects) self.old.found }
        requires room { 256 * heap.now.size ≤ self.old.places }
        ensures reasons { (stack : List ℕ) (areas : List AreaView) →
            let shown = shown_with (views_of heap.now.objects) stack areas in
            HaveReasons shown self.old.found → HaveReasons shown self.new.found }
        ensures searched { IsSearched (views_of heap.now.objects) self.new.found target }
        ensures live { AreLive (views_of heap.now.objects) self.new.found }
        ensures grown { IsGrown self.old.found self.new.found }
        ensures places { self.new.places ≡ self.old.places }
        ensures sound { IsSoundQueue self.new }
        ensures cost { steps.new ≤ steps.old + cost_of (views_of heap.now.objects) self.new.found }
    {
        let mut next = 0;
        'objects: while self.goes_on(next, target) {
            let by = self.at(next);
            self.note_slots(heap, next, by, steps);
            next += 1;
        }
    }

    /// Whether an object is left to follow, and the target isn't found.
    fn goes_on(&self, next: u32, target: u32) -> bool
        requires { IsPlace self.now.places target }
        ensures left { MatchBool result (next < length self.now.found)
            (IsFound self.now.found target ⊎ (length self.now.found ≤ next)) }
        ensures sound { IsSoundQueue self.now }
    {
        next < self.len() && !self.contains(target)
    }

    /// Notes the words of the scanned slots of an object that stands at a place in the queue.
    fn note_slots<L: Ledger>(&mut self, heap: &Heap, from: u32, by: Found, steps: &mut Steps<L>)
        requires sound { IsSoundQueue self.old }
        requires there { slice_get self.old.found from ≡ Some by }
        requires short { AreShort self.old.found (by.lead.length + 1) }
        requires live { AreLive (views_of heap.now.objects) self.old.found }
        requires room { 256 * heap.now.size ≤ self.old.places }
        ensures reasons { (stack : List ℕ) (areas : List AreaView) →
            let shown = shown_with (views_of heap.now.objects) stack areas in
            HaveReasons shown self.old.found → HaveReasons shown self.new.found }
        ensures found { (holder : ObjectView) → Begins (views_of heap.now.objects) by.base holder
            → AreWordsFound (views_of heap.now.objects) self.new.found (scanned_words_of holder) (by.lead.length + 1) }
        ensures short { AreShort self.new.found (by.lead.length + 1) }
        ensures live { AreLive (views_of heap.now.objects) self.new.found }
        ensures grown { IsGrown self.old.found self.new.found }
        ensures places { self.new.places ≡ self.old.places }
        ensures cost { steps.new ≡ steps.old + 1 + 2 * slots_at (views_of heap.now.objects) by.base }
    {
        steps.tick();
        let words = heap.scanned(by.base, steps);
        let length = by.lead.length + 1;
        for slot in 0..words.len() {
            let lead = Lead {
                via: Via::Slot { slot: slot as u32 },
                from,
                length,
            };
            self.note(heap, words[slot], lead, steps);
        }
    }
}
