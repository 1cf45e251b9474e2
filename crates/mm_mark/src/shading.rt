// Graying what words fall in, and the write barrier.
ghost use Rattle.std.specs.Prelude.{◌≡◌, ◌+◌, ◌≤◌, ◌∷◌, length, true, [], IsTrue};
ghost use Rattle.std.specs.List.{list_any};
ghost use Rattle.mm_model.specs.Views.ByBase.{Begins, Based};
ghost use Rattle.mm_model.specs.Views.ObjectView.{ObjectView};
ghost use Rattle.mm_model.specs.Views.View.{View};
ghost use Rattle.mm_model.specs.Views.ViewStore.{is_slot_done, view_barrier};
ghost use Rattle.mm_object.specs.Object.{StoredObject, view_of_stored, views_of};
ghost use Rattle.mm_object.specs.Heap.{HasSlot, IsSound};
ghost use Rattle.mm_mark.specs.Marker.{IsSameButQueue, AreKnown, KeepsGray, marking, IsNoted, ShowsMarking, is_passed};
ghost use Rattle.mm_mark.specs.Marker.{with_left_out};
ghost use Rattle.mm_mark.specs.Stale.{KeepsFewStale};
ghost use Rattle.mm_mark.specs.Colours.{IsGrayed, IsSameButColours};

use crate::colours::is_black_at;
use crate::marker::Marker;
use mm_object::{Heap, Slot};
use mm_steps::Steps;
use std::sync::ledger::Ledger;

/// From where on objects are left out, once the one at `base` is.
fn earliest(left_out: Option<u32>, base: u32) -> u32
    ensures { result ≡ with_left_out left_out base }
{
    match left_out {
        Some(next) => if next < base { next } else { base },
        None => base,
    }
}

impl Marker {
    /// Makes the white object gray in which a word falls, and notes it.
    #[inline(always)]
    pub(crate) fn shade<L: Ledger>(&mut self, heap: &mut Heap, word: u32, steps: &mut Steps<L>)
        requires { AreKnown self.old (views_of heap.old.objects) }
        ensures grayed { IsGrayed heap.old heap.new (word ∷ []) }
        ensures cycle { IsSameButQueue self.old self.new }
        ensures known { AreKnown self.new (views_of heap.new.objects) }
        ensures sound { IsSound heap.new }
        ensures few { KeepsFewStale (marking self.old heap.old) (marking self.new heap.new) }
        ensures cost { steps.new ≡ steps.old + 1 }
    {
        if let Some(base) = heap.shade(word, steps) {
            self.note(base);
        }
    }

    /// The same for each of some words.
    pub(crate) fn shade_words<L: Ledger>(
        &mut self,
        heap: &mut Heap,
        words: &[u32],
        steps: &mut Steps<L>,
    )
        requires { AreKnown self.old (views_of heap.old.objects) }
        ensures grayed { IsGrayed heap.old heap.new words.now }
        ensures cycle { IsSameButQueue self.old self.new }
        ensures known { AreKnown self.new (views_of heap.new.objects) }
        ensures sound { IsSound heap.old → IsSound heap.new }
        ensures few { KeepsFewStale (marking self.old heap.old) (marking self.new heap.new) }
        ensures cost { steps.new ≡ steps.old + length words.now }
    {
        for i in 0..words.len() {
            self.shade(heap, words[i], steps);
        }
    }

    /// Puts an object in the queue, or notes that it had no room for it.
    fn note(&mut self, base: u32)
        ensures { IsNoted self.old self.new base }
    {
        match self.queue.push(base) {
            Ok(()) => {}
            Err(_) => self.left_out = Some(earliest(self.left_out, base)),
        }
    }

    /// The write barrier: `word` goes into slot `s` of the object that begins at `holder`. It may be told before the
    /// word is written, or after.
    pub fn barrier<L: Ledger>(
        &mut self,
        heap: &mut Heap,
        holder: u32,
        s: u32,
        word: u32,
        steps: &mut Steps<L>,
    )
        requires runs { self.old.running ≡ true }
        requires keeps { KeepsGray self.old (views_of heap.old.objects) }
        requires slot { HasSlot heap.old holder s }
        ensures barred { (view : View) → ShowsMarking (marking self.old heap.old) view
            → (object : ObjectView) → Begins view.objects holder object
            → ShowsMarking (marking self.new heap.new)
            (view_barrier (record { base = holder; value = object }) s word view) }
        ensures rest { IsSameButColours heap.old heap.new }
        ensures cycle { IsSameButQueue self.old self.new }
        ensures keeps { KeepsGray self.new (views_of heap.new.objects) }
        ensures sound { IsSound heap.old → IsSound heap.new }
        ensures few { KeepsFewStale (marking self.old heap.old) (marking self.new heap.new) }
        ensures cost { steps.new ≤ steps.old + 8 }
    {
        if self.has_passed(heap, holder, s, steps) {
            self.shade(heap, word, steps);
        }
    }

    /// Whether slot `s` of an object is scanned, and marking has passed it.
    fn has_passed<L: Ledger>(&self, heap: &Heap, holder: u32, s: u32, steps: &mut Steps<L>) -> bool
        requires { HasSlot heap.now holder s }
        ensures passed { (object : StoredObject) → Begins heap.now.objects holder object
            → result ≡ is_passed self.now holder s (view_of_stored object) }
        ensures cost { steps.new ≤ steps.old + 2 }
    {
        match heap.slot(holder, s, steps) {
            Slot::Raw(_) => false,
            Slot::Count(_) | Slot::Word(_) => {
                self.has_done(holder, s) || is_black_at(heap, holder, steps)
            }
        }
    }

    /// Whether the slot is among those that are done of the object that is scanned in part.
    fn has_done(&self, holder: u32, s: u32) -> bool
        ensures { result ≡ is_slot_done self.now.partly holder s }
    {
        match self.partly {
            Some(partly) => partly.base == holder && s < partly.slots_done,
            None => false,
        }
    }
}
