// Writes into counted slots.
ghost use Rattle.std.specs.Prelude.{◌≡◌, ◌≢◌, ◌≤◌, ◌+◌, ◌∷◌, [], ℕ, slice_index};
ghost use Rattle.mm_model.specs.Words.{CountedSlot};
ghost use Rattle.mm_model.specs.Views.ByBase.{Begins};
ghost use Rattle.mm_model.specs.Views.ObjectView.{ObjectView};
ghost use Rattle.mm_model.specs.Views.View.{View};
ghost use Rattle.mm_model.specs.Views.ViewWords.{outside_references};
ghost use Rattle.mm_model.specs.Views.ViewStore.{view_recounted, view_with_word};
ghost use Rattle.mm_object.specs.Object.{StoredObject, views_of};
ghost use Rattle.mm_object.specs.Heap.{IsSound};
ghost use Rattle.mm_count.specs.Table.{IsRight};
ghost use Rattle.mm_count.specs.Counts.{composite_at, IsCountedBy, one_more, raised, lowered, changed_at, written_at};
ghost use Rattle.mm_count.specs.Counts.{without_places, table_raised, table_lowered, KeepsObjects, NamesCounted};
ghost use Rattle.mm_count.specs.Counts.{HasCountedSlot, HasReference};
ghost use Rattle.mm_count.specs.Sticky.{with_sticky};
ghost use Rattle.mm_count.specs.Listed.{AllListed, NonePinned, KeepsPins, ListsNamed};

use crate::table::ZeroTable;
use mm_object::{Heap, Slot};
use mm_steps::Steps;
use std::sync::ledger::Ledger;

/// The word of a counted slot.
pub(crate) fn counted_word<L: Ledger>(heap: &Heap, base: u32, s: u32, steps: &mut Steps<L>) -> u32
    requires { HasCountedSlot heap.now.objects base s }
    ensures word { (object : StoredObject) → Begins heap.now.objects base object → result ≡ slice_index object.words s }
    ensures sound { IsSound heap.now }
    ensures cost { steps.new ≡ steps.old + 1 }
{
    match heap.slot(base, s, steps) {
        Slot::Count(word) => word,
        _ => unreachable!(),
    }
}

impl ZeroTable {
    /// One more place holds the word, which counts where it names an object.
    fn raise_named<L: Ledger>(&mut self, heap: &mut Heap, word: u32, steps: &mut Steps<L>)
        requires named { NamesCounted heap.old.objects word }
        requires right { IsRight self.old heap.old }
        requires sound { IsSound heap.old }
        ensures heap { without_places heap.new ≡ changed_at raised word (without_places heap.old) }
        ensures table { self.new ≡ table_raised self.old (composite_at heap.old.objects word) }
        ensures counts { (outside : ℕ → ℕ) → IsCountedBy heap.old.objects outside
            → IsCountedBy heap.new.objects (one_more outside word) }
        ensures objects { KeepsObjects heap.old.objects heap.new.objects }
        ensures rest { heap.new ≡ record heap.old { objects = heap.new.objects } }
        ensures views { (outside : ℕ → ℕ) → IsCountedBy heap.old.objects outside
            → views_of heap.new.objects ≡ with_sticky (one_more outside word) word (views_of heap.old.objects) }
        ensures unpinned { NonePinned heap.old.objects → NonePinned heap.new.objects }
        ensures listed { AllListed heap.old.objects → AllListed heap.new.objects }
        ensures right { IsRight self.new heap.new }
        ensures sound { IsSound heap.new }
        ensures cost { steps.new ≤ steps.old + 8 }
    {
        if word == 0 {
            return;
        }
        self.raise(heap, word, steps);
    }

    /// One place fewer holds the word.
    fn lower_named<L: Ledger>(&mut self, heap: &mut Heap, word: u32, steps: &mut Steps<L>)
        requires named { NamesCounted heap.old.objects word }
        requires some { word ≢ 0 → HasReference heap.old.objects word }
        requires right { IsRight self.old heap.old }
        requires sound { IsSound heap.old }
        ensures heap { without_places heap.new ≡ changed_at lowered word (without_places heap.old) }
        ensures table { self.new ≡ table_lowered self.old (composite_at heap.old.objects word) word }
        ensures counts { (outside : ℕ → ℕ) → IsCountedBy heap.old.objects (one_more outside word)
            → IsCountedBy heap.new.objects outside }
        ensures objects { KeepsObjects heap.old.objects heap.new.objects }
        ensures rest { heap.new ≡ record heap.old { objects = heap.new.objects } }
        ensures views { views_of heap.new.objects ≡ views_of heap.old.objects }
        ensures pins { KeepsPins heap.old.objects heap.new.objects }
        ensures unpinned { NonePinned heap.old.objects → NonePinned heap.new.objects }
        ensures listed { AllListed heap.old.objects → AllListed heap.new.objects }
        ensures entered { ListsNamed (word ∷ []) heap.old.objects heap.new.objects }
        ensures right { IsRight self.new heap.new }
        ensures sound { IsSound heap.new }
        ensures cost { steps.new ≤ steps.old + 8 }
    {
        if word == 0 {
            return;
        }
        self.lower(heap, word, steps);
    }

    /// Writes counted slot `s`, and answers the word that was there. Where it was another one, the object that the new
    /// word names is raised before that of the old one is lowered.
    pub fn store<L: Ledger>(
        &mut self,
        heap: &mut Heap,
        base: u32,
        s: u32,
        w: u32,
        steps: &mut Steps<L>,
    ) -> u32
        requires slot { HasCountedSlot heap.old.objects base s }
        requires new { NamesCounted heap.old.objects w }
        requires old { (object : StoredObject) → Begins heap.old.objects base object
            → NamesCounted heap.old.objects (slice_index object.words s) }
        requires some { (object : StoredObject) → Begins heap.old.objects base object → slice_index object.words s ≢ w
            → slice_index object.words s ≢ 0 → HasReference heap.old.objects (slice_index object.words s) }
        requires right { IsRight self.old heap.old }
        ensures old { (object : StoredObject) → Begins heap.old.objects base object
            → result ≡ slice_index object.words s }
        ensures same_table { result ≡ w → self.new ≡ self.old }
        ensures same_heap { result ≡ w → heap.new ≡ heap.old }
        ensures table { result ≢ w → self.new ≡ table_lowered
            (table_raised self.old (composite_at heap.old.objects w)) (composite_at heap.old.objects result) result }
        ensures heap { result ≢ w → without_places heap.new
            ≡ changed_at lowered result (written_at base s w (changed_at raised w (without_places heap.old))) }
        ensures counts { (outside : ℕ → ℕ) → IsCountedBy heap.old.objects outside
            → IsCountedBy heap.new.objects outside }
        ensures objects { KeepsObjects (written_at base s w heap.old).objects heap.new.objects }
        ensures rest { heap.new ≡ record heap.old { objects = heap.new.objects } }
        ensures views { (view : View) (object : ObjectView) → view.objects ≡ views_of heap.old.objects
            → Begins view.objects base object → IsCountedBy heap.old.objects (outside_references view)
            → views_of heap.new.objects ≡ (view_recounted CountedSlot (slice_index object.words s) w
            (view_with_word (record { base = base; value = object }) s w view)).objects }
        ensures unpinned { NonePinned heap.old.objects → NonePinned heap.new.objects }
        ensures listed { AllListed heap.old.objects → AllListed heap.new.objects }
        ensures right { IsRight self.new heap.new }
        ensures sound { IsSound heap.new }
        ensures cost { steps.new ≤ steps.old + 24 }
    {
        let old = counted_word(heap, base, s, steps);
        if old == w {
            return old;
        }
        self.raise_named(heap, w, steps);
        heap.set_slot(base, s, w, steps);
        self.lower_named(heap, old, steps);
        old
    }
}
