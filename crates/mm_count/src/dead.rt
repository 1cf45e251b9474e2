// Counts of what dead objects name.
ghost use Rattle.std.specs.Prelude.{◌≡◌, ◌≢◌, ◌≤◌, ◌+◌, ◌*◌, ◌∷◌, [], ℕ, List, false, length, slice_index, take};
ghost use Rattle.mm_model.specs.Phase.{lists};
ghost use Rattle.mm_model.specs.Views.ByBase.{Begins};
ghost use Rattle.mm_model.specs.Views.ObjectView.{counted_words_of};
ghost use Rattle.mm_model.specs.Views.GoodView.{HoldTight};
ghost use Rattle.mm_object.specs.Object.{StoredObject, view_of_stored, views_of};
ghost use Rattle.mm_object.specs.Heap.{IsObject, IsSound};
ghost use Rattle.mm_count.specs.Table.{IsRight, IsSameTable};
ghost use Rattle.mm_count.specs.Counts.{KeepsObjects, NamesCounted, HasCountedSlot, HasReference};
ghost use Rattle.mm_count.specs.Listed.{KeepsPins, ListsNamed};
ghost use Rattle.mm_count.specs.Apart.{AreCountsApart, CanDrop};
ghost use Rattle.mm_count.specs.Kept.{AreLowered};

use crate::store::counted_word;
use crate::table::ZeroTable;
use mm_object::Heap;
use mm_steps::Steps;
use std::sync::ledger::Ledger;

impl ZeroTable {
    /// One place fewer holds what counted slot `s` names. The slot keeps its word.
    fn lower_slot<L: Ledger>(&mut self, heap: &mut Heap, base: u32, s: u32, steps: &mut Steps<L>)
        requires slot { HasCountedSlot heap.old.objects base s }
        requires named { (object : StoredObject) → Begins heap.old.objects base object
            → NamesCounted heap.old.objects (slice_index object.words s) }
        requires some { (object : StoredObject) → Begins heap.old.objects base object → slice_index object.words s ≢ 0
            → HasReference heap.old.objects (slice_index object.words s) }
        requires right { IsRight self.old heap.old }
        ensures lowered { (object : StoredObject) → Begins heap.old.objects base object
            → AreLowered heap.old heap.new (slice_index object.words s ∷ []) }
        ensures table { IsSameTable self.old self.new }
        ensures front { take (length self.old.entries) self.new.entries ≡ self.old.entries }
        ensures right { IsRight self.new heap.new }
        ensures sound { IsSound heap.new }
        ensures cost { steps.new ≤ steps.old + 9 }
    {
        let word = counted_word(heap, base, s, steps);
        if word == 0 {
            return;
        }
        self.lower(heap, word, steps);
    }

    /// One place fewer holds what each counted slot of an object names, which is about to be freed. The slots keep
    /// their words. What enters the table stands behind the entries that were there.
    pub fn lower_slots<L: Ledger>(&mut self, heap: &mut Heap, base: u32, steps: &mut Steps<L>)
        requires object { IsObject heap.old base }
        requires right { IsRight self.old heap.old }
        requires tight { HoldTight (views_of heap.old.objects) }
        requires counted { CanDrop heap.old.objects base }
        ensures counts { (dropped : List ℕ) (outside : ℕ → ℕ) → lists dropped base ≡ false
            → AreCountsApart dropped heap.old.objects outside
            → AreCountsApart (base ∷ dropped) heap.new.objects outside }
        ensures objects { KeepsObjects heap.old.objects heap.new.objects }
        ensures rest { heap.new ≡ record heap.old { objects = heap.new.objects } }
        ensures views { views_of heap.new.objects ≡ views_of heap.old.objects }
        ensures pins { KeepsPins heap.old.objects heap.new.objects }
        ensures table { IsSameTable self.old self.new }
        ensures front { take (length self.old.entries) self.new.entries ≡ self.old.entries }
        ensures listed { (object : StoredObject) → Begins heap.old.objects base object
            → ListsNamed (counted_words_of (view_of_stored object)) heap.old.objects heap.new.objects }
        ensures right { IsRight self.new heap.new }
        ensures sound { IsSound heap.new }
        ensures cost { (object : StoredObject) → Begins heap.old.objects base object
            → steps.new ≤ steps.old + 2 + 10 * length (counted_words_of (view_of_stored object)) }
    {
        let shape = heap.shape(base, steps);
        for s in 0..shape.counted {
            self.lower_slot(heap, base, s, steps);
        }
    }
}
