// The slots of objects.
ghost use Rattle.std.specs.Prelude.{◌≡◌, ◌+◌, if◌then◌else◌, length, slice_index, slice_set, Some};
ghost use Rattle.mm_model.specs.Views.ByBase.{Begins};
ghost use Rattle.mm_model.specs.Object.{is_scanned};
ghost use Rattle.mm_model.specs.Views.ObjectView.{scanned_words_of};
ghost use Rattle.mm_object.specs.Object.{StoredObject, view_of_stored, slot_of};
ghost use Rattle.mm_object.specs.Heap.{with_object, IsObject, HasSlot, IsSound};

use crate::heap::{HEADER_WORDS, Heap, WORD_BYTES, shape_at};
use crate::slot::Slot;
use mm_model::Shape;
use mm_steps::Steps;
use std::sync::ledger::Ledger;

/// How many slots marking looks at.
fn scanned_slots(shape: Shape) -> u32
    ensures { result ≡ (if is_scanned shape.kind then shape.slots else 0) }
{
    if shape.kind.is_scanned() {
        shape.slots
    } else {
        0
    }
}

impl Heap {
    /// The word of slot `s`, told apart by the kind of the slot.
    pub fn slot<L: Ledger>(&self, base: u32, s: u32, steps: &mut Steps<L>) -> Slot
        requires { HasSlot self.now base s }
        ensures slot { (object : StoredObject) → Begins self.now.objects base object → result ≡ slot_of object s }
        ensures sound { IsSound self.now }
        ensures cost { steps.new ≡ steps.old + 1 }
    {
        steps.tick();
        let shape = shape_at(&self.memory, base);
        let scanned = shape.kind.is_scanned();
        let word = self.memory.get(base / WORD_BYTES + HEADER_WORDS + s);
        Slot::of(scanned, shape.counted, s, word)
    }

    /// The word of a slot whatever its kind, without a look at the header.
    pub fn slot_word<L: Ledger>(&self, base: u32, s: u32, steps: &mut Steps<L>) -> u32
        requires { HasSlot self.now base s }
        ensures word { (object : StoredObject) → Begins self.now.objects base object
            → result ≡ slice_index object.words s }
        ensures sound { IsSound self.now }
        ensures cost { steps.new ≡ steps.old + 1 }
    {
        steps.tick();
        self.memory.get(HEADER_WORDS + s + base / WORD_BYTES)
    }

    pub fn set_slot<L: Ledger>(&mut self, base: u32, s: u32, w: u32, steps: &mut Steps<L>)
        requires { HasSlot self.old base s }
        ensures slot { (object : StoredObject) → Begins self.old.objects base object
            → self.new ≡ with_object self.old base (Some (record object { words = slice_set object.words s w })) }
        ensures sound { IsSound self.new }
        ensures cost { steps.new ≡ steps.old + 1 }
    {
        steps.tick();
        self.memory.set(base / WORD_BYTES + HEADER_WORDS + s, w);
    }

    /// Lends the words of all slots, where they lie. Each slot is a step.
    pub fn slots<L: Ledger>(&self, base: u32, steps: &mut Steps<L>) -> &[u32]
        requires { IsObject self.now base }
        ensures words { (object : StoredObject) → Begins self.now.objects base object → result.now ≡ object.words }
        ensures sound { IsSound self.now }
        ensures cost { steps.new ≡ steps.old + length result.now }
    {
        let shape = shape_at(&self.memory, base);
        steps.add(shape.slots);
        self.memory
            .part(base / WORD_BYTES + HEADER_WORDS, shape.slots)
    }

    /// How many slots marking looks at: all, or none of a leaf.
    pub fn scanned_count<L: Ledger>(&self, base: u32, steps: &mut Steps<L>) -> u32
        requires { IsObject self.now base }
        ensures count { (object : StoredObject) → Begins self.now.objects base object
            → result ≡ length (scanned_words_of (view_of_stored object)) }
        ensures sound { IsSound self.now }
        ensures cost { steps.new ≡ steps.old + 1 }
    {
        steps.tick();
        scanned_slots(shape_at(&self.memory, base))
    }

    /// Lends the words of the slots that marking looks at: all, or none of a leaf. Each of them is a step.
    pub fn scanned<L: Ledger>(&self, base: u32, steps: &mut Steps<L>) -> &[u32]
        requires { IsObject self.now base }
        ensures words { (object : StoredObject) → Begins self.now.objects base object
            → result.now ≡ scanned_words_of (view_of_stored object) }
        ensures sound { IsSound self.now }
        ensures cost { steps.new ≡ steps.old + length result.now }
    {
        let shape = shape_at(&self.memory, base);
        let count = scanned_slots(shape);
        steps.add(count);
        self.memory.part(base / WORD_BYTES + HEADER_WORDS, count)
    }
}
