// The words of raw slots, read and written in bulk.
ghost use Rattle.std.specs.Prelude.{◌≡◌, ℕ, ◌+◌, ◌^◌, ◌<◌, ◌≤◌, true, length, nat_le, slice_get, Some};
ghost use Rattle.std.specs.Prelude.{IfOk, IfErr, OnErr};
ghost use Rattle.mm_model.specs.Views.ByBase.{Begins};
ghost use Rattle.mm_object.specs.Object.{StoredObject};
ghost use Rattle.mm_object.specs.Heap.{with_object, IsSound};
ghost use Rattle.mm_gc.specs.Gc.{view_of_gc};
ghost use Rattle.mm_gc.specs.BareWords.{AreRead, AreWritten, BareAnswer, HasSlots, IsWordsFault, overwritten};

use crate::gc::Gc;
use mm_model::Refusal;
use mm_object::Heap;
use mm_steps::Steps;
use std::sync::ledger::Ledger;

/// Why words aren't read or written in bulk.
#[derive(Clone, Copy, Debug, PartialEq, Eq)]
pub enum WordsFault {
    /// As `get` and `put` are refused: `NoCell`, `Nothing`, or `NoSlot` where the object hasn't all of the slots.
    Refused(Refusal),
    /// Marking looks at the slots of the object, so each goes by `get` and `put`.
    Scanned,
}

/// Whether an object with so many slots has `count` of them from `s` on.
fn has_slots(slots: u32, s: u32, count: usize) -> bool
    ensures has { result ≡ nat_le (s + count) slots }
    ensures small { result ≡ true → s + count < 2 ^ 32 }
{
    let slots = slots as usize;
    let s = s as usize;
    s <= slots && count <= slots - s
}

/// Reads the words of the slots from `s` on.
fn read_slots<L: Ledger>(heap: &Heap, base: u32, s: u32, into: &mut [u32], steps: &mut Steps<L>)
    requires { HasSlots heap.now base s (length into.old) }
    ensures words { (object : StoredObject) (k : ℕ) → Begins heap.now.objects base object → k < length into.old
        → slice_get into.new k ≡ slice_get object.words (s + k) }
    ensures cost { steps.new ≤ steps.old + length into.old }
{
    for k in 0..into.len() as u32 {
        into[k as usize] = heap.slot_word(base, s + k, steps);
    }
}

/// Writes the words of the slots from `s` on.
fn write_slots<L: Ledger>(heap: &mut Heap, base: u32, s: u32, words: &[u32], steps: &mut Steps<L>)
    requires slots { HasSlots heap.old base s (length words.now) }
    requires sound { IsSound heap.old }
    ensures written { (object : StoredObject) → Begins heap.old.objects base object
        → heap.new ≡ with_object heap.old base
        (Some (record object { words = overwritten object.words s words.now })) }
    ensures sound { IsSound heap.new }
    ensures cost { steps.new ≤ steps.old + length words.now }
{
    for k in 0..words.len() as u32 {
        heap.set_slot(base, s + k, words[k as usize], steps);
    }
}

impl Gc {
    /// The base of the object that a cell means, which has `count` raw slots from `s` on.
    fn bare<L: Ledger>(
        &self,
        i: u32,
        s: u32,
        count: usize,
        steps: &mut Steps<L>,
    ) -> Result<u32, WordsFault>
        ensures answer { BareAnswer self.now i s count result }
        ensures cost { steps.new ≤ steps.old + 2 }
    {
        let found = match self.meant(i, steps) {
            Ok(meant) => meant.found,
            Err(refused) => return Err(WordsFault::Refused(refused)),
        };
        if found.shape.kind.is_scanned() {
            return Err(WordsFault::Scanned);
        }
        if !has_slots(found.shape.slots, s, count) {
            return Err(WordsFault::Refused(Refusal::NoSlot));
        }
        Ok(found.base)
    }

    /// Reads the slots from `s` on of the object that a cell means, as many as there is room for.
    pub fn read_words<L: Ledger>(
        &self,
        i: u32,
        s: u32,
        into: &mut [u32],
        steps: &mut Steps<L>,
    ) -> Result<(), WordsFault>
        ensures read { IfOk result (λ _. AreRead (view_of_gc self.now) i s into.old into.new) }
        ensures cause { IfErr result (IsWordsFault (view_of_gc self.now) i s (length into.old)) }
        ensures unchanged { OnErr result (into.new ≡ into.old) }
        ensures cost { steps.new ≤ steps.old + 2 + length into.old }
    {
        let base = self.bare(i, s, into.len(), steps)?;
        read_slots(&self.region.heap, base, s, into, steps);
        Ok(())
    }

    /// Writes the words into the slots from `s` on of the object that a cell means, as bare words. That one of them
    /// falls in a counted object, where `put` answers `Loose`, isn't told.
    pub fn write_words<L: Ledger>(
        &mut self,
        i: u32,
        s: u32,
        words: &[u32],
        steps: &mut Steps<L>,
    ) -> Result<(), WordsFault>
        ensures written { IfOk result (λ _. AreWritten (view_of_gc self.old) (view_of_gc self.new)
            (record { cell = i; slot = s; words = words.now })) }
        ensures cause { IfErr result (IsWordsFault (view_of_gc self.old) i s (length words.now)) }
        ensures unchanged { OnErr result (self.new ≡ self.old) }
        ensures cost { steps.new ≤ steps.old + 2 + length words.now }
    {
        let base = self.bare(i, s, words.len(), steps)?;
        write_slots(&mut self.region.heap, base, s, words, steps);
        Ok(())
    }
}
