// Words that may fall in an object that wasn't found yet.
ghost use Rattle.std.specs.Prelude.{◌≡◌, ◌+◌, ◌*◌, ◌≤◌};
ghost use Rattle.mm_object.specs.Object.{views_of};
ghost use Rattle.mm_why.specs.Queue.{HasLength, AreShort};
ghost use Rattle.mm_why.specs.Search.{IsNoted};

use crate::found::{Found, Lead};
use crate::queue::Queue;
use mm_object::Heap;
use mm_steps::Steps;
use std::sync::ledger::Ledger;

impl Queue {
    /// Puts the object in which a word falls at the end of the queue, if it isn't there.
    #[inline]
    pub(crate) fn note<L: Ledger>(
        &mut self,
        heap: &Heap,
        word: u32,
        lead: Lead,
        steps: &mut Steps<L>,
    )
        requires room { 256 * heap.now.size ≤ self.old.places }
        requires length { HasLength self.old.found lead }
        requires ordered { AreShort self.old.found lead.length }
        ensures noted { IsNoted (views_of heap.now.objects) self.old.found self.new.found word lead }
        ensures places { self.new.places ≡ self.old.places }
        ensures cost { steps.new ≡ steps.old + 1 }
    {
        match heap.find(word, steps) {
            Some(base) => self.add(Found { lead, base }),
            None => {}
        }
    }
}
