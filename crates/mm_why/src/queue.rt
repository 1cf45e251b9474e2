// The objects that a search has found, each of them once.
ghost use Rattle.std.specs.Prelude.{◌≡◌, ◌+◌, ◌/◌, ◌^◌, ◌<◌, ◌≤◌, ◌∷◌, ◌++◌, [], length, slice_get, Some, IfOk};
ghost use Rattle.std.specs.Prelude.{MatchBool};
ghost use Rattle.mm_why.specs.Queue.{empty, IsFound, IsPlace, HasLength, AreShort, IsSoundQueue, IsAdded};

use crate::bits::{clear_bit, set_bit, test_bit};
use crate::found::Found;
use mm_steps::Steps;
use std::alloc::{AllocError, Global};
use std::marker::Model;
use std::sync::ledger::Ledger;

/// The bytes from one place where an object can begin to the next.
const GRANULE: u32 = 16;

const WORD_BITS: u32 = 32;

/// A queue of objects to follow. They stay in it until all of it is emptied.
#[derive(Drop)]
pub(crate) struct Queue {
    entries: Vec<Found>,
    // A bit for each place where an object can begin: whether the object there is in the queue.
    marks: Vec<u32>,
    places: u32,
}

impl Model for Queue {
    ghost use Rattle.std.specs.Prelude.{vec_capacity};
    ghost use Rattle.mm_why.specs.Queue as queues;

    ghost Value = { queues.Queue };

    ghost view = { λ q. queues.queue_of q.places q.entries.items };

    ghost invariant = { λ q.
        queues.KeepsQueue (queues.queue_of q.places q.entries.items) (vec_capacity q.entries) q.marks.items };
}

impl Queue {
    /// An empty queue with room for each place where an object can begin.
    pub(crate) fn make(alloc: Global, places: u32) -> Result<Queue, AllocError>
        requires { places ≤ 2 ^ 20 }
        ensures { IfOk result (λ queue. queue ≡ empty places) }
    {
        let entries = Vec::with_capacity(alloc, places as usize)?;
        let marks = vec![in alloc; 0; (places / WORD_BITS + 1) as usize]?;
        Ok(Queue {
            entries,
            marks,
            places,
        })
    }

    pub(crate) fn len(&self) -> u32
        ensures value { result ≡ length self.now.found }
        ensures sound { IsSoundQueue self.now }
    {
        self.entries.len() as u32
    }

    pub(crate) fn at(&self, i: u32) -> Found
        requires { i < length self.now.found }
        ensures entry { slice_get self.now.found i ≡ Some result }
        ensures sound { IsSoundQueue self.now }
    {
        self.entries[i as usize]
    }

    /// Whether the object that begins at a base is in the queue.
    pub(crate) fn contains(&self, base: u32) -> bool
        requires { IsPlace self.now.places base }
        ensures found { MatchBool result (IsFound self.now.found base) (IsFound self.now.found base → ⊥) }
        ensures sound { IsSoundQueue self.now }
    {
        test_bit(&self.marks, base / GRANULE)
    }

    /// Puts an object at the end that isn't in the queue.
    pub(crate) fn push(&mut self, found: Found)
        requires place { IsPlace self.old.places found.base }
        requires new { IsFound self.old.found found.base → ⊥ }
        requires length { HasLength self.old.found found.lead }
        requires ordered { AreShort self.old.found found.lead.length }
        ensures { self.new ≡ record self.old { found = self.old.found ++ found ∷ [] } }
    {
        set_bit(&mut self.marks, found.base / GRANULE);
        self.entries.push_reserved(found);
    }

    /// Puts an object at the end, if it isn't in the queue.
    pub(crate) fn add(&mut self, found: Found)
        requires place { IsPlace self.old.places found.base }
        requires length { HasLength self.old.found found.lead }
        requires ordered { AreShort self.old.found found.lead.length }
        ensures added { IsAdded self.old.found self.new.found found }
        ensures places { self.new.places ≡ self.old.places }
    {
        if !self.contains(found.base) {
            self.push(found);
        }
    }

    /// Empties the queue, which costs as much as it holds.
    pub(crate) fn clear<L: Ledger>(&mut self, steps: &mut Steps<L>)
        ensures empty { self.new ≡ empty self.old.places }
        ensures cost { steps.new ≡ steps.old + length self.old.found }
    {
        for i in 0..self.entries.len() {
            steps.tick();
            clear_bit(&mut self.marks, self.entries[i].base / GRANULE);
        }
        self.entries.clear();
    }
}
