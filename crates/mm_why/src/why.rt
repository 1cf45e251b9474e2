// Searches for what keeps an object.
ghost use Rattle.std.specs.Prelude.{◌≡◌, ◌+◌, ◌*◌, ◌<◌, ◌≤◌, [], length, IfOk, IfSome, MatchOption, None, Some};
ghost use Rattle.std.specs.Prelude.{slice_get};
ghost use Rattle.mm_object.specs.Heap.{IsObject};
ghost use Rattle.mm_roots.specs.Areas.{IsBeside};
ghost use Rattle.mm_why.specs.Path.{shown_by, HasNoPath, IsPathOf, IsLeastLength, extent_of_search};
ghost use Rattle.mm_why.specs.Why.{unasked};

use crate::hop::Hop;
use crate::queue::Queue;
use mm_object::Heap;
use mm_roots::{Areas, Stack};
use mm_steps::Steps;
use std::alloc::{AllocError, Global};
use std::marker::Model;
use std::sync::ledger::Ledger;

/// There was no memory.
pub type NoMemory = AllocError;

/// The most objects that begin in a page.
const PAGE_OBJECTS: u32 = 256;

/// Tells why an object is kept: a shortest path that leads to it from the stack or from a scanned area.
///
/// All its memory is taken when it is made.
#[derive(Drop)]
pub struct Why {
    pages: u32,
    // What a search finds. It is empty between searches.
    queue: Queue,
    // The hops of the path that the last search found, from the last one on.
    path: Vec<Hop>,
}

impl Model for Why {
    ghost use Rattle.std.specs.Prelude.{vec_capacity};
    ghost use Rattle.mm_why.specs.Why as answers;

    ghost Value = { answers.Why };

    ghost view = { λ w. answers.why_of w.pages w.path.items };

    ghost invariant = { λ w. answers.KeepsWhy w.pages w.queue (vec_capacity w.path) };
}

impl Why {
    /// Room to search heaps of at most so many pages. It is refused only where there is no memory.
    pub fn make(alloc: Global, pages: u32) -> Result<Why, NoMemory>
        requires two { 2 ≤ pages }
        requires most { pages ≤ 4096 }
        ensures { IfOk result (λ why. why ≡ unasked pages) }
    {
        let places = PAGE_OBJECTS * pages;
        let queue = Queue::make(alloc, places)?;
        let path = Vec::with_capacity(alloc, places as usize)?;
        Ok(Why { pages, queue, path })
    }

    /// Searches for a shortest path to the object that begins at `target`, and answers its length, if there is a path.
    /// `hop` tells its hops. Which of several shortest paths that is is left open.
    pub fn search<L: Ledger>(
        &mut self,
        heap: &Heap,
        stack: &Stack,
        areas: &Areas,
        target: u32,
        steps: &mut Steps<L>,
    ) -> Option<u32>
        requires object { IsObject heap.now target }
        requires pages { heap.now.size ≤ self.old.pages }
        requires beside { IsBeside areas.now heap.now }
        ensures length { MatchOption result (HasNoPath (shown_by heap.now stack.now areas.now) target)
            (IsLeastLength (shown_by heap.now stack.now areas.now) target) }
        ensures hops { IfSome result (λ count.
            IsPathOf (shown_by heap.now stack.now areas.now) target count self.new.hops) }
        ensures none { result ≡ None → self.new.hops ≡ [] }
        ensures pages { self.new.pages ≡ self.old.pages }
        ensures cost { steps.new ≤ steps.old + 4 * extent_of_search (shown_by heap.now stack.now areas.now) }
    {
        prove!(heap.size() <= self.pages);
        self.path.clear();
        self.queue.note_roots(heap, stack, areas, steps);
        self.queue.follow(heap, target, steps);
        let length = self.queue.trace(target, &mut self.path, steps);
        self.queue.clear(steps);
        length
    }

    /// Hop `k` of the path that the last search found, from 0 on.
    pub fn hop(&self, k: u32) -> Hop
        requires { k < length self.now.hops }
        ensures { slice_get self.now.hops k ≡ Some result }
    {
        self.path[self.path.len() - 1 - k as usize]
    }
}
