// The path to an object that was found, from its end to its beginning.
ghost use Rattle.std.specs.Prelude.{◌≡◌, ◌≤◌, ◌<◌, ◌+◌, [], length, reverse, MatchOption, IfSome, None, Some};
ghost use Rattle.std.specs.Prelude.{slice_get, vec_capacity};
ghost use Rattle.mm_why.specs.declared.found.Found.{Found as Entry};
ghost use Rattle.mm_why.specs.Path.{Shown, IsPathOf};
ghost use Rattle.mm_why.specs.Queue.{IsFound, IsSoundQueue};
ghost use Rattle.mm_why.specs.Search.{HaveReasons, IsEntry};

use crate::found::Found;
use crate::hop::{Hop, Via};
use crate::queue::Queue;
use mm_steps::Steps;
use std::sync::ledger::Ledger;

impl Queue {
    /// What was found at a base, which the queue is looked through for.
    fn entry_of<L: Ledger>(&self, base: u32, steps: &mut Steps<L>) -> Option<Found>
        ensures entry { MatchOption result (IsFound self.now.found base → ⊥) (IsEntry self.now.found base) }
        ensures sound { IsSoundQueue self.now }
        ensures cost { steps.new ≤ steps.old + length self.now.found }
    {
        for place in 0..self.len() {
            steps.tick();
            let entry = self.at(place);
            if entry.base == base {
                return Some(entry);
            }
        }
        None
    }

    /// Writes the path to an object down, the last hop first, and answers its length.
    pub(crate) fn trace<L: Ledger>(
        &self,
        target: u32,
        path: &mut Vec<Hop>,
        steps: &mut Steps<L>,
    ) -> Option<u32>
        requires none { path.old.items ≡ [] }
        requires room { length self.now.found ≤ vec_capacity path.old }
        ensures entry { MatchOption result (IsFound self.now.found target → ⊥) (λ count. (entry : Entry)
            × IsEntry self.now.found target entry × (entry.lead.length ≡ count)) }
        ensures path { IfSome result (λ count. (shown : Shown) → HaveReasons shown self.now.found
            → IsPathOf shown target count (reverse path.new.items)) }
        ensures none { result ≡ None → path.new.items ≡ [] }
        ensures room { vec_capacity path.new ≡ vec_capacity path.old }
        ensures cost { steps.new ≤ steps.old + length self.now.found + length self.now.found }
    {
        match self.entry_of(target, steps) {
            Some(last) => {
                self.trace_back(last, path, steps);
                Some(last.lead.length)
            }
            None => None,
        }
    }

    /// The same, from an entry on.
    fn trace_back<L: Ledger>(&self, last: Found, path: &mut Vec<Hop>, steps: &mut Steps<L>)
        requires sound { IsSoundQueue self.now }
        requires entry { IsEntry self.now.found last.base last }
        requires none { path.old.items ≡ [] }
        requires room { length self.now.found ≤ vec_capacity path.old }
        ensures path { (shown : Shown) → HaveReasons shown self.now.found
            → IsPathOf shown last.base last.lead.length (reverse path.new.items) }
        ensures room { vec_capacity path.new ≡ vec_capacity path.old }
        ensures cost { steps.new ≤ steps.old + length self.now.found }
    {
        let mut entry = last;
        'hops: while let Via::Slot { slot: _ } = entry.lead.via {
            steps.tick();
            path.push_reserved(entry.hop());
            entry = self.at(entry.lead.from);
        }
        steps.tick();
        path.push_reserved(entry.hop());
    }
}
