// Cycles of marking, which other commands come between.
ghost use Rattle.std.specs.Prelude.{◌≡◌, ◌≤◌, ◌+◌, ◌*◌, ℕ, true, length, unwrap_or};
ghost use Rattle.mm_model.specs.declared.command.Command.TheVariants as commands;
ghost use Rattle.mm_model.specs.Views.ViewWords.{marking_words};
ghost use Rattle.mm_mark.specs.Stale.{HasFewStale, IsPaid};
ghost use Rattle.mm_gc.specs.Gc.{view_of_gc};
ghost use Rattle.mm_gc.specs.Phases.{ScanAnswer, ScansTo};
ghost use Rattle.mm_gc.specs.Replies.{done_reply};
ghost use Rattle.mm_gc.specs.Rows.{Answers, Tells};
ghost use Rattle.mm_gc.specs.Steps.{marking_in, IsStepCost};

use crate::gc::Gc;
use mm_model::Refusal;
use mm_steps::Steps;
use mm_sweep::Journal;
use std::sync::ledger::Ledger;

impl Gc {
    /// Begins a cycle.
    pub fn begin<L: Ledger>(&mut self, steps: &mut Steps<L>) -> Result<(), Refusal>
        ensures row { Answers self.old self.new commands.Begin (done_reply result) }
        ensures cost { steps.new ≤ steps.old + 16 * (1 + length (marking_words (view_of_gc self.old))) }
    {
        if self.marker.running() {
            return Err(Refusal::Busy);
        }
        self.marker.begin(
            &mut self.region.heap,
            &self.stack,
            &self.region.areas,
            steps,
        );
        self.gone_before = self.freed;
        Ok(())
    }

    /// Scans parts of gray objects, until their costs are `k` or no object is gray. A part costs 1 and its slots.
    pub fn step<J: Journal, L: Ledger>(
        &mut self,
        k: u32,
        journal: &mut J,
        steps: &mut Steps<L>,
    ) -> Result<(), Refusal>
        ensures row { Tells self.old self.new (commands.Step k) (done_reply result)
            (J.tells journal.old journal.new) }
        ensures cost { IsStepCost self.old k steps.old steps.new }
    {
        if !self.marker.running() {
            return Err(Refusal::Idle);
        }
        self.scan_for(k, journal, steps);
        Ok(())
    }

    /// Scans parts that cost `k` together, or all that there are.
    fn scan_for<J: Journal, L: Ledger>(&mut self, k: u32, journal: &mut J, steps: &mut Steps<L>)
        requires { self.old.marker.running ≡ true }
        ensures scans { ScansTo (view_of_gc self.old) k (view_of_gc self.new)
            (J.tells journal.old journal.new) }
        ensures cost { (stale : ℕ) → HasFewStale (marking_in self.old) stale
            → steps.new ≤ steps.old + 16 * (k + 65) + 8 * stale }
    {
        let mut cost = 0u64;
        'parts: while cost < k as u64 {
            match self.scan_next(journal, steps) {
                Some(slots) => cost += 1 + slots as u64,
                None => return,
            }
        }
    }

    /// Scans one part and tells the journal of it. It answers how many slots the part has.
    fn scan_next<J: Journal, L: Ledger>(
        &mut self,
        journal: &mut J,
        steps: &mut Steps<L>,
    ) -> Option<u32>
        requires { self.old.marker.running ≡ true }
        ensures part { ScanAnswer (view_of_gc self.old) (view_of_gc self.new)
            (J.tells journal.old journal.new) result }
        ensures runs { self.new.marker.running ≡ true }
        ensures cost { (stale : ℕ) → HasFewStale (marking_in self.old) stale
            → IsPaid (marking_in self.new) steps.new (steps.old + 16 * (1 + unwrap_or result 0) + 8 * stale) }
    {
        match self.marker.scan_part(&mut self.region.heap, steps) {
            Some(part) => {
                journal.scan(part.base, part.slots);
                Some(part.slots)
            }
            None => None,
        }
    }
}
