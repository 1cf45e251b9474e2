// Phases: they free objects.
ghost use Rattle.std.specs.Prelude.{◌≡◌, ◌≤◌, ◌+◌, ◌*◌, IfOk, OnErr};
ghost use Rattle.mm_model.specs.declared.command.Command.TheVariants as commands;
ghost use Rattle.mm_model.specs.declared.reply.Reply.TheVariants as replies;
ghost use Rattle.mm_gc.specs.Replies.{done_reply};
ghost use Rattle.mm_gc.specs.Rows.{Tells};
ghost use Rattle.mm_gc.specs.Steps.{IsReapCost, IsFinishCost};

use crate::freeing::{forget_freed, free_reapable, free_white, mark_all, mark_rest};
use crate::gc::Gc;
use mm_model::Refusal;
use mm_steps::Steps;
use mm_sweep::Journal;
use std::sync::ledger::Ledger;

impl Gc {
    /// Frees the reapable objects: counted ones that aren't sticky, that no stack word names, and that only counted
    /// slots of reapable objects hold.
    pub fn reap<J: Journal, L: Ledger>(&mut self, journal: &mut J, steps: &mut Steps<L>)
        ensures row { Tells self.old self.new commands.Reap replies.Done
            (J.tells journal.old journal.new) }
        ensures born { self.new.born ≡ self.old.born }
        ensures cost { IsReapCost self.old steps.old steps.new }
    {
        let found = free_reapable(
            &mut self.region,
            &mut self.count,
            &self.stack,
            &mut self.dead,
            journal,
            steps,
        );
        forget_freed(&mut self.marker, &self.region.heap, steps);
        self.freed += found as u64;
        self.threshold = self.settings.zct.max(2 * self.count.len());
    }

    /// Frees what neither the stack nor a scanned area reaches. A cycle that runs ends without a result.
    pub fn collect<J: Journal, L: Ledger>(&mut self, journal: &mut J, steps: &mut Steps<L>)
        ensures row { Tells self.old self.new commands.Collect replies.Done
            (J.tells journal.old journal.new) }
        ensures born { self.new.born ≡ self.old.born }
    {
        mark_all(
            &mut self.marker,
            &mut self.region.heap,
            &self.stack,
            &self.region.areas,
            steps,
        );
        let found = free_white(
            &mut self.region,
            &mut self.count,
            &mut self.dead,
            journal,
            steps,
        );
        self.marker.end();
        self.freed += found as u64;
    }

    /// Ends the cycle, and frees what it didn't reach.
    pub fn finish<J: Journal, L: Ledger>(
        &mut self,
        journal: &mut J,
        steps: &mut Steps<L>,
    ) -> Result<(), Refusal>
        ensures row { Tells self.old self.new commands.Finish (done_reply result)
            (J.tells journal.old journal.new) }
        ensures cost { IfOk result (λ _. IsFinishCost self.old steps.old steps.new) }
        ensures refused { OnErr result (steps.new ≡ steps.old) }
    {
        if !self.marker.running() {
            return Err(Refusal::Idle);
        }
        mark_rest(
            &mut self.marker,
            &mut self.region.heap,
            &self.stack,
            &self.region.areas,
            steps,
        );
        let found = free_white(
            &mut self.region,
            &mut self.count,
            &mut self.dead,
            journal,
            steps,
        );
        self.marker.end();
        self.freed += found as u64;
        Ok(())
    }
}
