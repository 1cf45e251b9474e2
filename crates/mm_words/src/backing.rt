// An arena's uncut words, and the right to have all of its memory back.
ghost use Rattle.std.specs.Prelude.{◌≡◌, ◌+◌, ◌≤◌, [], IfOk};
ghost use Rattle.mm_words.specs.Kept.{IsSoundBacking};
ghost use Rattle.mm_words.specs.Arena.{whole, with_cut, with_uncut, with_back};

use crate::allocation::Allocation;
use crate::run::Run;
use std::alloc::{AllocError, Global};

pub(crate) struct Backing {
    pub(crate) rest: Run,
    pub(crate) allocation: Allocation<Global>,
    pub ghost kept: { IsSoundBacking rest allocation },
}

impl Backing {
    ghost use Rattle.mm_words.specs.Runs.{IsRun};
    ghost use Rattle.mm_words.specs.Tally.{arena_of};

    pub(crate) fn make(alloc: &Global, total: u32) -> Result<Backing, AllocError>
        ensures { IfOk result (λ h. arena_of h ≡ whole h.allocation.arena total) }
    {
        let (rest, allocation) = Allocation::make(alloc, total)?;
        Ok(Backing { rest, allocation })
    }

    pub(crate) fn cut(self, n: u32) -> (Backing, Run)
        requires { n ≤ self.rest.len }
        ensures backing { arena_of result.0 ≡ with_cut (arena_of self) n }
        ensures run { IsRun result.1 self.allocation.arena self.rest.place n [] }
    {
        let Backing { rest, allocation } = self;
        let (rest, run) = rest.cut(n);
        (Backing { rest, allocation }, run)
    }

    // The run lies right before the uncut words.
    pub(crate) fn uncut(self, run: Run) -> (Backing, ())
        requires { (run.arena ≡ self.allocation.arena) × (run.place + run.len ≡ self.rest.place) × (run.words ≡ []) }
        ensures backing { arena_of result.0 ≡ with_uncut (arena_of self) run.len }
        ensures was_out { run.len ≤ (arena_of self).out }
    {
        let Backing { rest, allocation } = self;
        let (allocation, (run, rest)) = allocation.weigh(run, rest);
        let rest = run.join(rest);
        (Backing { rest, allocation }, ())
    }

    pub(crate) fn take_back(self, run: Run) -> (Backing, ())
        requires { run.arena ≡ self.allocation.arena }
        ensures backing { arena_of result.0 ≡ with_back (arena_of self) run.len }
        ensures was_out { run.len ≤ (arena_of self).out }
    {
        let Backing { rest, allocation } = self;
        let (allocation, (run, rest)) = allocation.weigh(run, rest);
        let allocation = allocation.take_back(run);
        (Backing { rest, allocation }, ())
    }

    pub(crate) fn end(self, alloc: &Global)
        requires { (arena_of self).out ≡ 0 }
    {
        let Backing { rest, allocation } = self;
        allocation.end(rest, alloc);
    }
}
