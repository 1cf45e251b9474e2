// Runs that stay parked while pieces of one family lie in them.
ghost use Rattle.std.specs.Prelude.{◌≡◌, ◌+◌, ◌≤◌, ◌<◌, ℕ, List, IfOk, OnErr, slice_index, slice_set};
ghost use Rattle.mm_pages.specs.Pages.{with_parked, Covers, IsFreeRun, IsLowestRun, IsSoundHeap, IsQuick};
ghost use Rattle.mm_pages.specs.Parked.{AreParked};

use crate::page_heap::{NoRun, PageHeap};
use mm_steps::Steps;
use std::sync::ledger::Ledger;

impl PageHeap {
    /// Takes the lowest run of `count` free pages and keeps it parked. It answers the run's first page. The runs of a
    /// family that had theirs parked have this one beside them, those of every other family stay theirs.
    pub fn park_lowest<L: Ledger>(&mut self, count: u32, steps: &mut Steps<L>) -> Result<u32, NoRun>
        requires { 1 ≤ count }
        ensures lowest { IfOk result (λ first. IsLowestRun self.old first count) }
        ensures within { IfOk result (λ first. first + count ≤ self.old.pages) }
        ensures parked { IfOk result (λ first. self.new ≡ with_parked self.old first count) }
        ensures vacant { IfOk result (λ first. (runs : List ℕ) → AreParked runs self.old
            → (page : ℕ) → first ≤ page → page < first + count → ¬ Covers runs page) }
        ensures fits { IfOk result (λ first. (runs : List ℕ) → AreParked runs self.old
            → AreParked (slice_set runs first count) self.new) }
        ensures others { IfOk result (λ first. (runs : List ℕ) → AreParked runs self.old → AreParked runs self.new) }
        ensures none { OnErr result ((first : ℕ) → ¬ IsFreeRun self.old first count) }
        ensures unchanged { OnErr result (self.new ≡ self.old) }
        ensures sound { IsSoundHeap self.new }
        ensures cost { IsQuick self.old.pages steps.old steps.new }
    {
        let run = self.take(count, steps)?;
        let first = run.first();
        self.park(run);
        Ok(first)
    }

    /// Makes the pages of the run free that is parked at a page. It leaves the family that has it, and no other.
    pub fn free_parked<L: Ledger>(&mut self, first: u32, steps: &mut Steps<L>)
        requires { 0 < slice_index self.old.parked first }
        ensures freed { self.new ≡ with_parked self.old first 0 }
        ensures fits { (runs : List ℕ) → AreParked runs self.old → AreParked (slice_set runs first 0) self.new }
        ensures others { (runs : List ℕ) → slice_index runs first ≡ 0 → AreParked runs self.old
            → AreParked runs self.new }
        ensures sound { IsSoundHeap self.new }
        ensures cost { IsQuick self.old.pages steps.old steps.new }
    {
        let run = self.unpark(first);
        self.give(run, steps);
    }
}
