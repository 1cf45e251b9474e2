// The calls at which an object in memory fails, and the count of those that did.
ghost use Rattle.std.specs.Prelude.{◌≡◌, ◌+◌, ◌-◌, ◌^◌, ◌↔◌, min, Contains, IsErr, OnOk};
ghost use Rattle.mm_io.specs.Faults.{Counts};

use crate::Failed;

/// Calls are numbered from 1. Both counts stand still at the last value of their type.
#[derive(Drop)]
pub(crate) struct FaultPlan {
    fails: Vec<u32>,
    calls: u32,
    pub(crate) faults: u64,
}

impl FaultPlan {
    pub(crate) fn make(fails: Vec<u32>) -> FaultPlan
        ensures faults { result.faults ≡ 0 }
        ensures calls { result.calls ≡ 0 }
        ensures fails { result.fails.items ≡ fails.items }
    {
        FaultPlan {
            fails,
            calls: 0,
            faults: 0,
        }
    }

    /// Counts one call, and fails if it is one of those that are to fail.
    pub(crate) fn call(&mut self) -> Result<(), Failed>
        ensures numbered { self.new.calls ≡ min (self.old.calls + 1) (2 ^ 32 - 1) }
        ensures planned { IsErr result ↔ Contains self.old.fails.items self.new.calls }
        ensures faults { Counts self.old.faults self.new.faults result }
        ensures counted { OnOk result (self.new.faults ≡ self.old.faults) }
        ensures same_plan { self.new.fails.items ≡ self.old.fails.items }
    {
        self.calls = self.calls.saturating_add(1);
        if self.fails.contains(&self.calls) {
            self.faults = self.faults.saturating_add(1);
            return Err(Failed);
        }
        Ok(())
    }
}
