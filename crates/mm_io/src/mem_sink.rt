// A sink into memory that fails at chosen calls.
ghost use Rattle.std.specs.Prelude.{◌≡◌, ◌<◌, ◌≤◌, [], Some, IfOk, IfSome, OnErr, length, min, take};
ghost use Rattle.mm_io.specs.Faults.{Counts};
ghost use Rattle.mm_io.specs.Plan.{GoesByPlan};
ghost use Rattle.mm_io.specs.Told.{Appends, KeepsFirst, StillTells};

use crate::fault_plan::FaultPlan;
use crate::store::Store;
use crate::{Failed, NoMemory, Sink};
use std::alloc::Global;

/// Keeps the first bytes that it takes, as many as it has room for, and fails at chosen calls.
///
/// It tells its bytes until more came than it has room for. Calls to `write` and `flush` are counted
/// together, from 1. Both its counts stand still at the last value of their type. A write takes no memory.
#[derive(Drop)]
pub struct MemSink {
    store: Store,
    plan: FaultPlan,
    piece: usize,
    ghost moves: { 1 ≤ piece },
}

impl MemSink {
    ghost use Rattle.mm_io.specs.Planned.{sink_plan};

    /// `room` is how many bytes are reserved, `piece` the most bytes of one write, and `fails` has the
    /// numbers of the calls that fail.
    pub fn make(
        alloc: Global,
        room: usize,
        piece: usize,
        fails: Vec<u32>,
    ) -> Result<MemSink, NoMemory>
        requires { 1 ≤ piece }
        ensures taken { IfOk result (λ sink. ⟦<MemSink as Sink>⟧.taken sink ≡ Some []) }
        ensures room { IfOk result (λ sink. ⟦<MemSink as Sink>⟧.room sink ≡ room) }
        ensures kept { IfOk result (λ sink. ⟦<MemSink as Sink>⟧.kept sink ≡ Some []) }
        ensures faults { IfOk result (λ sink. ⟦<MemSink as Sink>⟧.faults sink ≡ 0) }
        ensures plan { IfOk result
            (λ sink. sink_plan sink ≡ record { piece = piece; fails = fails.items; calls = 0 }) }
    {
        Ok(MemSink {
            store: Store::make(alloc, room)?,
            plan: FaultPlan::make(fails),
            piece,
        })
    }

    /// The bytes that are kept, which are those taken so far unless more came than there is room for.
    pub fn taken(&self) -> &[u8]
        ensures kept { ⟦<MemSink as Sink>⟧.kept self.now ≡ Some result.now }
        ensures taken { IfSome (⟦<MemSink as Sink>⟧.taken self.now) (λ bytes. result.now ≡ bytes) }
    {
        self.store.kept()
    }
}

impl Sink for MemSink {
    ghost use Rattle.mm_io.specs.Store.{told_of};
    ghost use Rattle.mm_io.specs.Planned.{sink_plan};

    ghost faults = { λ sink. sink.plan.faults };

    ghost taken = { λ sink. told_of sink.store };

    // Nothing is held back.
    ghost passed = { λ sink. told_of sink.store };

    ghost room = { λ sink. sink.store.room };

    ghost kept = { λ sink. Some sink.store.kept.items };

    fn write(&mut self, bytes: &[u8]) -> Result<usize, Failed>
        requires { 0 < length bytes.now }
        ensures piece { IfOk result (λ n. n ≡ min self.old.piece (length bytes.now)) }
        ensures planned { GoesByPlan (sink_plan self.old) (sink_plan self.new) result }
        ensures some { IfOk result (λ n. 1 ≤ n) }
        ensures within { IfOk result (λ n. n ≤ length bytes.now) }
        ensures appended { IfOk result
            (λ n. Appends (told_of self.old.store) (told_of self.new.store) (take n bytes.now)) }
        ensures told { IfOk result
            (λ n. StillTells self.old.store.room (told_of self.old.store) (told_of self.new.store) n) }
        ensures kept { IfOk result (λ n. KeepsFirst self.old.store.room (Some self.old.store.kept.items)
            (Some self.new.store.kept.items) (take n bytes.now)) }
        ensures failed { OnErr result (told_of self.new.store ≡ told_of self.old.store) }
        ensures failed_kept { OnErr result (self.new.store.kept.items ≡ self.old.store.kept.items) }
        ensures same_room { self.new.store.room ≡ self.old.store.room }
        ensures faults { Counts self.old.plan.faults self.new.plan.faults result }
    {
        self.plan.call()?;
        let n = bytes.len().min(self.piece);
        self.store.put(&bytes[..n]);
        Ok(n)
    }

    fn flush(&mut self) -> Result<(), Failed>
        ensures planned { GoesByPlan (sink_plan self.old) (sink_plan self.new) result }
        ensures same { told_of self.new.store ≡ told_of self.old.store }
        ensures same_kept { self.new.store.kept.items ≡ self.old.store.kept.items }
        ensures same_room { self.new.store.room ≡ self.old.store.room }
        ensures faults { Counts self.old.plan.faults self.new.plan.faults result }
    {
        self.plan.call()
    }
}
