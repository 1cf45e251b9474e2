// A source over bytes in memory that fails at chosen calls.
ghost use Rattle.std.specs.Prelude.{◌≡◌, ◌<◌, ◌≤◌, ◌++◌, [], None, Some, IfOk, OnOk, OnErr, IsErrOf, length, min, take};
ghost use Rattle.std.specs.Prelude.{string_bytes};
ghost use Rattle.mm_io.specs.Faults.{Counts, CountsChoice};
ghost use Rattle.mm_io.specs.Plan.{GoesByPlan};
ghost use Rattle.mm_io.specs.Told.{file_bytes};

use crate::fault_plan::FaultPlan;
use crate::tape::Tape;
use crate::{ChooseFault, Failed, Source};

/// Tells its bytes, gives at most so many of them per read, and fails at chosen calls.
///
/// Calls to `choose` and `read` are counted together, from 1. Both its counts stand still at the last
/// value of their type. `choose` takes no memory.
#[derive(Drop)]
pub struct MemSource {
    tape: Tape,
    plan: FaultPlan,
}

impl MemSource {
    ghost use Rattle.mm_io.specs.Planned.{source_plan};

    /// `piece` is the most bytes of one read, and `fails` has the numbers of the calls that fail.
    pub fn make(bytes: Vec<u8>, piece: usize, fails: Vec<u32>) -> MemSource
        requires { 1 ≤ piece }
        ensures left { ⟦<MemSource as Source>⟧.left result ≡ Some bytes.items }
        ensures named { ⟦<MemSource as Source>⟧.named result ≡ None }
        ensures faults { ⟦<MemSource as Source>⟧.faults result ≡ 0 }
        ensures plan { source_plan result ≡ record { piece = piece; fails = fails.items; calls = 0 } }
    {
        MemSource {
            tape: Tape::make(bytes, piece),
            plan: FaultPlan::make(fails),
        }
    }

    /// The same source with this as its named file, in place of one that it may have.
    pub fn with_file(self, name: String, bytes: Vec<u8>) -> MemSource
        ensures named { ⟦<MemSource as Source>⟧.named result
            ≡ Some (record { name = string_bytes name; bytes = bytes.items }) }
        ensures left { ⟦<MemSource as Source>⟧.left result ≡ ⟦<MemSource as Source>⟧.left self }
        ensures faults { ⟦<MemSource as Source>⟧.faults result ≡ ⟦<MemSource as Source>⟧.faults self }
        ensures plan { source_plan result ≡ source_plan self }
    {
        let MemSource { tape, plan } = self;
        MemSource {
            tape: tape.with_file(name, bytes),
            plan,
        }
    }
}

impl Source for MemSource {
    ghost use Rattle.mm_io.specs.Tape.{rest_of, file_of};
    ghost use Rattle.mm_io.specs.Planned.{source_plan};

    ghost faults = { λ source. source.plan.faults };

    ghost left = { λ source. Some (rest_of source.tape) };

    ghost named = { λ source. file_of source.tape };

    ghost may_lack_memory = { λ _. ⊥ };

    fn choose(&mut self, name: &str) -> Result<(), ChooseFault>
        ensures planned { GoesByPlan (source_plan self.old) (source_plan self.new) result }
        ensures chosen { OnOk result (rest_of self.new.tape ≡ file_bytes (file_of self.old.tape) name.now) }
        ensures refused { OnErr result (rest_of self.new.tape ≡ rest_of self.old.tape) }
        ensures same_file { file_of self.new.tape ≡ file_of self.old.tape }
        ensures faults { CountsChoice self.old.plan.faults self.new.plan.faults result }
        ensures memory { IsErrOf result ChooseFault.NoMemory → ⊥ }
    {
        self.plan.call().map_err(|_| ChooseFault::Failed)?;
        self.tape.choose(name);
        Ok(())
    }

    fn read(&mut self, buf: &mut [u8]) -> Result<usize, Failed>
        requires { 0 < length buf.old }
        ensures piece { IfOk result
            (λ n. n ≡ min (min self.old.tape.piece (length buf.old)) (length (rest_of self.old.tape))) }
        ensures planned { GoesByPlan (source_plan self.old) (source_plan self.new) result }
        ensures within { IfOk result (λ n. n ≤ length buf.new) }
        ensures given { IfOk result (λ n. rest_of self.old.tape ≡ take n buf.new ++ rest_of self.new.tape) }
        ensures end { IfOk result (λ n. n ≡ 0 → rest_of self.new.tape ≡ []) }
        ensures failed { OnErr result (rest_of self.new.tape ≡ rest_of self.old.tape) }
        ensures same_file { file_of self.new.tape ≡ file_of self.old.tape }
        ensures faults { Counts self.old.plan.faults self.new.plan.faults result }
    {
        self.plan.call()?;
        Ok(self.tape.read(buf))
    }
}
