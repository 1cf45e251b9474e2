// The words of memory that lie in no object.
ghost use Rattle.std.specs.Prelude.{◌≡◌, ◌+◌, ℕ};
ghost use Rattle.mm_object.specs.Heap.{with_raw, IsRaw, IsSound};

use crate::heap::{Heap, WORD_BYTES};
use mm_steps::Steps;
use std::sync::ledger::Ledger;

impl Heap {
    /// The word at an address that lies in no object.
    pub fn raw<L: Ledger>(&self, address: u32, steps: &mut Steps<L>) -> u32
        requires { (word : ℕ) × IsRaw self.now address word }
        ensures word { IsRaw self.now address result }
        ensures sound { IsSound self.now }
        ensures cost { steps.new ≡ steps.old + 1 }
    {
        steps.tick();
        self.memory.get(address / WORD_BYTES)
    }

    pub fn set_raw<L: Ledger>(&mut self, address: u32, w: u32, steps: &mut Steps<L>)
        requires { (word : ℕ) × IsRaw self.old address word }
        ensures word { self.new ≡ with_raw self.old address w }
        ensures sound { IsSound self.new }
        ensures cost { steps.new ≡ steps.old + 1 }
    {
        steps.tick();
        self.memory.set(address / WORD_BYTES, w);
    }
}
