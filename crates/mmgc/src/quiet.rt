// A journal for runs that write no lines.
ghost use Rattle.std.specs.Prelude.{⊤};

use mm_gc::{Finalizer, Journal};
use mm_model::Phase;

/// Keeps nothing of what it is told.
#[derive(Drop)]
pub struct Quiet;

impl Quiet {
    pub fn make() -> Quiet {
        Quiet
    }
}

impl Finalizer for Quiet {
    ghost tells = { λ _ _ _. ⊤ };

    ghost tells_nothing = { λ _. tt };

    ghost tells_on = { λ _ _ _ _ _ _ _. tt };

    fn finalize(&mut self, _base: u32, _slots: &[u32]) {}
}

impl Journal for Quiet {
    fn phase(&mut self, _what: Phase, _freed: u32) {}

    fn free(&mut self, _base: u32) {}

    fn scan(&mut self, _base: u32, _slots: u32) {}
}
