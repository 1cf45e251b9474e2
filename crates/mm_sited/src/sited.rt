// A journal around another one.
ghost use Rattle.std.specs.Prelude.{◌≡◌};
ghost use Rattle.std.proofs.Common.{refl, ◌∙◌};
ghost use Rattle.mm_sited.specs.Taking.{without_freed};
ghost use Rattle.mm_sited.specs.Following.{without_freed-on};

use mm_model::Phase;
use mm_sites::Sites;
use mm_sweep::{Finalizer, Journal};

/// Hands each call on to a journal that it borrows, and takes the sites of objects away as they are freed.
#[derive(Drop)]
pub struct Sited<'a, J: Journal> {
    pub journal: &'a mut J,
    pub sites: &'a mut Sites,
}

impl<'a, J: Journal> Finalizer for Sited<'a, J> {
    ghost tells = { λ s t told. (t.journal.ghost_name ≡ s.journal.ghost_name)
        × (t.sites.ghost_name ≡ s.sites.ghost_name) × J.tells s.journal.now t.journal.now told
        × (t.sites.now ≡ without_freed s.sites.now told) };

    ghost tells_nothing = { λ s. (refl, refl, J.tells_nothing s.journal.now, refl) };

    ghost tells_on = { λ s t u earlier later first next. (
      next.0 ∙ first.0,
      next.1 ∙ first.1,
      J.tells_on s.journal.now t.journal.now u.journal.now earlier later first.2 next.2,
      without_freed-on s.sites.now t.sites.now u.sites.now earlier later first.3 next.3,
    ) };

    fn finalize(&mut self, base: u32, slots: &[u32]) {
        self.journal.finalize(base, slots);
    }
}

impl<'a, J: Journal> Journal for Sited<'a, J> {
    fn phase(&mut self, what: Phase, freed: u32) {
        self.journal.phase(what, freed);
    }

    fn free(&mut self, base: u32) {
        self.journal.free(base);
        let _ = self.sites.freed(base);
    }

    fn scan(&mut self, base: u32, slots: u32) {
        self.journal.scan(base, slots);
    }
}
