// What a heap tells, as a text.
ghost use Rattle.std.specs.Prelude.{⊤};

use arrayvec::ArrayVec;
use mm_gc::{Finalizer, Journal};
use mm_model::{Line, Phase};
use mm_trace::write_line;

/// The lines that were told since it was cleared, with a semicolon between two. It keeps no more than 4,096 bytes.
#[derive(Drop)]
pub(crate) struct Told {
    pub text: ArrayVec<u8, 4096>,
}

impl Told {
    pub fn new() -> Told {
        Told {
            text: ArrayVec::new(),
        }
    }

    pub fn line(&mut self, line: &Line) {
        if self.text.remaining_capacity() < 97 {
            return;
        }
        if !self.text.is_empty() {
            self.text.push(b';');
        }
        write_line(line, &mut self.text);
        // The newline.
        self.text.pop();
    }
}

impl Finalizer for Told {
    ghost tells = { λ _ _ _. ⊤ };

    ghost tells_nothing = { λ _. tt };

    ghost tells_on = { λ _ _ _ _ _ _ _. tt };

    fn finalize(&mut self, base: u32, slots: &[u32]) {
        let mut sum = 0u32;
        for word in slots {
            sum = sum.wrapping_add(*word);
        }
        self.line(&Line::Final {
            base,
            slots: slots.len() as u32,
            sum,
        });
    }
}

impl Journal for Told {
    fn phase(&mut self, what: Phase, freed: u32) {
        self.line(&Line::Phase { what, freed });
    }

    fn free(&mut self, base: u32) {
        self.line(&Line::Free(base));
    }

    fn scan(&mut self, base: u32, slots: u32) {
        self.line(&Line::Scan { base, slots });
    }
}
