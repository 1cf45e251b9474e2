// What is told of the objects in which words fall. Nothing is pushed.
ghost use Rattle.std.specs.Prelude.{◌≡◌, ◌+◌, ◌≤◌};
ghost use Rattle.std.specs.Option.{option_map};
ghost use Rattle.mm_model.specs.Views.ViewWords.{resolved_in};
ghost use Rattle.mm_gc.specs.Gc.{view_of_gc};
ghost use Rattle.mm_gc.specs.Describing.{described, SlotAnswer};

use crate::gc::Gc;
use mm_model::{Kind, Refusal};
use mm_steps::Steps;
use std::sync::ledger::Ledger;

/// What is told of a live object.
#[derive(Clone, Copy, Debug, PartialEq, Eq)]
pub struct Described {
    /// The address of its first byte. A word is the object's base where it equals this.
    pub base: u32,
    pub kind: Kind,
    pub finalize: bool,
    /// The bytes of its cell or of its pages. A word that is the address of one of them falls in the object.
    pub extent: u32,
    /// How many of the slots, from the first on, are counted.
    pub counted: u32,
    pub slots: u32,
}

impl Gc {
    /// What is told of the live object in which a word falls, if there is one.
    pub fn describe<L: Ledger>(&self, word: u32, steps: &mut Steps<L>) -> Option<Described>
        ensures answer { result ≡ option_map described (resolved_in (view_of_gc self.now).objects word) }
        ensures cost { steps.new ≤ steps.old + 2 }
    {
        match self.region.heap.look_up(word, steps) {
            Some(found) => Some(Described {
                base: found.base,
                kind: found.shape.kind,
                finalize: found.shape.finalize,
                extent: self.region.heap.extent(found.base, steps),
                counted: found.shape.counted,
                slots: found.shape.slots,
            }),
            None => None,
        }
    }

    /// The word in slot `s` of the live object in which a word falls. It is a bare word: it keeps nothing alive.
    pub fn slot<L: Ledger>(&self, word: u32, s: u32, steps: &mut Steps<L>) -> Result<u32, Refusal>
        ensures answer { SlotAnswer (view_of_gc self.now) word s result }
        ensures cost { steps.new ≤ steps.old + 2 }
    {
        match self.region.heap.look_up(word, steps) {
            Some(found) => {
                if found.shape.slots <= s {
                    return Err(Refusal::NoSlot);
                }
                Ok(self.region.heap.slot_word(found.base, s, steps))
            }
            None => Err(Refusal::Nothing),
        }
    }
}
