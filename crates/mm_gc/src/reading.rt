// Commands that read through what a stack cell means.
ghost use Rattle.std.specs.Prelude.{◌≡◌, ◌+◌, ◌<◌, ◌≤◌};
ghost use Rattle.mm_model.specs.declared.command.Command.TheVariants as commands;
ghost use Rattle.mm_model.specs.declared.reply.Reply.TheVariants as replies;
ghost use Rattle.mm_gc.specs.Replies.{word_reply, map_reply};
ghost use Rattle.mm_gc.specs.Rows.{Answers};
ghost use Rattle.mm_gc.specs.Refused.{MeantAnswer};

use crate::gc::Gc;
use mm_model::{Mapped, Refusal, Stat};
use mm_object::Found;
use mm_steps::Steps;
use mm_weak::target;
use std::sync::ledger::Ledger;

/// What a stack cell means, with the cell's word.
#[derive(Clone, Copy, Debug, PartialEq, Eq)]
pub(crate) struct Meant {
    pub(crate) word: u32,
    pub(crate) found: Found,
}

impl Gc {
    /// The object that a stack cell means.
    #[inline(always)]
    pub(crate) fn meant<L: Ledger>(&self, i: u32, steps: &mut Steps<L>) -> Result<Meant, Refusal>
        ensures answer { MeantAnswer self.now i result }
        ensures cost { steps.new ≤ steps.old + 2 }
    {
        let word = self.cell(i, steps)?;
        match self.region.heap.look_up(word, steps) {
            Some(found) => Ok(Meant { word, found }),
            None => Err(Refusal::Nothing),
        }
    }

    /// Pushes the word of a cell plus a number of bytes, which must stay in the object that the cell means.
    pub fn inner<L: Ledger>(&mut self, i: u32, d: u32, steps: &mut Steps<L>) -> Result<u32, Refusal>
        ensures row { Answers self.old self.new (commands.Inner i d) (word_reply result) }
        ensures cost { steps.new ≤ steps.old + 3 }
    {
        let meant = self.meant(i, steps)?;
        let extent = self.region.heap.extent(meant.found.base, steps);
        // The sum may be past what a word holds.
        let offset = meant.word - meant.found.base;
        if extent - offset <= d {
            return Err(Refusal::Outside);
        }
        self.push_word(meant.word + d)
    }

    /// Pushes a slot of the object that a cell means.
    pub fn get<L: Ledger>(&mut self, i: u32, s: u32, steps: &mut Steps<L>) -> Result<u32, Refusal>
        ensures row { Answers self.old self.new (commands.Get i s) (word_reply result) }
        ensures cost { steps.new ≤ steps.old + 3 }
    {
        let meant = self.meant(i, steps)?;
        if meant.found.shape.slots <= s {
            return Err(Refusal::NoSlot);
        }
        let word = self.region.heap.slot_word(meant.found.base, s, steps);
        self.push_word(word)
    }

    /// Pushes the target of the weak object that a cell means, or 0 once it was freed.
    pub fn look<L: Ledger>(&mut self, i: u32, steps: &mut Steps<L>) -> Result<u32, Refusal>
        ensures row { Answers self.old self.new (commands.Look i) (word_reply result) }
        ensures cost { steps.new ≤ steps.old + 3 }
    {
        let meant = self.meant(i, steps)?;
        if !meant.found.shape.kind.is_weak() {
            return Err(Refusal::NoWeak);
        }
        let word = target(&self.region.heap, meant.found.base, steps);
        self.push_word(word)
    }

    /// What is told of the object that a cell means, if it means one.
    pub fn map<L: Ledger>(&self, i: u32, steps: &mut Steps<L>) -> Result<Option<Mapped>, Refusal>
        ensures row { Answers self.now self.now (commands.Map i) (map_reply result) }
        ensures cost { steps.new ≤ steps.old + 3 }
    {
        let word = self.cell(i, steps)?;
        match self.region.heap.look_up(word, steps) {
            Some(found) => Ok(Some(Mapped {
                base: found.base,
                kind: found.shape.kind,
                finalize: found.shape.finalize,
                extent: self.region.heap.extent(found.base, steps),
            })),
            None => Ok(None),
        }
    }

    /// How many objects, zero-count objects, areas and free pages there are.
    pub fn stat(&self) -> Stat
        ensures row { Answers self.now self.now commands.Stat (replies.Stat result) }
    {
        Stat {
            objects: (self.born - self.freed) as u32,
            zero: self.count.len(),
            areas: self.region.areas.live(),
            free: self.region.pages.free_pages(),
        }
    }
}
