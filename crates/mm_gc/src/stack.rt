// Commands on the stack alone.
ghost use Rattle.std.specs.Prelude.{◌≡◌, ◌==◌, ◌+◌, ◌<◌, ◌≤◌, length, nat_le, slice_index};
ghost use Rattle.mm_model.specs.declared.command.Command.TheVariants as commands;
ghost use Rattle.mm_gc.specs.Replies.{done_reply};
ghost use Rattle.mm_gc.specs.Rows.{Answers};
ghost use Rattle.mm_gc.specs.Refused.{CellAnswer, PushAnswer};
ghost use Rattle.mm_gc.specs.Sliding.{SlideAnswer, cells_slid};

use crate::gc::Gc;
use mm_model::Refusal;
use mm_roots::Stack;
use mm_steps::Steps;
use std::sync::ledger::Ledger;

/// Takes away the `k` cells below the top.
fn remove_below_top<L: Ledger>(stack: &mut Stack, k: u32, steps: &mut Steps<L>)
    requires { k < length stack.old.words }
    ensures slid { stack.new ≡ cells_slid k stack.old }
    ensures cost { steps.new ≤ steps.old + 1 }
{
    prove!(k < stack.depth());
    let top = stack.cell(0, steps);
    stack.pop(k + 1);
    match stack.push(top) {
        Ok(()) => {}
        Err(_) => unreachable!(),
    }
}

impl Gc {
    /// The word of a stack cell, named as everywhere by its index from the top.
    #[inline(always)]
    pub fn cell<L: Ledger>(&self, i: u32, steps: &mut Steps<L>) -> Result<u32, Refusal>
        ensures answer { CellAnswer self.now.stack.words i result }
        ensures cost { steps.new ≤ steps.old + 1 }
    {
        if self.stack.depth() <= i {
            return Err(Refusal::NoCell);
        }
        Ok(self.stack.cell(i, steps))
    }

    /// Pushes a word, and answers it.
    pub(crate) fn push_word(&mut self, word: u32) -> Result<u32, Refusal>
        ensures { PushAnswer self.old self.new word result }
    {
        match self.stack.push(word) {
            Ok(()) => Ok(word),
            Err(_) => Err(Refusal::StackFull),
        }
    }

    /// Pushes a word.
    pub fn push(&mut self, w: u32) -> Result<(), Refusal>
        ensures row { Answers self.old self.new (commands.Push w) (done_reply result) }
    {
        self.push_word(w)?;
        Ok(())
    }

    /// Pushes a cell again.
    pub fn dup<L: Ledger>(&mut self, i: u32, steps: &mut Steps<L>) -> Result<(), Refusal>
        ensures row { Answers self.old self.new (commands.Dup i) (done_reply result) }
        ensures cost { steps.new ≤ steps.old + 1 }
    {
        let word = self.cell(i, steps)?;
        self.push_word(word)?;
        Ok(())
    }

    /// Removes so many cells from the top.
    pub fn pop(&mut self, k: u32) -> Result<(), Refusal>
        ensures row { Answers self.old self.new (commands.Pop k) (done_reply result) }
    {
        if self.stack.depth() < k {
            return Err(Refusal::NoCell);
        }
        self.stack.pop(k);
        Ok(())
    }

    /// Removes the `k` cells below the top. The top stays, and means what it meant.
    pub fn slide<L: Ledger>(&mut self, k: u32, steps: &mut Steps<L>) -> Result<(), Refusal>
        ensures answer { SlideAnswer self.old self.new k result }
        ensures cost { steps.new ≤ steps.old + 1 }
    {
        if self.stack.depth() <= k {
            return Err(Refusal::NoCell);
        }
        remove_below_top(&mut self.stack, k, steps);
        Ok(())
    }
}
