// The stack of words, in one piece of an arena.
ghost use Rattle.std.specs.Prelude.{◌≡◌, ◌+◌, ◌<◌, ◌≤◌, length, reverse, slice_index, IfOk, OnErr};
ghost use Rattle.mm_words.specs.Location.{location_of};
ghost use Rattle.mm_roots.specs.Stack.{empty, pushed, popped, IsSoundStack};

use mm_steps::Steps;
use mm_words::Words;
use std::marker::Model;
use std::sync::ledger::Ledger;

/// The stack has as many cells as it may have.
#[derive(Drop)]
pub struct StackFull;

/// A stack of cells that hold a word each. Cell 0 is the one on top.
///
/// It stands on words of an arena. They come back by `close`, and the stack can't be dropped.
pub struct Stack {
    // The bottom comes first, so that a push or a pop moves no word.
    cells: Words,
    depth: u32,
    limit: u32,
}

impl Model for Stack {
    ghost use Rattle.mm_roots.specs.Stack.{Cells, cells_of, KeepsStack};

    ghost Value = { Cells };

    ghost view = { λ s. cells_of s.cells s.depth s.limit };

    ghost invariant = { λ s. KeepsStack s.cells s.depth s.limit };
}

impl Stack {
    /// An empty stack of at most `limit` cells. The words may hold anything.
    pub fn make(cells: Words, limit: u32) -> Stack
        requires { limit ≤ length cells.words }
        ensures { result ≡ empty (location_of cells) limit }
    {
        Stack {
            cells,
            depth: 0,
            limit,
        }
    }

    /// Gives the words back, which may hold anything.
    pub fn close(self) -> Words
        ensures { location_of result ≡ self.location }
    {
        let Stack {
            cells,
            depth: _,
            limit: _,
        } = self;
        cells
    }

    /// The number of cells.
    pub fn depth(&self) -> u32
        ensures value { result ≡ length self.now.words }
        ensures sound { IsSoundStack self.now }
    {
        self.depth
    }

    /// Puts a cell with that word on top. It is refused where the stack has as many cells as it may have.
    pub fn push(&mut self, w: u32) -> Result<(), StackFull>
        ensures room { IfOk result (λ _. length self.old.words < self.old.limit) }
        ensures pushed { IfOk result (λ _. self.new ≡ pushed self.old w) }
        ensures full { OnErr result (length self.old.words ≡ self.old.limit) }
        ensures unchanged { OnErr result (self.new ≡ self.old) }
    {
        if self.depth == self.limit {
            return Err(StackFull);
        }
        self.cells.set(self.depth, w);
        self.depth += 1;
        Ok(())
    }

    /// Takes away the `k` cells on top.
    pub fn pop(&mut self, k: u32)
        requires { k ≤ length self.old.words }
        ensures { self.new ≡ popped self.old k }
    {
        self.depth -= k;
    }

    /// The word of the cell with this index from the top.
    pub fn cell<L: Ledger>(&self, i: u32, steps: &mut Steps<L>) -> u32
        requires { i < length self.now.words }
        ensures word { result ≡ slice_index self.now.words i }
        ensures cost { steps.new ≡ steps.old + 1 }
    {
        steps.tick();
        self.cells.get(self.depth - 1 - i)
    }

    /// Lends the words of all cells, from the bottom up, where they lie. Each of them counts.
    pub fn words<L: Ledger>(&self, steps: &mut Steps<L>) -> &[u32]
        ensures words { result.now ≡ reverse self.now.words }
        ensures cost { steps.new ≡ steps.old + length self.now.words }
    {
        steps.add(self.depth);
        self.cells.part(0, self.depth)
    }
}
