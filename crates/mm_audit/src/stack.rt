// The stack of words.
ghost use Rattle.std.specs.Prelude.{◌≡◌, ◌<◌, ◌≤◌, [], ◌∷◌, ◌==◌, length, drop, slice_get, Some, IfOk};
ghost use Rattle.mm_audit.specs.Stack.{stack_of};

use crate::NoMemory;
use std::alloc::Global;
use std::marker::Model;

/// Words by their index from the top, at most as many as the limit says.
///
/// No call but `make` takes memory.
#[derive(Drop)]
pub struct Stack {
    // From the bottom.
    cells: Vec<u32>,
    limit: u32,
}

impl Model for Stack {
    ghost use Rattle.std.specs.Prelude.{vec_capacity};
    ghost use Rattle.mm_audit.specs.Stack.{StackWords, stack_of as shown, KeepsStack};

    ghost Value = { StackWords };

    ghost view = { λ s. shown s.cells.items s.limit };

    ghost invariant = { λ s. KeepsStack s.cells.items s.limit (vec_capacity s.cells) };
}

impl Stack {
    /// An empty stack.
    pub fn make(alloc: Global, limit: u32) -> Result<Stack, NoMemory>
        requires most { limit ≤ 65536 }
        ensures { IfOk result (λ made. made ≡ stack_of [] limit) }
    {
        let cells = Vec::with_capacity(alloc, limit as usize)?;
        Ok(Stack { cells, limit })
    }

    pub fn len(&self) -> u32
        ensures { result ≡ length self.now.words }
    {
        self.cells.len() as u32
    }

    /// Whether no word can be pushed.
    pub fn is_full(&self) -> bool
        ensures { result ≡ (length self.now.words == self.now.limit) }
    {
        self.cells.len() == self.limit as usize
    }

    /// The word with an index from the top.
    pub fn get(&self, index: u32) -> u32
        requires inside { index < length self.now.words }
        ensures { slice_get self.now.words index ≡ Some result }
    {
        self.cells[self.cells.len() - 1 - index as usize]
    }

    /// Puts a word on top.
    pub fn push(&mut self, word: u32)
        requires room { length self.old.words < self.old.limit }
        ensures { self.new ≡ record self.old { words = word ∷ self.old.words } }
    {
        self.cells.push_reserved(word);
    }

    /// Takes so many words from the top.
    pub fn pop(&mut self, count: u32)
        requires inside { count ≤ length self.old.words }
        ensures { self.new ≡ record self.old { words = drop count self.old.words } }
    {
        self.cells.truncate(self.cells.len() - count as usize);
    }
}
