// Sets of numbers below a limit.
ghost use Rattle.std.specs.Prelude.{◌≡◌, ◌^◌, ◌<◌, ◌≤◌, true, false, length, replicate, slice_get, slice_set, Some};
ghost use Rattle.std.specs.Prelude.{IfOk, MatchOption};
ghost use Rattle.mm_audit.specs.Bits.{NoneFrom, IsNext};

use crate::NoMemory;
use crate::bits::Bits;
use std::alloc::Global;
use std::marker::Model;

// How many numbers stand in a word.
const WIDTH: u32 = 64;

/// A set of numbers below a limit, seen as a mark for each number.
///
/// No call but `make` takes memory. `next` looks at one word for each 4,096 numbers that it passes over.
#[derive(Drop)]
pub struct Numbers {
    marks: Bits,
    // The words of marks that have any.
    used: Bits,
}

impl Model for Numbers {
    ghost use Rattle.std.specs.Prelude.{List, Bool};
    ghost use Rattle.mm_audit.specs.Numbers.{KeepsUsed};

    ghost Value = { List Bool };

    ghost view = { λ s. s.marks };

    ghost invariant = { λ s. KeepsUsed s.marks s.used };
}

impl Numbers {
    /// The empty set.
    pub fn make(alloc: Global, limit: u32) -> Result<Numbers, NoMemory>
        requires most { limit ≤ 2 ^ 20 }
        ensures { IfOk result (λ made. made ≡ replicate limit false) }
    {
        let marks = Bits::make(alloc, limit)?;
        let used = Bits::make(alloc, (limit + WIDTH - 1) / WIDTH)?;
        Ok(Numbers { marks, used })
    }

    /// Whether a number is a member.
    pub fn contains(&self, n: u32) -> bool
        requires inside { n < length self.now }
        ensures { slice_get self.now n ≡ Some result }
    {
        self.marks.get(n)
    }

    /// Makes a number a member.
    pub fn insert(&mut self, n: u32)
        requires inside { n < length self.old }
        ensures { self.new ≡ slice_set self.old n true }
    {
        self.marks.set(n);
        self.used.set(n / WIDTH);
    }

    /// Makes a number no member.
    pub fn remove(&mut self, n: u32)
        requires inside { n < length self.old }
        ensures { self.new ≡ slice_set self.old n false }
    {
        self.marks.clear(n);
        if self.marks.next_beside(n / WIDTH * WIDTH).is_none() {
            self.used.clear(n / WIDTH);
        }
    }

    /// The lowest member that is at least `from`.
    pub fn next(&self, from: u32) -> Option<u32>
        requires inside { from < length self.now }
        ensures { MatchOption result (NoneFrom self.now from) (IsNext self.now from) }
    {
        if let Some(n) = self.marks.next_beside(from) {
            return Some(n);
        }
        match self.used.next(from / WIDTH + 1) {
            None => None,
            Some(word) => self.marks.next_beside(WIDTH * word),
        }
    }
}
