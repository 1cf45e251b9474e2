// Marks of numbers, 64 in a word.
ghost use Rattle.std.specs.Prelude.{◌≡◌, ◌+◌, ◌*◌, ◌/◌, ◌^◌, ◌<◌, ◌≤◌, true, false, nat_eq, length, replicate};
ghost use Rattle.std.specs.Prelude.{slice_get, slice_set, Some, IfOk, MatchOption};
ghost use Rattle.mm_audit.specs.Bits.{bit_of, ChangesBit, NoneBetween, NoneFrom, NoneBeside, IsLowestBeside};
ghost use Rattle.mm_audit.specs.Bits.{IsNext, IsNextBeside};

use crate::NoMemory;
use std::alloc::Global;
use std::marker::Model;

// How many stand in a word.
const WIDTH: u32 = 64;

/// A mark for each number below a limit.
///
/// No call but `make` takes memory.
#[derive(Drop)]
pub(crate) struct Bits {
    words: Vec<u64>,
    limit: u32,
}

impl Model for Bits {
    ghost use Rattle.std.specs.Prelude.{List, Bool};
    ghost use Rattle.mm_audit.specs.Bits.{bits_of, KeepsBits};

    ghost Value = { List Bool };

    ghost view = { λ s. bits_of s.words.items s.limit };

    ghost invariant = { λ s. KeepsBits s.words.items s.limit };
}

// Whether a bit is set.
fn test_bit(words: &[u64], k: u32) -> bool
    requires { k / 64 < length words.now }
    ensures { result ≡ nat_eq (bit_of words.now k) 1 }
{
    words[(k / WIDTH) as usize] >> (k % WIDTH) & 1 == 1
}

// Sets a bit.
fn set_bit(words: &mut Vec<u64>, k: u32)
    requires { k / 64 < length words.old.items }
    ensures { ChangesBit words.old.items words.new.items k 1 }
{
    words[(k / WIDTH) as usize] |= 1 << (k % WIDTH);
}

// Clears a bit.
fn clear_bit(words: &mut Vec<u64>, k: u32)
    requires { k / 64 < length words.old.items }
    ensures { ChangesBit words.old.items words.new.items k 0 }
{
    words[(k / WIDTH) as usize] &= !(1 << (k % WIDTH));
}

// The lowest bit that is set from one on, in its word.
fn lowest_beside(words: &[u64], from: u32) -> Option<u32>
    requires within { from / 64 < length words.now }
    requires small { from < 2 ^ 20 }
    ensures { MatchOption result (NoneBeside words.now from) (IsLowestBeside words.now from) }
{
    let rest = words[(from / WIDTH) as usize] >> (from % WIDTH);
    if rest == 0 {
        None
    } else {
        Some(from + rest.trailing_zeros())
    }
}

impl Bits {
    /// No number below the limit is marked.
    pub fn make(alloc: Global, limit: u32) -> Result<Bits, NoMemory>
        requires most { limit ≤ 2 ^ 20 }
        ensures { IfOk result (λ made. made ≡ replicate limit false) }
    {
        let words = vec![in alloc; 0; ((limit + WIDTH - 1) / WIDTH) as usize]?;
        Ok(Bits { words, limit })
    }

    /// Whether a number is marked.
    pub fn get(&self, n: u32) -> bool
        requires inside { n < length self.now }
        ensures { slice_get self.now n ≡ Some result }
    {
        test_bit(&self.words, n)
    }

    /// Marks a number.
    pub fn set(&mut self, n: u32)
        requires inside { n < length self.old }
        ensures { self.new ≡ slice_set self.old n true }
    {
        set_bit(&mut self.words, n);
    }

    /// Takes the mark of a number away.
    pub fn clear(&mut self, n: u32)
        requires inside { n < length self.old }
        ensures { self.new ≡ slice_set self.old n false }
    {
        clear_bit(&mut self.words, n);
    }

    /// The lowest marked number from one on, among those that stand in the same word.
    pub fn next_beside(&self, from: u32) -> Option<u32>
        requires inside { from < length self.now }
        ensures { MatchOption result (NoneBetween self.now from (64 * (from / 64 + 1))) (IsNextBeside self.now from) }
    {
        lowest_beside(&self.words, from)
    }

    /// The lowest marked number from one on. It looks at each word from there on.
    pub fn next(&self, from: u32) -> Option<u32>
        ensures { MatchOption result (NoneFrom self.now from) (IsNext self.now from) }
    {
        let mut first = from;
        while first < self.limit {
            if let Some(n) = self.next_beside(first) {
                return Some(n);
            }
            first = WIDTH * (first / WIDTH + 1);
        }
        None
    }
}
