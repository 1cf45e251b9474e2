ghost use Rattle.std.specs.Prelude.{◌≡◌, ◌+◌, ◌-◌, ◌^◌, ◌<◌, ◌≤◌, [], ◌++◌};
ghost use Rattle.std.specs.Prelude.{length, take, replicate, slice_index, slice_range, slice_set};
ghost use Rattle.std.specs.Borrow.{sem};
ghost use Rattle.std_alloc.specs.Vec.{vec_ptr, vec_len, vec_capacity};
ghost use Rattle.mm_words.specs.Piece.{with_words, Apart};
ghost use Rattle.mm_words.specs.Runs.{IsRun};
ghost use Rattle.mm_words.specs.Writes.{written};

use crate::loan::Loan;
use crate::run::Run;
use core::mem::replace_with;
use std::marker::Model;
use std_alloc::vec::{Lodged, Vec};

/// Words that were cut from an arena. They go back by `Arena::take_back`, and can't be dropped.
pub struct Words {
    row: Vec<u32, Lodged>,
    loan: Loan,
}

impl Model for Words {
    ghost use Rattle.mm_words.specs.Piece.{Piece};

    ghost Value = { Piece };

    ghost use Rattle.mm_words.specs.Seated.{IsFull};

    ghost view = { λ w. record { arena = w.loan.arena; place = w.loan.place; words = w.row.items } };

    ghost invariant = { λ w. IsFull w.row w.loan };
}

impl Words {
    ghost use Rattle.mm_words.specs.Lending.{LendsPart};

    /// The number of words.
    pub fn len(&self) -> u32
        ensures { result ≡ length self.now.words }
    {
        self.row.len() as u32
    }

    pub fn get(&self, i: u32) -> u32
        requires { i < length self.now.words }
        ensures { result ≡ slice_index self.now.words i }
    {
        self.row[i as usize]
    }

    pub fn set(&mut self, i: u32, w: u32)
        requires { i < length self.old.words }
        ensures { self.new ≡ with_words self.old (slice_set self.old.words i w) }
    {
        self.row[i as usize] = w;
    }

    /// Writes `w` into each of the `n` words from `from` on.
    pub fn fill(&mut self, from: u32, n: u32, w: u32)
        requires { from + n ≤ length self.old.words }
        ensures { self.new ≡ with_words self.old (written from (replicate n w) self.old.words) }
    {
        self.part_mut(from, n).fill(w);
    }

    /// Lends the `n` words from `from` on.
    pub fn part(&self, from: u32, n: u32) -> &[u32]
        requires { from + n ≤ length self.now.words }
        ensures { result.now ≡ slice_range self.now.words from (from + n) }
    {
        let from = from as usize;
        &self.row.as_slice()[from..from + n as usize]
    }

    /// Lends the `n` words from `from` on, to be written.
    pub fn part_mut(&mut self, from: u32, n: u32) -> &mut [u32]
        requires { from + n ≤ length self.old.words }
        ensures* writes_back { sem 𝓛 (LendsPart self.entry from result) }
        ensures value { result.now ≡ slice_range self.old.words from (from + n) }
    {
        let from = from as usize;
        self.row.slice_mut(from..from + n as usize)
    }

    /// Does nothing: its contract says that two pieces of one arena never overlap.
    pub fn apart(self, other: Words) -> (Words, Words)
        requires { other.arena ≡ self.arena }
        ensures same { (result.0 ≡ self) × (result.1 ≡ other) }
        ensures apart { Apart self other }
    {
        let (len, more) = (self.len(), other.len());
        let (run, next) = self.into_run().apart(other.into_run());
        let (row, loan) = run.open(len);
        let words = Words { row, loan };
        let (row, loan) = next.open(more);
        (words, Words { row, loan })
    }

    // The words of the run, all 0.
    pub(crate) fn blank(run: Run, n: u32) -> Words
        requires { (run.words ≡ []) × (run.len ≡ n) }
        ensures place { (result.arena ≡ run.arena) × (result.place ≡ run.place) }
        ensures words { result.words ≡ replicate n 0 }
    {
        let (row, loan) = run.open(0);
        let row = with_zeros(row, n as usize);
        Words { row, loan }
    }

    pub(crate) fn into_run(self) -> Run
        ensures { IsRun result self.arena self.place (length self.words) self.words }
    {
        let Words { row, loan } = self;
        Run::close(row, loan)
    }

    // The run lies right behind the words.
    fn with_run(self, run: (Run, u32)) -> (Words, ())
        requires beside { (run.0.arena ≡ self.arena) × (run.0.place ≡ self.place + length self.words) }
        requires fits { (run.0.len ≡ run.1) × (length self.words + run.1 < 2 ^ 32) }
        ensures { result.0 ≡ with_words self (self.words ++ replicate run.1 0) }
    {
        let (next, n) = run;
        let len = self.len();
        let (row, loan) = self.into_run().join(next).open(len);
        let row = with_zeros(row, n as usize);
        (Words { row, loan }, ())
    }

    pub(crate) fn grow(&mut self, run: Run, n: u32)
        requires beside { (run.arena ≡ self.old.arena) × (run.place ≡ self.old.place + length self.old.words) }
        requires fits { (run.len ≡ n) × (length self.old.words + n < 2 ^ 32) }
        ensures { self.new ≡ with_words self.old (self.old.words ++ replicate n 0) }
    {
        replace_with(self, (run, n), Words::with_run);
    }

    fn without_last(self, n: u32) -> (Words, Run)
        requires { n ≤ length self.words }
        ensures words { result.0 ≡ with_words self (take (length self.words - n) self.words) }
        ensures run { IsRun result.1 self.arena (self.place + (length self.words - n)) n [] }
    {
        let len = self.len() - n;
        let (last, first) = self.into_run().cut(len);
        let (row, loan) = first.open(len);
        (Words { row, loan }, last)
    }

    pub(crate) fn shrink(&mut self, n: u32) -> Run
        requires { n ≤ length self.old.words }
        ensures words { self.new ≡ with_words self.old (take (length self.old.words - n) self.old.words) }
        ensures run { IsRun result self.old.arena (self.old.place + (length self.old.words - n)) n [] }
    {
        replace_with(self, n, Words::without_last)
    }
}

// Adds `n` zeros, for which there is room.
fn with_zeros(row: Vec<u32, Lodged>, n: usize) -> Vec<u32, Lodged>
    requires { vec_len row + n ≤ vec_capacity row }
    ensures items { result.items ≡ row.items ++ replicate n 0 }
    ensures len { vec_len result ≡ vec_len row + n }
    ensures in_place { (vec_capacity result ≡ vec_capacity row) × (vec_ptr result ≡ vec_ptr row) }
{
    let mut row = row;
    for _ in 0..n {
        row.push_reserved(0);
    }
    row
}
