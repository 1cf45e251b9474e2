ghost use Rattle.std.specs.Prelude.{◌≡◌, ◌+◌, ◌-◌, ◌^◌, ◌<◌, ◌≤◌, [], IfOk, length, take};
ghost use Rattle.mm_words.specs.Piece.{with_words};
ghost use Rattle.mm_words.specs.Runs.{IsRun};
ghost use Rattle.mm_words.specs.Arena.{whole, blank_piece, with_cut, with_uncut, with_back, IsLast};

use crate::NoMemory;
use crate::backing::Backing;
use crate::run::Run;
use crate::words::Words;
use core::mem::replace_with;
use std::alloc::Global;
use std::marker::Model;

/// One allocation of words, from which pieces are cut one behind the other. Words that came back are
/// not cut again. It ends by `close`, and can't be dropped.
pub struct Arena {
    // `backing.rest.len`, where a method can read it.
    spare: u32,
    backing: Backing,
    alloc: Global,
}

impl Model for Arena {
    ghost use Rattle.mm_words.specs.Arena;

    ghost Value = { Arena.Arena };

    ghost use Rattle.std.specs.Prelude.{◌≡◌};
    ghost use Rattle.mm_words.specs.Tally.{arena_of};

    ghost view = { λ a. arena_of a.backing };

    ghost invariant = { λ a. a.spare ≡ (arena_of a.backing).spare };
}

impl Arena {
    /// An arena of `total` words, none of them cut. This is the one call that takes memory.
    pub fn make(alloc: Global, total: u32) -> Result<Arena, NoMemory>
        ensures { IfOk result (λ a. a ≡ whole a.name total) }
    {
        let backing = Backing::make(&alloc, total)?;
        Ok(Arena {
            spare: total,
            backing,
            alloc,
        })
    }

    /// How many words are not yet cut.
    pub fn spare(&self) -> u32
        ensures value { result ≡ self.now.spare }
        ensures within { self.now.spare + self.now.out ≤ self.now.total }
    {
        self.spare
    }

    fn cut(&mut self, n: u32) -> Run
        requires { n ≤ self.old.spare }
        ensures arena { self.new ≡ with_cut self.old n }
        ensures run { IsRun result self.old.name (self.old.total - self.old.spare) n [] }
        ensures small { self.old.total < 2 ^ 32 }
    {
        self.spare -= n;
        replace_with(&mut self.backing, n, Backing::cut)
    }

    /// Cuts the next `n` words.
    pub fn carve(&mut self, n: u32) -> Words
        requires { n ≤ self.old.spare }
        ensures piece { result ≡ blank_piece self.old n }
        ensures arena { self.new ≡ with_cut self.old n }
    {
        let run = self.cut(n);
        Words::blank(run, n)
    }

    /// The words of a piece come back. The order in which pieces come back is free.
    pub fn take_back(&mut self, w: Words)
        requires { w.arena ≡ self.old.name }
        ensures was_out { length w.words ≤ self.old.out }
        ensures arena { self.new ≡ with_back self.old (length w.words) }
    {
        let run = w.into_run();
        replace_with(&mut self.backing, run, Backing::take_back);
    }

    /// Gives the memory back. A piece of no words holds none of it.
    pub fn close(self)
        requires { self.out ≡ 0 }
    {
        let Arena {
            spare: _,
            backing,
            alloc,
        } = self;
        backing.end(&alloc);
    }

    /// Adds the next `n` words to the piece that was cut last. They may hold any values.
    pub fn lengthen(&mut self, w: &mut Words, n: u32)
        requires last { IsLast self.old w.old }
        requires room { n ≤ self.old.spare }
        ensures arena { self.new ≡ with_cut self.old n }
        ensures stays { (w.new.arena ≡ w.old.arena) × (w.new.place ≡ w.old.place) }
        ensures words { take (length w.old.words) w.new.words ≡ w.old.words }
        ensures longer { length w.new.words ≡ length w.old.words + n }
    {
        let run = self.cut(n);
        w.grow(run, n);
    }

    /// Takes the last `n` words of the piece that was cut last.
    pub fn shorten(&mut self, w: &mut Words, n: u32)
        requires last { IsLast self.old w.old }
        requires within { n ≤ length w.old.words }
        ensures arena { self.new ≡ with_uncut self.old n }
        ensures piece { w.new ≡ with_words w.old (take (length w.old.words - n) w.old.words) }
    {
        let run = w.shrink(n);
        replace_with(&mut self.backing, run, Backing::uncut);
        self.spare += n;
    }
}
