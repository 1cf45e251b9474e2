// The zero-count table.
ghost use Rattle.std.specs.Prelude.{◌≡◌, ◌*◌, ◌-◌, ◌^◌, ◌≤◌, ◌<◌, ◌+◌, ◌++◌, ◌∷◌, [], length, slice_index};
ghost use Rattle.mm_words.specs.Location.{location_of};
ghost use Rattle.mm_count.specs.Table.{fresh, with_entries, without_place};

use mm_steps::Steps;
use mm_words::Words;
use std::marker::Model;
use std::sync::ledger::Ledger;

/// The counted objects that have no reference from memory, and may be named by the stack alone.
///
/// It stands on words of an arena. They come back by `close`, and the table can't be dropped.
pub struct ZeroTable {
    table: Words,
    len: u32,
    pages: u32,
}

impl Model for ZeroTable {
    ghost use Rattle.mm_count.specs.Table;
    ghost use Rattle.mm_count.specs.Kept.{table_of, KeepsTable};

    ghost Value = { Table.Table };

    ghost view = { λ t. table_of t.table t.len t.pages };

    ghost invariant = { λ t. KeepsTable t.table t.len t.pages };
}

impl ZeroTable {
    /// An empty table for the objects of so many pages. The words may hold anything.
    pub fn make(table: Words, pages: u32) -> ZeroTable
        requires { 256 * (pages - 1) ≤ length table.words }
        ensures { result ≡ fresh (location_of table) pages }
    {
        ZeroTable {
            table,
            len: 0,
            pages,
        }
    }

    /// Gives the words back, which may hold anything.
    pub fn close(self) -> Words
        ensures { location_of result ≡ self.location }
    {
        let ZeroTable {
            table,
            len: _,
            pages: _,
        } = self;
        table
    }

    /// The number of entries.
    pub fn len(&self) -> u32
        ensures { result ≡ length self.now.entries }
    {
        self.len
    }

    /// The base of the object at place `k`.
    pub fn entry<L: Ledger>(&self, k: u32, steps: &mut Steps<L>) -> u32
        requires { k < length self.now.entries }
        ensures base { result ≡ slice_index self.now.entries k }
        ensures cost { steps.new ≡ steps.old + 1 }
    {
        steps.tick();
        self.table.get(k)
    }

    /// Puts a base behind the last entry.
    pub(crate) fn push(&mut self, base: u32)
        requires room { length self.old.entries < 256 * (self.old.pages - 1) }
        requires few { length self.old.entries < 2 ^ 20 }
        ensures { self.new ≡ with_entries self.old (self.old.entries ++ base ∷ []) }
    {
        self.table.set(self.len, base);
        self.len += 1;
    }

    /// Puts the last entry into a place, and answers its base.
    pub(crate) fn pull(&mut self, place: u32) -> u32
        requires { place < length self.old.entries }
        ensures last { result ≡ slice_index self.old.entries (length self.old.entries - 1) }
        ensures entries { self.new ≡ with_entries self.old (without_place self.old.entries place) }
    {
        self.len -= 1;
        let last = self.table.get(self.len);
        self.table.set(place, last);
        last
    }
}
