// The words of the table of areas, and what stands where in them.
ghost use Rattle.std.specs.Prelude.{◌≡◌, ◌≢◌, ℕ, ◌+◌, ◌*◌, ◌<◌, ◌≤◌, true, false, Some, None, List, Option, length};
ghost use Rattle.std.specs.Prelude.{MatchOption, slice_index_or, slice_set, replicate};
ghost use Rattle.mm_sets.specs.Set.{members, IsSet, Admits};
ghost use Rattle.mm_model.specs.Areas.{most_areas};
ghost use Rattle.mm_words.specs.Location.{location_of};
ghost use Rattle.mm_roots.specs.Areas.{IsAreaShape};
ghost use Rattle.mm_roots.specs.Kept.{set_part, WritesMember, IsLowestFree, AreAllTaken};
ghost use Rattle.mm_roots.specs.Kept.{NoneScannedFrom, IsNextScanned};

use crate::area_shape::AreaShape;
use mm_cells::{class_of, extent_of};
use mm_sets::{clear, contains, insert, lowest, lowest_from, remove};
use mm_words::Words;
use std::marker::Model;

/// The bytes of a cell.
pub(crate) const CELL_BYTES: u32 = 4;

/// How many areas may live at once. Their numbers are below it.
pub const MOST_AREAS: u32 = 1024;

/// How many words a set of their numbers takes.
const SET_WORDS: u32 = 36;

// The set of free numbers comes first, then the set of scanned ones, and then three words for each number.
const FREE: u32 = 0;

const SCANNED: u32 = SET_WORDS;

const BASES: u32 = 2 * SET_WORDS;

const COUNTED: u32 = BASES + MOST_AREAS;

const CELLS: u32 = COUNTED + MOST_AREAS;

/// Makes the words the set of all numbers.
fn fill_set(set: &mut [u32])
    requires { length set.old ≡ 36 }
    ensures set { IsSet most_areas set.new }
    ensures full { (number : ℕ) → number < most_areas → members set.new number ≡ true }
{
    clear(set, MOST_AREAS);
    for number in 0..MOST_AREAS {
        insert(set, number);
    }
}

/// Makes a number a member of a set, or no member.
fn set_member(set: &mut [u32], number: u32, is_member: bool)
    requires { Admits number set.old }
    ensures member { members set.new number ≡ is_member }
    ensures others { (other : ℕ) → other ≢ number → members set.new other ≡ members set.old other }
    ensures set { (limit : ℕ) → number < limit → IsSet limit set.old → IsSet limit set.new }
{
    if is_member {
        insert(set, number);
    } else {
        remove(set, number);
    }
}

/// Makes a number a member of the set that begins at a word of the table, or no member.
fn write_member(table: &mut Words, from: u32, number: u32, is_member: bool)
    requires room { from + 36 ≤ length table.old.words }
    requires set { IsSet most_areas (set_part table.old.words from) }
    requires number { number < most_areas }
    ensures { WritesMember table.old table.new from number is_member }
{
    set_member(table.part_mut(from, SET_WORDS), number, is_member);
}

/// For each number the area that has it, in words of an arena.
pub(crate) struct AreaTable {
    words: Words,
}

impl Model for AreaTable {
    ghost use Rattle.mm_roots.specs.Kept.{AreaRows, rows_of, KeepsTable};

    ghost Value = { AreaRows };

    ghost view = { λ t. rows_of t.words };

    ghost invariant = { λ t. KeepsTable t.words };
}

impl AreaTable {
    /// A table without areas. The words may hold anything.
    pub fn make(words: Words) -> AreaTable
        requires { 4096 ≤ length words.words }
        ensures location { result.location ≡ location_of words }
        ensures areas { result.areas ≡ replicate most_areas None }
    {
        let mut words = words;
        clear(words.part_mut(SCANNED, SET_WORDS), MOST_AREAS);
        fill_set(words.part_mut(FREE, SET_WORDS));
        AreaTable { words }
    }

    /// The words, which may hold anything.
    pub fn into_words(self) -> Words
        ensures { location_of result ≡ self.location }
    {
        let AreaTable { words } = self;
        words
    }

    /// The area that has a number.
    pub fn area(&self, number: u32) -> Option<AreaShape>
        ensures { result ≡ slice_index_or self.now.areas number None }
    {
        let free = self.words.part(FREE, SET_WORDS);
        if number >= MOST_AREAS {
            return None;
        }
        if contains(free, number) {
            return None;
        }
        let cells = self.words.get(CELLS + number);
        Some(AreaShape {
            scanned: contains(self.words.part(SCANNED, SET_WORDS), number),
            counted: self.words.get(COUNTED + number),
            cells,
            base: self.words.get(BASES + number),
            extent: extent_of(class_of(CELL_BYTES * cells)),
        })
    }

    /// Gives a number an area.
    pub fn enter(&mut self, number: u32, area: AreaShape)
        requires number { number < most_areas }
        requires shape { IsAreaShape area }
        ensures location { self.new.location ≡ self.old.location }
        ensures areas { self.new.areas ≡ slice_set self.old.areas number (Some area) }
    {
        self.words.set(BASES + number, area.base);
        self.words.set(COUNTED + number, area.counted);
        self.words.set(CELLS + number, area.cells);
        write_member(&mut self.words, SCANNED, number, area.scanned);
        write_member(&mut self.words, FREE, number, false);
    }

    /// Makes a number free.
    pub fn leave(&mut self, number: u32)
        requires { number < most_areas }
        ensures location { self.new.location ≡ self.old.location }
        ensures areas { self.new.areas ≡ slice_set self.old.areas number None }
    {
        write_member(&mut self.words, SCANNED, number, false);
        write_member(&mut self.words, FREE, number, true);
    }

    /// The lowest number that no area has.
    pub fn lowest_free(&self) -> Option<u32>
        ensures { MatchOption result (AreAllTaken self.now.areas) (IsLowestFree self.now.areas) }
    {
        lowest(self.words.part(FREE, SET_WORDS))
    }

    /// The least number of a scanned area that is at least `from`.
    pub fn next_scanned(&self, from: u32) -> Option<u32>
        ensures { MatchOption result (NoneScannedFrom self.now.areas from) (IsNextScanned self.now.areas from) }
    {
        lowest_from(self.words.part(SCANNED, SET_WORDS), from)
    }
}
