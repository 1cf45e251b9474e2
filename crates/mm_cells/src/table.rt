// The words of the cells' table, and what stands where in them.
ghost use Rattle.std.specs.Prelude.{◌≡◌, ◌≢◌, ℕ, ◌+◌, ◌*◌, ◌/◌, ◌<◌, ◌≤◌, ◌↔◌, length, MatchOption, true};
ghost use Rattle.mm_sets.specs.Set.{set_size, members, IsSet, Admits};
ghost use Rattle.mm_cells.specs.Marks.{code_of, IsMark, NoneFree, IsLowestFree, NoneSought, IsLowestSought};
ghost use Rattle.mm_cells.specs.Uses.{use_in_whole, IsUse, StandsAlone};
ghost use Rattle.mm_cells.specs.Spans.{SetsUses, AreUnused, AreWhole};
ghost use Rattle.mm_cells.specs.Map.{use_at, mark_at, room_at, SetsUse, SetsMark, FreesPage, WhitensPage, SetsRoom};
ghost use Rattle.mm_cells.specs.Map.{NoPageWithRoom, IsLowestRoom, code_at};

use crate::marks::{CellBits, Mark, Neighbours, ObjectMark, Sought};
use crate::page_use::PageUse;
use crate::{marks, page_use};
use mm_model::Colour;
use mm_sets::{insert, lowest, remove, set_words};
use mm_words::Words;
use std::marker::Model;

/// How many words the marks of a page take, and how many its use and its marks.
const MARK_WORDS: u32 = 32;

pub(crate) const PAGE_WORDS: u32 = 1 + MARK_WORDS;

/// How many size classes there are.
pub(crate) const CLASSES: u32 = 19;

/// Some words of a table in a row.
#[derive(Clone, Copy)]
struct Part {
    start: u32,
    len: u32,
}

/// The words of the pages' uses.
fn uses_part(pages: u32) -> Part
    ensures start { result.start ≡ 0 }
    ensures len { result.len ≡ pages }
{
    Part {
        start: 0,
        len: pages,
    }
}

/// The words of the marks.
fn marks_part(pages: u32) -> Part
    requires { pages ≤ 4096 }
    ensures start { result.start ≡ pages }
    ensures len { result.len ≡ 32 * pages }
{
    Part {
        start: pages,
        len: MARK_WORDS * pages,
    }
}

/// The words of the sets of pages that have room.
fn sets_part(pages: u32) -> Part
    requires { pages ≤ 4096 }
    ensures start { result.start ≡ 33 * pages }
    ensures len { result.len ≡ 19 * set_size pages }
{
    Part {
        start: PAGE_WORDS * pages,
        len: CLASSES * set_words(pages),
    }
}

/// The words of the set of a class.
fn set_part(pages: u32, class: u32) -> Part
    requires most { pages ≤ 4096 }
    requires class { class < 19 }
    ensures start { result.start ≡ 33 * pages + class * set_size pages }
    ensures len { result.len ≡ set_size pages }
{
    let len = set_words(pages);
    Part {
        start: sets_part(pages).start + class * len,
        len,
    }
}

/// Makes a page a member of a set, or no member.
fn set_member(set: &mut [u32], page: u32, is_member: bool)
    requires { Admits page set.old }
    ensures member { members set.new page ≡ is_member }
    ensures others { (other : ℕ) → other ≢ page → members set.new other ≡ members set.old other }
    ensures set { (limit : ℕ) → page < limit → IsSet limit set.old → IsSet limit set.new }
{
    if is_member {
        insert(set, page);
    } else {
        remove(set, page);
    }
}

/// A use for each page, marks for 256 cells of each page, and for each class the set of its pages that have room.
pub(crate) struct Table {
    words: Words,
    pages: u32,
}

impl Model for Table {
    ghost use Rattle.mm_cells.specs.Map.{Map, map_of, FitsTable};

    ghost Value = { Map };

    ghost view = { λ t. map_of t.words t.pages };

    ghost invariant = { λ t. FitsTable t.words t.pages };
}

impl Table {
    ghost use Rattle.mm_words.specs.Location.{location_of};
    ghost use Rattle.mm_cells.specs.Map.{table_size, IsUntouched};

    /// A table of unused pages. The words may hold anything.
    pub fn make(words: Words, pages: u32) -> Table
        requires two { 2 ≤ pages }
        requires most { pages ≤ 4096 }
        requires room { table_size pages ≤ length words.words }
        ensures { IsUntouched (location_of words) pages result }
    {
        let mut words = words;
        let uses = uses_part(pages);
        words.fill(uses.start, uses.len, 0);
        let sets = sets_part(pages);
        words.fill(sets.start, sets.len, 0);
        Table { words, pages }
    }

    /// The words, which may hold anything.
    pub fn into_words(self) -> Words
        ensures { location_of result ≡ self.location }
    {
        let Table { words, pages: _ } = self;
        words
    }

    /// How many pages there are.
    pub fn pages(&self) -> u32
        ensures value { result ≡ self.now.pages }
        ensures two { 2 ≤ self.now.pages }
        ensures most { self.now.pages ≤ 4096 }
    {
        self.pages
    }

    /// What a page is used for.
    #[inline]
    pub fn use_at(&self, page: u32) -> PageUse
        requires { page < self.now.pages }
        ensures { result ≡ use_at self.now page }
    {
        let part = uses_part(self.pages);
        page_use::use_in(self.words.part(part.start, part.len), page)
    }

    /// Gives a page by itself another use.
    pub fn set_use(&mut self, page: u32, page_use: PageUse)
        requires within { page < self.old.pages }
        requires small { IsUse page_use }
        requires was_alone { StandsAlone (use_at self.old page) }
        requires alone { StandsAlone page_use }
        ensures { SetsUse self.old self.new page page_use }
    {
        let part = uses_part(self.pages);
        page_use::set_use(self.words.part_mut(part.start, part.len), page, page_use);
    }

    /// Makes so many unused pages those of one cell.
    pub fn set_whole(&mut self, first: u32, count: u32)
        requires some { 0 < count }
        requires within { first + count ≤ self.old.pages }
        requires unused { AreUnused self.old first count }
        ensures { SetsUses self.old self.new first count (use_in_whole count) }
    {
        let part = uses_part(self.pages);
        page_use::set_whole(self.words.part_mut(part.start, part.len), first, count);
    }

    /// Makes the pages of one cell unused, however many they are.
    pub fn clear_whole(&mut self, first: u32)
        requires { first < self.old.pages }
        ensures { (count : ℕ) → 0 < count → AreWhole self.old first count
            → SetsUses self.old self.new first count (λ distance. PageUse.Unused) }
    {
        let part = uses_part(self.pages);
        page_use::clear_whole(self.words.part_mut(part.start, part.len), first);
    }

    /// The mark of a cell of a page.
    pub fn mark_at(&self, page: u32, cell: u32) -> Mark
        requires page { page < self.now.pages }
        requires cell { cell < 256 }
        ensures { result ≡ mark_at self.now page cell }
    {
        let marks = self.marks();
        marks::mark_at(marks, 256 * page + cell)
    }

    pub fn set_mark(&mut self, page: u32, cell: u32, mark: Mark)
        requires page { page < self.old.pages }
        requires cell { cell < 256 }
        requires mark { IsMark mark }
        ensures set { SetsMark self.old self.new page cell mark }
        ensures code { code_at self.new page cell ≡ code_of mark }
    {
        let part = marks_part(self.pages);
        marks::set_mark(
            self.words.part_mut(part.start, part.len),
            256 * page + cell,
            mark,
        );
    }

    /// Makes one of the cells of a page free, of which there are so many, and tells of those whose marks stand in the
    /// same word.
    pub fn free_cell(&mut self, page: u32, cell: u32, cells: u32) -> Neighbours
        requires page { page < self.old.pages }
        requires cell { cell < cells }
        requires cells { cells ≤ 256 }
        ensures free { SetsMark self.old self.new page cell Mark.Free }
        ensures code { code_at self.new page cell ≡ code_of Mark.Free }
        ensures had_free { (result.had_free ≡ true) ↔ ((other : ℕ) × (other / 8 ≡ cell / 8) × (other < cells)
            × (mark_at self.old page other ≡ Mark.Free)) }
        ensures has_taken { (result.has_taken ≡ true) ↔ ((other : ℕ) × (other / 8 ≡ cell / 8) × (other < cells)
            × (mark_at self.new page other ≢ Mark.Free)) }
    {
        let part = marks_part(self.pages);
        marks::free_cell(
            self.words.part_mut(part.start, part.len),
            256 * page + cell,
            cells - cell / 8 * 8,
        )
    }

    /// Makes all 256 cells of a page free.
    pub fn free_page(&mut self, page: u32)
        requires { page < self.old.pages }
        ensures { FreesPage self.old self.new page }
    {
        let part = marks_part(self.pages);
        marks::fill_free(self.words.part_mut(part.start, part.len), MARK_WORDS * page);
    }

    /// Makes the taken ones of the first cells of a page white, whose marks stand in so many words.
    pub fn whiten(&mut self, page: u32, words: u32)
        requires page { page < self.old.pages }
        requires words { words ≤ 32 }
        ensures { WhitensPage self.old self.new page words }
    {
        let part = marks_part(self.pages);
        marks::whiten(
            self.words.part_mut(part.start, part.len),
            MARK_WORDS * page,
            words,
        );
    }

    /// The lowest free one of the first cells of a page, of which those below `from` are taken.
    pub fn lowest_free(&self, page: u32, from: u32, cells: u32) -> Option<u32>
        requires page { page < self.now.pages }
        requires cells { cells ≤ 256 }
        requires passed { NoneFree (mark_at self.now page) from }
        ensures { let marks = mark_at self.now page in
            MatchOption result (NoneFree marks cells) (λ cell. IsLowestFree marks cells cell) }
    {
        let marks = self.marks();
        marks::lowest_free(marks, MARK_WORDS * page, from, cells)
    }

    /// The lowest one of the cells of a page from `from` to before `cells` whose mark is sought.
    pub fn lowest_sought(&self, page: u32, from: u32, cells: u32, sought: Sought) -> Option<u32>
        requires page { page < self.now.pages }
        requires cells { cells ≤ 256 }
        ensures { let marks = mark_at self.now page in
            MatchOption result (NoneSought sought marks from cells)
            (λ cell. IsLowestSought sought marks from cells cell) }
    {
        let marks = self.marks();
        marks::lowest_sought(marks, MARK_WORDS * page, from, cells, sought)
    }

    /// The lowest page of a class that has room.
    pub fn page_with_room(&self, class: u32) -> Option<u32>
        requires { class < 19 }
        ensures { MatchOption result (NoPageWithRoom self.now class) (λ page. IsLowestRoom self.now class page) }
    {
        let part = set_part(self.pages, class);
        lowest(self.words.part(part.start, part.len))
    }

    /// Notes whether a page of a class has room.
    pub fn set_room(&mut self, class: u32, page: u32, has_room: bool)
        requires class { class < 19 }
        requires page { page < self.old.pages }
        ensures { SetsRoom self.old self.new class page has_room }
    {
        let part = set_part(self.pages, class);
        set_member(self.words.part_mut(part.start, part.len), page, has_room);
    }
}

impl Table {
    fn marks(&self) -> &[u32]
        ensures part { result.now ≡ self.now.marks }
        ensures sized { length result.now ≡ 32 * self.now.pages }
        ensures most { self.now.pages ≤ 4096 }
    {
        let part = marks_part(self.pages);
        self.words.part(part.start, part.len)
    }

    /// What the mark of a taken cell of a page tells.
    pub fn object_mark_at(&self, page: u32, cell: u32) -> ObjectMark
        requires page { page < self.now.pages }
        requires cell { cell < 256 }
        requires taken { mark_at self.now page cell ≢ Mark.Free }
        ensures { mark_at self.now page cell ≡ Mark.Taken result.colour result.flags }
    {
        let marks = self.marks();
        marks::object_mark_at(marks, 256 * page + cell)
    }

    /// Makes a white cell of a page gray.
    pub fn make_gray(&mut self, page: u32, cell: u32)
        requires page { page < self.old.pages }
        requires cell { cell < 256 }
        requires white { (flags : CellBits) × (mark_at self.old page cell ≡ Mark.Taken Colour.White flags) }
        ensures { (flags : CellBits) → mark_at self.old page cell ≡ Mark.Taken Colour.White flags
            → SetsMark self.old self.new page cell (Mark.Taken Colour.Gray flags) }
    {
        let part = marks_part(self.pages);
        marks::make_gray(self.words.part_mut(part.start, part.len), 256 * page + cell);
    }

    /// Gives the object in a taken cell of a page another colour.
    pub fn set_colour(&mut self, page: u32, cell: u32, colour: Colour)
        requires page { page < self.old.pages }
        requires cell { cell < 256 }
        ensures { (its : Colour) (flags : CellBits) → mark_at self.old page cell ≡ Mark.Taken its flags
            → SetsMark self.old self.new page cell (Mark.Taken colour flags) }
    {
        let part = marks_part(self.pages);
        marks::set_colour(
            self.words.part_mut(part.start, part.len),
            256 * page + cell,
            colour,
        );
    }
}
