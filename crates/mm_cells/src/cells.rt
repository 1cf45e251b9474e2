// The cells of a region: which are taken, and what is told of the objects in them.
ghost use Rattle.std.specs.Prelude.{◌≡◌, ◌≢◌, ◌+◌, ◌*◌, ◌/◌, ◌<◌, ◌≤◌, ℕ, length, MatchOption, Some};
ghost use Rattle.mm_words.specs.Location.{location_of};
ghost use Rattle.mm_pages.specs.Pages.{Pages};
ghost use Rattle.mm_pages.specs.Parked.{AreParked};
ghost use Rattle.mm_cells.specs.Map.{table_size, use_at, mark_at};
ghost use Rattle.mm_cells.specs.Marks.{IsFlags, IsSought};
ghost use Rattle.mm_cells.specs.Cells.{Taken, fresh, with_cell, Begins, IsTaken, Covers, HasNoCell, IsSoundCells};
ghost use Rattle.mm_cells.specs.Cells.{IsNextTaken, NoneTakenFrom, IsWalk};
ghost use Rattle.mm_cells.specs.Kept.{class_size, cells_in, cells_of, KeepsCells};
ghost use Rattle.mm_cells.specs.Indexes.{IsLocated, IsTold, IsMarkIndex, NoneInPage, IsLowestInPage, IsTakenIn, NoneIn};
ghost use Rattle.mm_cells.specs.Indexes.{IsLowestIn};

use crate::class::{PAGE_BYTES, cells_per_page, extent_of, number_at};
use crate::marks::{CellBits, Mark, ObjectMark, Sought};
use crate::page_use::PageUse;
use crate::table::{CLASSES, PAGE_WORDS, Table};
use mm_model::{Colour, Size};
use mm_sets::set_words;
use mm_steps::Steps;
use mm_words::Words;
use std::marker::Model;
use std::sync::ledger::Ledger;

/// The cells of a region, which objects are put into. A cell is one of 19 sizes, or some whole pages.
///
/// The pages with cells are runs of a page heap, in which they stay parked. It stands on words of an arena, which go
/// back by `close`, and can't be dropped.
pub struct Cells {
    pub(crate) table: Table,
}

impl Model for Cells {
    ghost use Rattle.mm_cells.specs.Cells;
    ghost use Rattle.mm_cells.specs.Kept.{cells_of, KeepsCells};

    ghost Value = { Cells.Cells };

    ghost view = { λ c. cells_of c.table };

    ghost invariant = { λ c. KeepsCells c.table };
}

/// The room of a taken cell, in bytes.
#[derive(Clone, Copy, Debug, PartialEq, Eq)]
pub struct Cell {
    pub base: u32,
    pub extent: u32,
}

/// How many words the table of cells must have.
pub fn cells_words(pages: u32) -> u32
    requires two { 2 ≤ pages }
    requires most { pages ≤ 4096 }
    ensures { result ≡ table_size pages }
{
    PAGE_WORDS * pages + CLASSES * set_words(pages)
}

impl Cells {
    /// The cells of a region of at most so many pages. None is taken. The table's words may hold anything.
    pub fn make(table: Words, pages: u32) -> Cells
        requires two { 2 ≤ pages }
        requires most { pages ≤ 4096 }
        requires room { table_size pages ≤ length table.words }
        ensures value { result ≡ fresh (location_of table) pages }
        ensures empty { HasNoCell result }
        ensures parked { (heap : Pages) → heap.pages ≤ pages → AreParked result.runs heap }
        ensures sound { IsSoundCells result }
    {
        Cells {
            table: Table::make(table, pages),
        }
    }

    /// Gives the table's words back, which may hold anything.
    pub fn close(self) -> Words
        requires { HasNoCell self }
        ensures { location_of result ≡ self.table }
    {
        let Cells { table } = self;
        table.into_words()
    }

    /// The taken cell in which a word falls.
    #[inline(always)]
    pub fn resolve<L: Ledger>(&self, word: u32, steps: &mut Steps<L>) -> Option<Cell>
        ensures cell { MatchOption result
            ((base : ℕ) (cell : Taken) → Covers self.now word base cell → ⊥)
            (λ found. (cell : Taken) × Covers self.now word found.base cell × (cell.extent ≡ found.extent)) }
        ensures sound { IsSoundCells self.now }
        ensures cost { steps.new ≡ steps.old + 1 }
    {
        steps.tick();
        match locate(&self.table, word) {
            Some(located) => Some(located.cell),
            None => None,
        }
    }

    /// The colour of the object in a taken cell.
    #[inline]
    pub fn colour<L: Ledger>(&self, base: u32, steps: &mut Steps<L>) -> Colour
        requires { IsTaken self.now base }
        ensures colour { (cell : Taken) → Begins self.now base cell → result ≡ cell.colour }
        ensures sound { IsSoundCells self.now }
        ensures cost { steps.new ≡ steps.old + 1 }
    {
        steps.tick();
        object_mark_at(&self.table, mark_index_of(&self.table, base)).colour
    }

    #[inline]
    pub fn set_colour<L: Ledger>(&mut self, base: u32, colour: Colour, steps: &mut Steps<L>)
        requires { IsTaken self.old base }
        ensures colour { (cell : Taken) → Begins self.old base cell
            → self.new ≡ with_cell self.old base (Some (record cell { colour = colour })) }
        ensures sound { IsSoundCells self.new }
        ensures cost { steps.new ≡ steps.old + 1 }
    {
        steps.tick();
        self.paint(base, colour);
    }

    /// The same where there is no counter. It isn't counted.
    #[inline]
    pub fn paint(&mut self, base: u32, colour: Colour)
        requires { IsTaken self.old base }
        ensures colour { (cell : Taken) → Begins self.old base cell
            → self.new ≡ with_cell self.old base (Some (record cell { colour = colour })) }
        ensures sound { IsSoundCells self.new }
    {
        let index = mark_index_of(&self.table, base);
        self.table.set_colour(index.page, index.number, colour);
    }

    /// What else is told of the object in a taken cell.
    #[inline]
    pub fn flags<L: Ledger>(&self, base: u32, steps: &mut Steps<L>) -> CellBits
        requires { IsTaken self.now base }
        ensures flags { (cell : Taken) → Begins self.now base cell → result ≡ cell.flags }
        ensures sound { IsSoundCells self.now }
        ensures cost { steps.new ≡ steps.old + 1 }
    {
        steps.tick();
        object_mark_at(&self.table, mark_index_of(&self.table, base)).flags
    }

    pub fn set_flags<L: Ledger>(&mut self, base: u32, flags: CellBits, steps: &mut Steps<L>)
        requires taken { IsTaken self.old base }
        requires known { IsFlags flags }
        ensures flags { (cell : Taken) → Begins self.old base cell
            → self.new ≡ with_cell self.old base (Some (record cell { flags = flags })) }
        ensures sound { IsSoundCells self.new }
        ensures cost { steps.new ≡ steps.old + 1 }
    {
        steps.tick();
        let index = mark_index_of(&self.table, base);
        let told = object_mark_at(&self.table, index);
        self.table
            .set_mark(index.page, index.number, Mark::Taken(told.colour, flags));
    }

    /// The least base of a taken cell that is at least `from`. A page without taken cells costs one step.
    pub fn next_taken<L: Ledger>(&self, from: u32, steps: &mut Steps<L>) -> Option<u32>
        ensures base { MatchOption result (NoneTakenFrom self.now from) (λ base. IsNextTaken self.now from base) }
        ensures sound { IsSoundCells self.now }
        ensures cost { IsWalk self.now from result steps.old steps.new }
    {
        for page in from / PAGE_BYTES..self.table.pages() {
            steps.tick();
            if let Some(base) = lowest_in_page(&self.table, page, from, Sought::Taken) {
                return Some(base);
            }
        }
        None
    }
}

/// Where the mark of a cell stands.
#[derive(Clone, Copy)]
pub(crate) struct MarkIndex {
    pub(crate) page: u32,
    pub(crate) number: u32,
}

/// A taken cell, with where its mark stands and what that tells.
#[derive(Clone, Copy)]
pub(crate) struct Located {
    pub(crate) cell: Cell,
    pub(crate) index: MarkIndex,
    pub(crate) told: ObjectMark,
}

/// The taken cell in which a word falls.
#[inline(always)]
pub(crate) fn locate(table: &Table, word: u32) -> Option<Located>
    requires { KeepsCells table.now }
    ensures { MatchOption result
        ((base : ℕ) (cell : Taken) → Covers (cells_of table.now) word base cell → ⊥)
        (λ found. IsLocated table.now word found.index.page found.index.number found.cell.base found.cell.extent
        × IsTold table.now found) }
{
    let page = word / PAGE_BYTES;
    if table.pages() <= page {
        return None;
    }
    match table.use_at(page) {
        PageUse::Class(class) => small_cell(table, page, class, word % PAGE_BYTES),
        PageUse::First(count) => Some(whole_cell(table, page, count)),
        PageUse::Later(distance) => Some(cell_from(table, page - distance)),
        PageUse::Unused => None,
    }
}

/// The cell of a page of a class that has the byte which is so many bytes into the page, if it is taken.
#[inline(always)]
fn small_cell(table: &Table, page: u32, class: u32, offset: u32) -> Option<Located>
    requires page { page < table.now.pages }
    requires most { table.now.pages ≤ 4096 }
    requires class { class < 19 }
    requires offset { offset < 4096 }
    ensures { let number = offset / class_size class in MatchOption result
        (number < cells_in class → mark_at table.now page number ≡ Mark.Free)
        (λ found. IsTakenIn table.now page class number found.cell.base × (found.cell.extent ≡ class_size class)
        × (found.index.page ≡ page) × (found.index.number ≡ number) × IsTold table.now found) }
{
    let number = number_at(class, offset);
    if cells_per_page(class) <= number {
        return None;
    }
    match table.mark_at(page, number) {
        Mark::Free => None,
        Mark::Taken(colour, flags) => {
            let extent = extent_of(Size::Small(class));
            Some(Located {
                cell: Cell {
                    base: page * PAGE_BYTES + number * extent,
                    extent,
                },
                index: MarkIndex { page, number },
                told: ObjectMark { colour, flags },
            })
        }
    }
}

/// A cell of so many whole pages.
fn whole_cell(table: &Table, page: u32, count: u32) -> Located
    requires within { page < table.now.pages }
    requires most { table.now.pages ≤ 4096 }
    requires count { count ≤ 4096 }
    requires taken { mark_at table.now page 0 ≢ Mark.Free }
    ensures base { result.cell.base ≡ 4096 * page }
    ensures extent { result.cell.extent ≡ 4096 * count }
    ensures index { (result.index.page ≡ page) × (result.index.number ≡ 0) }
    ensures told { IsTold table.now result }
{
    let index = MarkIndex { page, number: 0 };
    Located {
        cell: Cell {
            base: page * PAGE_BYTES,
            extent: count * PAGE_BYTES,
        },
        index,
        told: object_mark_at(table, index),
    }
}

/// The cell whose first page it is.
fn cell_from(table: &Table, page: u32) -> Located
    requires within { page < table.now.pages }
    requires most { table.now.pages ≤ 4096 }
    requires first { (count : ℕ) × (use_at table.now page ≡ PageUse.First count) × (count ≤ 4096) }
    requires taken { mark_at table.now page 0 ≢ Mark.Free }
    ensures base { result.cell.base ≡ 4096 * page }
    ensures extent { (count : ℕ) → use_at table.now page ≡ PageUse.First count → result.cell.extent ≡ 4096 * count }
    ensures index { (result.index.page ≡ page) × (result.index.number ≡ 0) }
    ensures told { IsTold table.now result }
{
    match table.use_at(page) {
        PageUse::First(count) => whole_cell(table, page, count),
        _ => unreachable!(),
    }
}

/// Where the mark of the taken cell stands that begins at a base.
#[inline(always)]
pub(crate) fn mark_index_of(table: &Table, base: u32) -> MarkIndex
    requires kept { KeepsCells table.now }
    requires taken { IsTaken (cells_of table.now) base }
    ensures { IsMarkIndex table.now result.page result.number base }
{
    let page = base / PAGE_BYTES;
    let number = match table.use_at(page) {
        PageUse::Class(class) => number_at(class, base % PAGE_BYTES),
        _ => 0,
    };
    MarkIndex { page, number }
}

/// What the mark of a taken cell tells.
pub(crate) fn object_mark_at(table: &Table, index: MarkIndex) -> ObjectMark
    requires page { index.page < table.now.pages }
    requires number { index.number < 256 }
    requires taken { mark_at table.now index.page index.number ≢ Mark.Free }
    ensures mark { mark_at table.now index.page index.number ≡ Mark.Taken result.colour result.flags }
    ensures known { IsFlags result.flags }
{
    table.object_mark_at(index.page, index.number)
}

/// The least base at `from` or above of the cells that are sought and begin in a page.
pub(crate) fn lowest_in_page(table: &Table, page: u32, from: u32, sought: Sought) -> Option<u32>
    requires kept { KeepsCells table.now }
    requires page { page < table.now.pages }
    ensures { let v = cells_of table.now in
        MatchOption result (NoneInPage v page sought from) (λ base. IsLowestInPage v page sought from base) }
{
    let start = page * PAGE_BYTES;
    match table.use_at(page) {
        PageUse::Class(class) => {
            lowest_small(table, page, class, from.saturating_sub(start), sought)
        }
        PageUse::First(_) => lowest_whole(table, page, from, sought),
        PageUse::Unused | PageUse::Later(_) => None,
    }
}

/// The base of the lowest cell of a page of a class that is sought and begins at least so many bytes into the page.
fn lowest_small(table: &Table, page: u32, class: u32, offset: u32, sought: Sought) -> Option<u32>
    requires page { page < table.now.pages }
    requires most { table.now.pages ≤ 4096 }
    requires class { class < 19 }
    ensures { MatchOption result (NoneIn table.now page class sought offset)
        (λ base. IsLowestIn table.now page class sought offset base) }
{
    let size = extent_of(Size::Small(class));
    let number = table.lowest_sought(page, offset.div_ceil(size), cells_per_page(class), sought)?;
    Some(page * PAGE_BYTES + number * size)
}

/// The base of the first page of a cell of whole pages, if the cell is sought and begins at `from` or above.
fn lowest_whole(table: &Table, page: u32, from: u32, sought: Sought) -> Option<u32>
    requires page { page < table.now.pages }
    requires most { table.now.pages ≤ 4096 }
    ensures { MatchOption result (IsSought sought (mark_at table.now page 0) → 4096 * page < from)
        (λ base. IsSought sought (mark_at table.now page 0) × (base ≡ 4096 * page) × (from ≤ base)) }
{
    let start = page * PAGE_BYTES;
    if start < from {
        return None;
    }
    table.lowest_sought(page, 0, 1, sought)?;
    Some(start)
}
