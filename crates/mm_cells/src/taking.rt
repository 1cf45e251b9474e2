// What taking a cell or giving it back changes in the table. A fresh page is rare, so taking one isn't inlined.
ghost use Rattle.std.specs.Prelude.{◌≡◌, ◌≢◌, ◌+◌, ◌*◌, ◌/◌, ◌<◌, ◌≤◌, ℕ, Some, None, ◌↔◌, Bool, true};
ghost use Rattle.std.specs.Prelude.{false};
ghost use Rattle.mm_cells.specs.declared.page_use.PageUse.TheVariants as uses;
ghost use Rattle.mm_cells.specs.Cells.{Taken, with_cell, with_run, newly_taken, Begins, IsTaken};
ghost use Rattle.mm_cells.specs.Kept.{class_size, cells_of, KeepsCells, HasFree, HasTaken};
ghost use Rattle.mm_cells.specs.Map.{use_at, mark_at, room_at, SetsRoom, IsLowestRoom};
ghost use Rattle.mm_cells.specs.Marks.{NoneFree};
ghost use Rattle.mm_model.specs.Places.Lowest.{IsLowest};
ghost use Rattle.mm_cells.specs.Placing.{IsFreeCell};
ghost use Rattle.mm_cells.specs.Spans.{AreUnused};

use crate::class::{PAGE_BYTES, cells_per_page, extent_of, number_at};
use crate::marks::{Sought, new_mark};
use crate::page_use::PageUse;
use crate::table::Table;
use mm_model::{Colour, Size};

/// Whether a page of a class has a free cell. Those below `from` are taken.
fn has_room(table: &Table, page: u32, class: u32, from: u32) -> bool
    requires class { class < 19 }
    requires within { page < table.now.pages }
    requires passed { NoneFree (mark_at table.now page) from }
    ensures { (result ≡ true) ↔ HasFree table.now page class }
{
    match table.lowest_free(page, from, cells_per_page(class)) {
        Some(_) => true,
        None => false,
    }
}

/// Notes that a page of a class which had room has none any more, where that is so. The cells below `from` are taken.
fn note_full(table: &mut Table, page: u32, class: u32, from: u32)
    requires class { class < 19 }
    requires within { page < table.old.pages }
    requires passed { NoneFree (mark_at table.old page) from }
    requires had { room_at table.old class page ≡ true }
    ensures { (has_room : Bool) × SetsRoom table.old table.new class page has_room
        × ((has_room ≡ true) ↔ HasFree table.old page class) }
{
    if !has_room(table, page, class, from) {
        table.set_room(class, page, false);
    }
}

/// Takes the lowest free cell of the lowest page of a class that has room.
pub(crate) fn take_cell(table: &mut Table, page: u32, class: u32, colour: Colour) -> u32
    requires kept { KeepsCells table.old }
    requires class { class < 19 }
    requires lowest { IsLowestRoom table.old class page }
    ensures lowest { IsLowest (IsFreeCell (cells_of table.old) (class_size class)) result }
    ensures here { result / 4096 ≡ page }
    ensures used { use_at table.old page ≡ uses.Class class }
    ensures taken { cells_of table.new ≡
        with_cell (cells_of table.old) result (Some (newly_taken (class_size class) colour)) }
    ensures kept { KeepsCells table.new }
{
    let cells = cells_per_page(class);
    match table.lowest_free(page, 0, cells) {
        Some(cell) => {
            table.set_mark(page, cell, new_mark(colour));
            note_full(table, page, class, cell);
            PAGE_BYTES * page + cell * extent_of(Size::Small(class))
        }
        None => unreachable!(),
    }
}

/// Takes the first cell of a page that is unused.
#[inline(never)]
pub(crate) fn take_fresh_page(table: &mut Table, page: u32, class: u32, colour: Colour)
    requires kept { KeepsCells table.old }
    requires class { class < 19 }
    requires off_zero { 0 < page }
    requires within { page < table.old.pages }
    requires unused { use_at table.old page ≡ uses.Unused }
    ensures taken { cells_of table.new ≡
        with_run (with_cell (cells_of table.old) (4096 * page) (Some (newly_taken (class_size class) colour))) page 1 }
    ensures kept { KeepsCells table.new }
{
    table.free_page(page);
    table.set_use(page, PageUse::Class(class));
    table.set_mark(page, 0, new_mark(colour));
    table.set_room(class, page, true);
}

/// Takes so many pages that are unused.
pub(crate) fn take_pages(table: &mut Table, first: u32, count: u32, colour: Colour)
    requires kept { KeepsCells table.old }
    requires some { 0 < count }
    requires off_zero { 0 < first }
    requires within { first + count ≤ table.old.pages }
    requires unused { AreUnused table.old first count }
    ensures taken { cells_of table.new ≡ with_run
        (with_cell (cells_of table.old) (4096 * first) (Some (newly_taken (4096 * count) colour))) first count }
    ensures kept { KeepsCells table.new }
{
    table.set_whole(first, count);
    table.set_mark(first, 0, new_mark(colour));
}

/// Notes that a page of a class has room, unless it is known that it had room before.
fn note_room(table: &mut Table, page: u32, class: u32, known: bool)
    requires class { class < 19 }
    requires within { page < table.old.pages }
    requires known { known ≡ true → room_at table.old class page ≡ true }
    ensures { SetsRoom table.old table.new class page true }
{
    if !known {
        table.set_room(class, page, true);
    }
}

/// Whether a page of a class has a taken cell. It may be known that it has one.
fn has_taken(table: &Table, page: u32, class: u32, known: bool) -> bool
    requires class { class < 19 }
    requires within { page < table.now.pages }
    requires known { known ≡ true → HasTaken table.now page class }
    ensures { (result ≡ true) ↔ HasTaken table.now page class }
{
    if known {
        return true;
    }
    match table.lowest_sought(page, 0, cells_per_page(class), Sought::Taken) {
        Some(_) => true,
        None => false,
    }
}

/// Gives a cell of a page back, which begins so many bytes into it, and answers whether that was the page's last one.
pub(crate) fn release_cell(table: &mut Table, page: u32, class: u32, offset: u32) -> bool
    requires kept { KeepsCells table.old }
    requires used { use_at table.old page ≡ uses.Class class }
    requires taken { IsTaken (cells_of table.old) (4096 * page + offset) }
    requires inside { offset < 4096 }
    ensures kept { KeepsCells table.new }
    ensures stays { result ≡ false → cells_of table.new ≡ with_cell (cells_of table.old) (4096 * page + offset) None }
    ensures another { result ≡ false → (base : ℕ) × (cell : Taken)
        × Begins (cells_of table.new) base cell × (base / 4096 ≡ page) }
    ensures goes { result ≡ true → cells_of table.new ≡
        with_run (with_cell (cells_of table.old) (4096 * page + offset) None) page 0 }
    ensures none { result ≡ true → (base : ℕ) (cell : Taken) → Begins (cells_of table.new) base cell
        → base / 4096 ≢ page }
{
    let beside = table.free_cell(page, number_at(class, offset), cells_per_page(class));
    if has_taken(table, page, class, beside.has_taken) {
        note_room(table, page, class, beside.had_free);
        false
    } else {
        table.set_use(page, PageUse::Unused);
        table.set_room(class, page, false);
        true
    }
}

/// Gives a cell of whole pages back.
pub(crate) fn release_pages(table: &mut Table, first: u32)
    requires kept { KeepsCells table.old }
    requires used { (count : ℕ) × (use_at table.old first ≡ uses.First count) }
    ensures gone { cells_of table.new ≡ with_run (with_cell (cells_of table.old) (4096 * first) None) first 0 }
    ensures kept { KeepsCells table.new }
    ensures goes { (base : ℕ) (cell : Taken) → Begins (cells_of table.new) base cell → base / 4096 ≢ first }
{
    table.clear_whole(first);
}
