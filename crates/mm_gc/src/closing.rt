// The end of a heap.
ghost use Rattle.std.specs.Prelude.{◌≡◌, ℕ, ◌+◌, ◌<◌, List, MatchOption, None, false};
ghost use Rattle.mm_words.specs.Location.{location_of};
ghost use Rattle.mm_pages.specs.Parked.{AreParked, AreAllParked};
ghost use Rattle.mm_cells.specs.Cells.{HasNoCell};
ghost use Rattle.mm_object.specs.Heap.{cells_in, IsSound, FitsHeap};
ghost use Rattle.mm_roots.specs.Areas.{area_at, HasNoArea, IsSoundAreas, OwnsAll};
ghost use Rattle.mm_gc.specs.Emptied.{HasNoneBelow, HasPassed, AreParkedBeside, IsUnparked, IsInPlace, AreInPlace};
ghost use Rattle.mm_gc.specs.Kept.{KeepsRegion};
ghost use Rattle.mm_gc.specs.Regions.{words_of};
ghost use Rattle.mm_gc.specs.Starting.{OwnsPieces};

use crate::gc::Gc;
use crate::region::Region;
use mm_mark::Marker;
use mm_object::Heap;
use mm_pages::PageHeap;
use mm_roots::{Areas, MOST_AREAS};
use mm_steps::Steps;
use mm_words::{Arena, Words};
use std::marker::Brand;
use std::sync::ledger::{Blank, Ledger};

/// Erases the lowest object that begins at `from` or above, and answers its base.
fn erase_next<L: Ledger>(
    heap: &mut Heap,
    pages: &mut PageHeap,
    from: u32,
    steps: &mut Steps<L>,
) -> Option<u32>
    requires fits { FitsHeap heap.old pages.old }
    requires passed { HasNoneBelow heap.old.objects from }
    ensures passed { MatchOption result (HasNoCell (cells_in heap.new)) (λ base. HasPassed from base heap.new) }
    ensures parked { (others : List ℕ) → AreParkedBeside others heap.old pages.old
        → AreParkedBeside others heap.new pages.new }
    ensures fits { FitsHeap heap.new pages.new }
    ensures pages { IsUnparked pages.old pages.new }
    ensures place { IsInPlace heap.old heap.new }
    ensures sound { IsSound heap.new }
{
    let base = match heap.cells().next_taken(from, steps) {
        Some(base) => base,
        None => return None,
    };
    heap.erase(pages, base, steps);
    Some(base)
}

/// Erases all objects.
fn erase_all<L: Ledger>(heap: &mut Heap, pages: &mut PageHeap, steps: &mut Steps<L>)
    requires fits { FitsHeap heap.old pages.old }
    ensures none { HasNoCell (cells_in heap.new) }
    ensures parked { (others : List ℕ) → AreParkedBeside others heap.old pages.old
        → AreParkedBeside others heap.new pages.new }
    ensures pages { IsUnparked pages.old pages.new }
    ensures place { IsInPlace heap.old heap.new }
    ensures sound { IsSound heap.new }
{
    let mut from = 0;
    while let Some(base) = erase_next(heap, pages, from, steps) {
        from = base + 1;
    }
}

/// Removes the area that has a number, if one has.
fn remove_any<L: Ledger>(areas: &mut Areas, pages: &mut PageHeap, a: u32, steps: &mut Steps<L>)
    requires { AreParked areas.old.fixed.runs pages.old }
    ensures gone { area_at areas.new a ≡ None }
    ensures others { (number : ℕ) → area_at areas.old number ≡ None → area_at areas.new number ≡ None }
    ensures parked { AreParked areas.new.fixed.runs pages.new }
    ensures all_parked { (others : List ℕ) → AreAllParked areas.old.fixed.runs others pages.old
        → AreAllParked areas.new.fixed.runs others pages.new }
    ensures pages { IsUnparked pages.old pages.new }
    ensures place { AreInPlace areas.old areas.new }
    ensures owns { OwnsAll areas.old → OwnsAll areas.new }
    ensures sound { IsSoundAreas areas.new }
{
    let _ = areas.remove(pages, a, steps);
}

/// Removes all areas.
fn remove_all<L: Ledger>(areas: &mut Areas, pages: &mut PageHeap, steps: &mut Steps<L>)
    requires { AreParked areas.old.fixed.runs pages.old }
    ensures none { HasNoArea areas.new }
    ensures all_parked { (others : List ℕ) → AreAllParked areas.old.fixed.runs others pages.old
        → AreAllParked areas.new.fixed.runs others pages.new }
    ensures pages { IsUnparked pages.old pages.new }
    ensures place { AreInPlace areas.old areas.new }
    ensures owns { OwnsAll areas.old → OwnsAll areas.new }
    ensures sound { IsSoundAreas areas.new }
{
    for a in 0..MOST_AREAS {
        remove_any(areas, pages, a, steps);
    }
}

/// Gives the pieces of a region back to its arena.
fn close_region<L: Ledger>(region: Region, steps: &mut Steps<L>) -> Arena
    requires keeps { KeepsRegion region }
    requires pieces { OwnsPieces region }
    ensures name { result.name ≡ region.arena.name }
    ensures back { result.out + words_of region ≡ region.arena.out }
{
    let Region {
        mut arena,
        mut pages,
        mut heap,
        mut areas,
        least: _,
        most: _,
    } = region;
    erase_all(&mut heap, &mut pages, steps);
    remove_all(&mut areas, &mut pages, steps);
    let (memory, cells) = heap.close();
    let (table, fixed) = areas.close();
    arena.take_back(pages.close());
    arena.take_back(memory);
    arena.take_back(cells.close());
    arena.take_back(table);
    arena.take_back(fixed.close());
    arena
}

/// Ends the cycle, if one runs.
fn end_cycle(marker: &mut Marker)
    ensures idle { marker.new.running ≡ false }
    ensures place { marker.new.location ≡ marker.old.location }
{
    if marker.running() {
        marker.end();
    }
}

/// Gives the queue of a marker back.
fn close_marker(mut marker: Marker) -> Words
    ensures { location_of result ≡ marker.location }
{
    end_cycle(&mut marker);
    marker.close()
}

/// Gives all memory of a heap back, and counts the steps on this ledger.
fn close_counted<L: Ledger>(gc: Gc, blank: Blank)
    requires name { blank.name ≡ L.name }
    requires parts { blank.parts ≡ L.parts }
    requires shared { 0 < L.parts }
{
    let mut steps: Steps<L> = Steps::open(blank);
    let Gc {
        region,
        stack,
        count,
        marker,
        dead,
        settings: _,
        threshold: _,
        commands: _,
        born: _,
        freed: _,
        gone_before: _,
    } = gc;
    let mut arena = close_region(region, &mut steps);
    arena.take_back(stack.close());
    arena.take_back(count.close());
    arena.take_back(close_marker(marker));
    arena.take_back(dead);
    arena.close();
}

impl Gc {
    /// Gives all memory back. No finalizer runs.
    pub fn close(self) {
        close_counted::<Brand>(self, Blank::new(1));
    }
}
