// The places that there are for objects and areas.
ghost use Rattle.std.specs.Prelude.{◌≡◌, ℕ, ◌+◌, ◌-◌, ◌^◌, ◌<◌, ◌≤◌, true, Bool, List, Some, length};
ghost use Rattle.std.specs.Prelude.{IfOk, IfSome, MatchOption, [], slice_get, slice_set, slice_index, ◌*◌};
ghost use Rattle.std.specs.List.{Contains};
ghost use Rattle.mm_model.specs.Places.SizeClass.{class_sizes};
ghost use Rattle.mm_model.specs.Places.Place.{Family, Piece, first_from, has_room, free_cell, fresh_page};
ghost use Rattle.mm_model.specs.Places.Place.{place_among};
ghost use Rattle.mm_model.specs.declared.object.Size.TheVariants.{Small, Pages};
ghost use Rattle.mm_audit.specs.Places.{Tell, IsKnownSize, family_of, row_of, IsSetFrom, AreCellsSet};
ghost use Rattle.mm_audit.specs.Places.{IsRunEnd, NoVacantRun, IsLowestRun};

use crate::NoMemory;
use crate::numbers::Numbers;
use crate::owner::Owner;
use mm_model::Size;
use std::alloc::Global;
use std::marker::Model;

// Cells begin at its multiples.
const GRAIN: u32 = 16;

// How many grains a page has.
const PAGE_GRAINS: u32 = 256;

const PAGE_BYTES: u32 = 4096;

// How many classes there are, for both objects and areas.
const ROWS: u32 = 38;

/// The places that there are for pieces of objects and areas, in the pages that a region may have.
///
/// No call but `make` takes memory.
#[derive(Drop)]
pub struct Places {
    pages: u32,
    // The pages in which nothing lies.
    vacant: Numbers,
    // All other pages.
    occupied: Numbers,
    // For each class and family the pages of such cells that have a free one.
    roomy: Numbers,
    // The grains at which a free cell of a page of cells begins.
    free: Numbers,
    // The grains at which a piece begins.
    taken: Numbers,
}

impl Model for Places {
    ghost use Rattle.mm_audit.specs.Places.{PlaceMarks, place_marks, KeepsPlaces};

    ghost Value = { PlaceMarks };

    ghost view = { λ s. place_marks s.pages s.vacant s.roomy s.free s.taken };

    ghost invariant = { λ s. KeepsPlaces (place_marks s.pages s.vacant s.roomy s.free s.taken) s.occupied };
}

// The lowest page from 1 to below the limit that is marked, where page 0 has this number.
fn lowest_page(set: &Numbers, row: u32, limit: u32) -> Option<u32>
    requires inside { row + limit ≤ length set.now }
    requires small { row + limit < 2 ^ 32 }
    ensures first { (test : ℕ → Bool)
        → ((page : ℕ) → 1 ≤ page → page < limit → slice_get set.now (row + page) ≡ Some (test page))
        → result ≡ first_from test 1 (limit - 1) }
    ensures below { IfSome result (λ page. page < limit) }
{
    if limit < 2 {
        return None;
    }
    match set.next(row + 1) {
        None => None,
        Some(n) => { if n < row + limit { Some(n - row) } else { None } }
    }
}

// Makes a number a member, or none.
fn set(numbers: &mut Numbers, n: u32, member: bool)
    requires inside { n < length numbers.old }
    ensures { numbers.new ≡ slice_set numbers.old n member }
{
    if member {
        numbers.insert(n);
    } else {
        numbers.remove(n);
    }
}

// The same for all numbers from one on to below another.
fn set_from(numbers: &mut Numbers, first: u32, end: u32, member: bool)
    requires order { first ≤ end }
    requires inside { end ≤ length numbers.old }
    ensures { IsSetFrom numbers.old numbers.new first end member }
{
    for k in first..end {
        set(numbers, k, member);
    }
}

// The same for the cells of a page.
fn set_cells(free: &mut Numbers, page: u32, extent: u32, member: bool)
    requires page { 256 * page + 256 ≤ length free.old }
    requires small { page < 4096 }
    requires class { Contains class_sizes extent }
    ensures { AreCellsSet free.old free.new extent page member }
{
    for cell in 0..PAGE_BYTES / extent {
        set(free, PAGE_GRAINS * page + cell * (extent / GRAIN), member);
    }
}

impl Places {
    /// Nothing lies in the pages that a region may have.
    pub fn make(alloc: Global, pages: u32) -> Result<Places, NoMemory>
        requires least { 2 ≤ pages }
        requires most { pages ≤ 4096 }
        ensures pages { IfOk result (λ made. made.pages ≡ pages) }
        ensures empty { IfOk result (λ made. Tell [] made) }
    {
        let mut vacant = Numbers::make(alloc, pages)?;
        set_from(&mut vacant, 1, pages, true);
        let mut occupied = Numbers::make(alloc, pages)?;
        occupied.insert(0);
        let roomy = Numbers::make(alloc, ROWS * pages)?;
        let free = Numbers::make(alloc, PAGE_GRAINS * pages)?;
        let taken = Numbers::make(alloc, PAGE_GRAINS * pages)?;
        Ok(Places {
            pages,
            vacant,
            occupied,
            roomy,
            free,
            taken,
        })
    }

    // The mark of page 0 for a family and class.
    fn row(&self, owner: Owner, class: u32) -> u32
        requires class { class < length class_sizes }
        ensures row { result ≡ row_of self.now.pages (family_of owner) class }
        ensures inside { result + self.now.pages ≤ length self.now.roomy }
        ensures small { result + self.now.pages < 2 ^ 32 }
    {
        match owner {
            Owner::Object => self.pages * (2 * class),
            Owner::Area => self.pages * (2 * class + 1),
        }
    }

    // The lowest page below the limit that has a free cell of a class.
    fn roomy_page(&self, limit: u32, owner: Owner, class: u32) -> Option<u32>
        requires limit { limit ≤ self.now.pages }
        requires class { class < length class_sizes }
        ensures first { (pieces : List Piece) → Tell pieces self.now
            → result ≡ first_from (has_room pieces (family_of owner) (slice_index class_sizes class)) 1 (limit - 1) }
        ensures below { IfSome result (λ page. page < limit) }
    {
        lowest_page(&self.roomy, self.row(owner, class), limit)
    }

    // The lowest free cell of a page that has one.
    fn lowest_cell(&self, page: u32) -> Option<u32>
        requires page { page < self.now.pages }
        ensures { (pieces : List Piece) (family : Family) (class : ℕ) → Tell pieces self.now
            → class < length class_sizes → has_room pieces family (slice_index class_sizes class) page ≡ true
            → result ≡ free_cell pieces (slice_index class_sizes class) page }
    {
        match self.free.next(PAGE_GRAINS * page) {
            None => None,
            Some(grain) => Some(GRAIN * grain),
        }
    }

    // The lowest page below the limit in which nothing lies.
    fn fresh_page(&self, limit: u32) -> Option<u32>
        requires limit { limit ≤ self.now.pages }
        ensures { (pieces : List Piece) → Tell pieces self.now → result ≡ fresh_page pieces limit }
    {
        match lowest_page(&self.vacant, 0, limit) {
            None => None,
            Some(page) => Some(PAGE_BYTES * page),
        }
    }

    // The lowest place for a cell of a class below a limit.
    fn cell(&self, limit: u32, owner: Owner, class: u32) -> Option<u32>
        requires limit { limit ≤ self.now.pages }
        requires class { class < length class_sizes }
        ensures { (pieces : List Piece) → Tell pieces self.now
            → result ≡ place_among pieces limit (family_of owner) (Small class) }
    {
        match self.roomy_page(limit, owner, class) {
            None => self.fresh_page(limit),
            Some(page) => self.lowest_cell(page),
        }
    }

    // The end of the vacant pages from one on.
    fn run_end(&self, page: u32) -> u32
        requires inside { page < self.now.pages }
        ensures { IsRunEnd self.now.vacant page result }
    {
        match self.occupied.next(page) {
            None => self.pages,
            Some(end) => end,
        }
    }

    // The lowest page below a limit at which so many vacant ones begin. It looks at each run of vacant pages.
    fn lowest_run(&self, limit: u32, count: u32) -> Option<u32>
        requires limit { limit ≤ self.now.pages }
        requires some { 1 ≤ count }
        ensures run { MatchOption result (NoVacantRun self.now.vacant limit count)
            (IsLowestRun self.now.vacant limit count) }
        ensures small { IfSome result (λ page. page < 4096) }
    {
        if limit < count {
            return None;
        }
        let mut first = 1;
        while first < limit {
            let Some(page) = self.vacant.next(first) else {
                return None;
            };
            if limit - count < page {
                return None;
            }
            let end = self.run_end(page);
            if page + count <= end {
                return Some(page);
            }
            first = end;
        }
        None
    }

    // The lowest place for so many pages below a limit.
    fn run(&self, limit: u32, count: u32) -> Option<u32>
        requires limit { limit ≤ self.now.pages }
        requires some { 1 ≤ count }
        ensures { (pieces : List Piece) (family : Family) → Tell pieces self.now
            → result ≡ place_among pieces limit family (Pages count) }
    {
        match self.lowest_run(limit, count) {
            None => None,
            Some(page) => Some(PAGE_BYTES * page),
        }
    }

    /// The lowest place for an object or an area in the pages below a limit.
    pub fn place(&self, limit: u32, owner: Owner, size: Size) -> Option<u32>
        requires limit { limit ≤ self.now.pages }
        requires size { IsKnownSize size }
        ensures { (pieces : List Piece) → Tell pieces self.now
            → result ≡ place_among pieces limit (family_of owner) size }
    {
        match size {
            Size::Small(class) => self.cell(limit, owner, class),
            Size::Pages(count) => self.run(limit, count),
        }
    }
}
