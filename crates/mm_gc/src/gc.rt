// The whole heap, and what is told of it.
ghost use Rattle.std.specs.Prelude.{◌≡◌, ◌+◌, ◌-◌, ◌*◌, ◌≤◌, IfOk};
ghost use Rattle.mm_model.specs.State.{empty_state};
ghost use Rattle.mm_model.specs.Places.Limits.{IsWithinLimits};
ghost use Rattle.mm_model.specs.Views.View.{Shows};
ghost use Rattle.mm_model.specs.Views.ViewWords.{view_region_pages};
ghost use Rattle.mm_object.specs.Heap.{IsSound};
ghost use Rattle.mm_roots.specs.Areas.{IsSoundAreas, IsBeside};
ghost use Rattle.mm_weak.specs.Links.{IsLinked};
ghost use Rattle.mm_gc.specs.Gc.{view_of_gc, totals_in};
ghost use Rattle.mm_gc.specs.Inside.{words_for};
ghost use Rattle.mm_gc.specs.Kept.{KeepsCounts};
ghost use Rattle.mm_gc.specs.Starting.{region_words, IsNewRegion};

use crate::region::Region;
use mm_cells::{Cells, cells_words};
use mm_count::ZeroTable;
use mm_fixed::{Fixed, fixed_words};
use mm_mark::Marker;
use mm_model::{Settings, Totals};
use mm_object::Heap;
use mm_pages::{PageHeap, table_words};
use mm_roots::{Areas, Stack};
use mm_words::{Arena, Words};
use std::alloc::{AllocError, Global};
use std::marker::Model;

/// There was no memory.
pub type NoMemory = AllocError;

/// The words of the table of areas.
const AREA_WORDS: u32 = 4096;

/// The words of a page, and the most objects that begin in one.
const PAGE_WORDS: u32 = 1024;

const PAGE_OBJECTS: u32 = 256;

/// A heap: objects and areas in a region of pages, a stack of words that are roots, counts, weak objects and cycles of
/// marking.
///
/// All its memory is taken when it is made. It must be spent by `close`.
pub struct Gc {
    pub(crate) region: Region,
    pub(crate) stack: Stack,
    pub(crate) count: ZeroTable,
    pub(crate) marker: Marker,
    // Room for the bases of all objects that a phase frees.
    pub(crate) dead: Words,
    pub(crate) settings: Settings,
    // At so many zero-count objects a command reaps at its end.
    pub(crate) threshold: u32,
    pub(crate) commands: u64,
    pub(crate) born: u64,
    pub(crate) freed: u64,
    // How many objects were gone when the cycle began.
    pub(crate) gone_before: u64,
}

impl Model for Gc {
    ghost use Rattle.mm_gc.specs.Gc as heaps;
    ghost use Rattle.mm_gc.specs.Inside.{gc_of};
    ghost use Rattle.mm_gc.specs.Kept.{KeepsGc};

    ghost Value = { heaps.Gc };

    ghost view = { gc_of };

    ghost invariant = { λ g. KeepsGc (gc_of g) };
}

/// The words that a heap with these settings needs.
fn words_for(settings: Settings) -> u32
    requires { IsWithinLimits settings }
    ensures { result ≡ words_for settings }
{
    let max = settings.max;
    table_words(max)
        + cells_words(max)
        + fixed_words(max)
        + AREA_WORDS
        + settings.stack
        + settings.queue
        + 2 * PAGE_OBJECTS * (max - 1)
        + PAGE_WORDS * max
}

/// A region without objects and areas. Its memory is cut last, so that it can grow.
fn make_region(mut arena: Arena, least: u32, most: u32) -> Region
    requires two { 2 ≤ least }
    requires growing { least ≤ most }
    requires most { most ≤ 4096 }
    requires room { region_words most ≤ arena.spare }
    requires within { arena.spare ≤ arena.total }
    ensures { IsNewRegion arena least most result }
{
    let mut pages = PageHeap::make(arena.carve(table_words(most)), most);
    let cells = Cells::make(arena.carve(cells_words(most)), most);
    let fixed = Fixed::make(arena.carve(fixed_words(most)), most);
    let areas = Areas::make(arena.carve(AREA_WORDS), fixed);
    let heap = Heap::make(arena.carve(PAGE_WORDS * least), cells);
    pages.set_limit(least);
    Region {
        arena,
        pages,
        heap,
        areas,
        least,
        most,
    }
}

impl Gc {
    /// A heap without objects, areas and stack cells. All memory that it will ever use is asked for at once.
    pub fn make(alloc: Global, settings: Settings) -> Result<Gc, NoMemory>
        requires { IsWithinLimits settings }
        ensures { IfOk result (λ gc. Shows (view_of_gc gc) (empty_state settings)) }
    {
        let max = settings.max;
        let mut arena = Arena::make(alloc, words_for(settings))?;
        let stack = Stack::make(arena.carve(settings.stack), settings.stack);
        let count = ZeroTable::make(arena.carve(PAGE_OBJECTS * (max - 1)), max);
        let marker = Marker::make(arena.carve(settings.queue));
        let dead = arena.carve(PAGE_OBJECTS * (max - 1));
        let region = make_region(arena, settings.pages, max);
        Ok(Gc {
            region,
            stack,
            count,
            marker,
            dead,
            settings,
            threshold: settings.zct,
            commands: 0,
            born: 0,
            freed: 0,
            gone_before: 0,
        })
    }

    /// How many commands were carried out, and how many objects were born, were freed and live.
    pub fn totals(&self) -> Totals
        ensures { result ≡ totals_in self.now }
    {
        Totals {
            commands: self.commands,
            born: self.born,
            freed: self.freed,
            live: self.born - self.freed,
        }
    }

    /// Its objects, to read: also with the calls of weak objects.
    pub fn heap(&self) -> &Heap
        ensures value { result.now ≡ self.now.region.heap }
        ensures sound { IsSound result.now }
        ensures linked { IsLinked result.now }
    {
        &self.region.heap
    }

    /// Its stack of words, to read.
    pub fn stack(&self) -> &Stack
        ensures value { result.now ≡ self.now.stack }
        ensures limit { result.now.limit ≡ self.now.settings.stack }
    {
        &self.stack
    }

    /// Its areas, to read. Their cells are words of what `heap` lends.
    pub fn areas(&self) -> &Areas
        ensures value { result.now ≡ self.now.region.areas }
        ensures sound { IsSoundAreas result.now }
        ensures beside { IsBeside result.now self.now.region.heap }
    {
        &self.region.areas
    }

    /// At so many zero-count objects a command reaps at its end.
    pub fn threshold(&self) -> u32
        ensures value { result ≡ self.now.threshold }
        ensures counts { KeepsCounts self.now }
    {
        self.threshold
    }

    /// How many pages the region has: at least those of the settings, and as many as its objects and areas need. No
    /// more words are cut for its memory, and no other page is handed out.
    pub fn pages(&self) -> u32
        ensures value { result ≡ view_region_pages (view_of_gc self.now) }
        ensures memory { self.now.region.heap.memory.size ≡ 1024 * result }
        ensures limit { self.now.region.pages.limit ≡ result }
    {
        self.region.heap.size()
    }

    /// Whether a cycle of marking runs.
    pub fn running(&self) -> bool
        ensures { result ≡ self.now.marker.running }
    {
        self.marker.running()
    }
}
