// The pages of a region: which are free, and the runs that are out or parked.
ghost use Rattle.std.specs.Prelude.{◌≡◌, ◌↔◌, ℕ, ◌-◌, ◌*◌, ◌^◌, ◌<◌, ◌≤◌};
ghost use Rattle.std.specs.Prelude.{length, slice_index, IfOk, OnErr, IsTrue, Bool};
ghost use Rattle.std.specs.List.{count_by, range_with_len};
ghost use Rattle.mm_words.specs.Location.{location_of};
ghost use Rattle.mm_pages.specs.Pages.{fresh, with_out, with_parked, run_of, is_free_page, count_below, table_size};
ghost use Rattle.mm_pages.specs.Pages.{IsFreePage, IsFreeRun, IsLowestRun, IsOut, HasNoRun, IsHighestUsed};
ghost use Rattle.mm_pages.specs.Pages.{EndsBy, IsSoundHeap, IsQuick, TellsFreePages};

use crate::node::span_of;
use crate::page_run::PageRun;
use crate::table::Table;
use mm_steps::Steps;
use mm_words::Words;
use std::marker::Model;
use std::sync::ledger::Ledger;

/// No pages in a row are free that are as many as were asked for.
#[derive(Drop)]
pub struct NoRun;

/// The pages of a region. Page 0 is never handed out.
///
/// It stands on a tree that keeps for each span of pages the longest free run in it and the free runs at its two ends.
/// The tree has a power of two of pages. Those past the region's count as free there, and the limit keeps them back.
pub struct PageHeap {
    table: Table,
    limit: u32,
    free: u32,
}

impl Model for PageHeap {
    ghost use Rattle.mm_pages.specs.Pages.{Pages};
    ghost use Rattle.mm_pages.specs.Kept.{pages_of, KeepsTree};

    ghost Value = { Pages };

    ghost view = { λ h. pages_of h.table h.limit };

    ghost invariant = { λ h. KeepsTree h.table h.limit h.free };
}

/// How many words the table of a page heap must have: for each page two that tell the runs which begin there, and at
/// most twelve for the tree.
pub fn table_words(pages: u32) -> u32
    requires two { 2 ≤ pages }
    requires most { pages ≤ 4096 }
    ensures { result ≡ table_size pages }
{
    14 * pages
}

/// The height of the lowest tree over that many pages.
fn height_over(pages: u32) -> u32
    requires two { 2 ≤ pages }
    requires most { pages ≤ 4096 }
    ensures small { result ≤ 12 }
    ensures wide { pages ≤ 2 ^ result }
    ensures tight { 2 ^ result < 2 * pages }
{
    u32::BITS - (pages - 1).leading_zeros()
}

impl PageHeap {
    /// A page heap over that many pages, all of them free but page 0. The table's words may hold anything.
    pub fn make(table: Words, pages: u32) -> PageHeap
        requires two { 2 ≤ pages }
        requires most { pages ≤ 4096 }
        requires room { table_size pages ≤ length table.words }
        ensures value { result ≡ fresh (location_of table) pages }
        ensures sound { IsSoundHeap result }
    {
        let height = height_over(pages);
        PageHeap {
            table: Table::make(table, pages, height),
            limit: pages,
            free: span_of(height) - 1,
        }
    }

    /// Gives the table's words back, which may hold anything.
    pub fn close(self) -> Words
        requires { HasNoRun self }
        ensures { location_of result ≡ self.table }
    {
        let PageHeap {
            table,
            limit: _,
            free: _,
        } = self;
        table.into_words()
    }

    /// Takes the lowest run of `k` free pages. A step is a visit to a node of the tree.
    pub fn take<L: Ledger>(&mut self, k: u32, steps: &mut Steps<L>) -> Result<PageRun, NoRun>
        requires { 1 ≤ k }
        ensures run { IfOk result (λ run. run ≡ run_of self.old run.first k) }
        ensures lowest { IfOk result (λ run. IsLowestRun self.old run.first k) }
        ensures out { IfOk result (λ run. IsOut self.new run) }
        ensures taken { IfOk result (λ run. self.new ≡ with_out self.old run.first k) }
        ensures none { OnErr result ((p : ℕ) → ¬ IsFreeRun self.old p k) }
        ensures unchanged { OnErr result (self.new ≡ self.old) }
        ensures sound { IsSoundHeap self.new }
        ensures cost { IsQuick self.old.pages steps.old steps.new }
    {
        steps.tick();
        if self.table.longest() < k {
            return Err(NoRun);
        }
        let first = self.table.find(k, steps);
        if self.limit < first + k {
            return Err(NoRun);
        }
        self.table.mark(first, first + k, false, steps);
        self.table.set_out(first, k);
        self.free -= k;
        Ok(PageRun {
            first,
            len: k,
            heap: self.table.identity(),
        })
    }

    /// Makes the pages of a run free. They join free pages on both sides. A step is a visit to a node of the tree.
    pub fn give<L: Ledger>(&mut self, run: PageRun, steps: &mut Steps<L>)
        requires { IsOut self.old run }
        ensures given { self.new ≡ with_out self.old run.first 0 }
        ensures sound { IsSoundHeap self.new }
        ensures cost { IsQuick self.old.pages steps.old steps.new }
    {
        let PageRun {
            first,
            len,
            heap: _,
        } = run;
        self.table.mark(first, first + len, true, steps);
        self.table.set_out(first, 0);
        self.free += len;
    }

    /// Keeps a run inside the page heap, which hands it out again by `unpark`.
    pub fn park(&mut self, run: PageRun)
        requires { IsOut self.old run }
        ensures parked { self.new ≡ with_parked (with_out self.old run.first 0) run.first run.len }
        ensures sound { IsSoundHeap self.new }
    {
        let PageRun {
            first,
            len,
            heap: _,
        } = run;
        self.table.set_out(first, 0);
        self.table.set_parked(first, len);
    }

    /// Hands out the run that is parked at `first`.
    pub fn unpark(&mut self, first: u32) -> PageRun
        requires { 0 < slice_index self.old.parked first }
        ensures not_out { slice_index self.old.out first ≡ 0 }
        ensures run { result ≡ run_of self.old first (slice_index self.old.parked first) }
        ensures out { IsOut self.new result }
        ensures moved { self.new ≡ with_out (with_parked self.old first 0) first (slice_index self.old.parked first) }
        ensures sound { IsSoundHeap self.new }
    {
        let len = self.table.parked_at(first);
        self.table.set_parked(first, 0);
        self.table.set_out(first, len);
        PageRun {
            first,
            len,
            heap: self.table.identity(),
        }
    }

    /// Whether a page is free.
    pub fn is_free(&self, p: u32) -> bool
        requires { p < self.now.pages }
        ensures free { IsTrue result ↔ IsFreePage self.now p }
        ensures test { result ≡ is_free_page self.now p }
    {
        p < self.limit && self.table.is_free(p)
    }

    /// How many pages are free.
    pub fn free_pages(&self) -> u32
        ensures value { result ≡ count_below (is_free_page self.now) self.now.pages }
        ensures count { (test : ℕ → Bool) → TellsFreePages self.now test
            → result ≡ count_by test (range_with_len 1 (self.now.limit - 1)) }
    {
        self.free - (self.table.span() - self.limit)
    }

    /// From now on no page at or past `limit` is free, and all below it that lie in no run are.
    pub fn set_limit(&mut self, limit: u32)
        requires two { 2 ≤ limit }
        requires most { limit ≤ self.old.pages }
        requires clear { EndsBy self.old limit }
        ensures limit { self.new ≡ record self.old { limit = limit } }
        ensures sound { IsSoundHeap self.new }
    {
        self.limit = limit;
    }

    /// The page below which pages may be free.
    pub fn limit(&self) -> u32
        ensures value { result ≡ self.now.limit }
        ensures sound { IsSoundHeap self.now }
    {
        self.limit
    }

    /// One more than the highest page that is page 0 or lies in a run.
    pub fn top(&self) -> u32
        ensures some { 0 < result }
        ensures highest { IsHighestUsed self.now (result - 1) }
        ensures none { result ≡ 1 → HasNoRun self.now }
        ensures sound { IsSoundHeap self.now }
    {
        self.table.span() - self.table.last_run()
    }
}
