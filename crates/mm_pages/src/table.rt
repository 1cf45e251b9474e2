// The words of a page heap's table, and what stands where in them.
ghost use Rattle.std.specs.Prelude.{◌≡◌, ℕ, ◌+◌, ◌*◌, ◌^◌, ◌<◌, ◌≤◌, Bool, length, slice_index, slice_set};
ghost use Rattle.mm_pages.specs.Free.{IsFreeButFirst, Marks};
ghost use Rattle.mm_pages.specs.Tree.{FindsLowest, IsTree, Shows, ShowsChange, tree_words};
ghost use Rattle.mm_pages.specs.Visits.{MarkVisits};

use crate::node::{span_of, words_of};
use crate::tree;
use mm_steps::Steps;
use mm_words::Words;
use std::marker::Model;
use std::snapshot::Snapshot;
use std::sync::ledger::Ledger;

/// The lengths of the runs that are out, those of the runs parked, and the tree, one after another.
pub(crate) struct Table {
    words: Words,
    pages: u32,
    height: u32,
}

impl Model for Table {
    ghost use Rattle.mm_pages.specs.Entries.{Entries, entries_of, FitsIn};

    ghost Value = { Entries };

    ghost view = { λ t. entries_of t.words t.pages t.height };

    ghost invariant = { λ t. FitsIn t.words t.pages t.height };
}

impl Table {
    ghost use Rattle.mm_words.specs.Location.{location_of};
    ghost use Rattle.mm_pages.specs.Entries.{BeginsEmpty};
    ghost use Rattle.std.specs.Prelude.{replicate};

    /// A table of no runs, in which page 0 alone is taken.
    pub fn make(words: Words, pages: u32, height: u32) -> Table
        requires pages { pages ≤ 4096 }
        requires height { height ≤ 12 }
        requires room { 2 * pages + tree_words height ≤ length words.words }
        ensures fresh { BeginsEmpty (location_of words) pages height result }
        ensures shows { (free : Marks) → IsFreeButFirst free (2 ^ height) → Shows free height result.tree }
    {
        let mut words = words;
        words.fill(0, 2 * pages, 0);
        tree::plant(words.part_mut(2 * pages, words_of(height) as u32), height);
        Table {
            words,
            pages,
            height,
        }
    }

    /// The words, which may hold anything.
    pub fn into_words(self) -> Words
        ensures { location_of result ≡ self.location }
    {
        let Table {
            words,
            pages: _,
            height: _,
        } = self;
        words
    }

    /// Which words these are, as contracts see it.
    pub fn identity(&self) -> Snapshot<Words>
        ensures { location_of result.value ≡ self.now.location }
    {
        Snapshot::of(&self.words)
    }

    /// How many pages the tree has.
    pub fn span(&self) -> u32
        ensures { result ≡ 2 ^ self.now.height }
    {
        span_of(self.height)
    }

    /// The length of the run that is parked at a page, 0 where none is.
    pub fn parked_at(&self, page: u32) -> u32
        requires { page < self.now.pages }
        ensures { result ≡ slice_index self.now.parked page }
    {
        self.words.get(self.pages + page)
    }

    /// Notes that a run of that length is out at a page, or none where it is 0.
    pub fn set_out(&mut self, page: u32, len: u32)
        requires { page < self.old.pages }
        ensures { self.new ≡ record self.old { out = slice_set self.old.out page len } }
    {
        self.words.set(page, len);
    }

    /// Notes the same of a run that is parked.
    pub fn set_parked(&mut self, page: u32, len: u32)
        requires { page < self.old.pages }
        ensures { self.new ≡ record self.old { parked = slice_set self.old.parked page len } }
    {
        self.words.set(self.pages + page, len);
    }

    fn tree(&self) -> &[u32]
        ensures part { result.now ≡ self.now.tree }
        ensures sized { length result.now ≡ tree_words self.now.height }
        ensures small { self.now.height ≤ 12 }
    {
        self.words
            .part(2 * self.pages, words_of(self.height) as u32)
    }
}

impl Table {
    /// The length of the longest free run.
    pub fn longest(&self) -> u32
        ensures { result ≡ slice_index self.now.tree 0 }
    {
        self.tree()[0]
    }

    /// The length of the free run that ends with the tree's last page.
    pub fn last_run(&self) -> u32
        ensures { result ≡ slice_index self.now.tree 2 }
    {
        self.tree()[2]
    }

    /// Whether the tree shows a page as free.
    pub fn is_free(&self, page: u32) -> bool
        requires tree { IsTree self.now.height self.now.tree }
        requires within { page < 2 ^ self.now.height }
        ensures { (pages : Marks) → Shows pages self.now.height self.now.tree → result ≡ pages page }
    {
        tree::free_at(self.tree(), self.height, page)
    }

    /// The lowest page at which `k` free pages begin.
    pub fn find<L: Ledger>(&self, k: u32, steps: &mut Steps<L>) -> u32
        requires some { 0 < k }
        requires tree { IsTree self.now.height self.now.tree }
        requires fits { k ≤ slice_index self.now.tree 0 }
        ensures lowest { FindsLowest self.now.height self.now.tree k result }
        ensures within { result + k ≤ 2 ^ self.now.height }
        ensures visits { steps.new ≤ steps.old + self.now.height + 1 }
    {
        tree::find(self.tree(), self.height, k, steps)
    }

    /// Makes the pages of from .. to free or taken in the tree.
    pub fn mark<L: Ledger>(&mut self, from: u32, to: u32, free: bool, steps: &mut Steps<L>)
        requires tree { IsTree self.old.height self.old.tree }
        requires ordered { from ≤ to }
        requires within { to ≤ 2 ^ self.old.height }
        ensures shows { ShowsChange self.old.height self.old.tree self.new.tree from to free }
        ensures rest { self.new ≡ record self.old { tree = self.new.tree } }
        ensures visits { MarkVisits self.old.height from to steps.old steps.new }
    {
        let height = self.height;
        let words = self.words.part_mut(2 * self.pages, words_of(height) as u32);
        tree::mark(words, height, from, to, free, steps);
    }
}
