// Walks over the cells of one colour, and over all.
ghost use Rattle.std.specs.Prelude.{◌≡◌, ◌+◌, ◌*◌, ◌<◌, ◌≤◌, ℕ, MatchOption};
ghost use Rattle.mm_cells.specs.declared.page_use.PageUse.TheVariants.{Class};
ghost use Rattle.mm_cells.specs.Cells.{IsSoundCells, IsWalk};
ghost use Rattle.mm_cells.specs.Kept.{HaveMarks};
ghost use Rattle.mm_cells.specs.Looking.{IsNextOf, NoneOfFrom, all_white, Whitens};

use crate::cells::{Cells, lowest_in_page};
use crate::class::{PAGE_BYTES, cells_per_page};
use crate::marks::Sought;
use crate::page_use::PageUse;
use mm_model::Colour;
use mm_steps::Steps;
use std::sync::ledger::Ledger;

impl Cells {
    /// The least base of a taken cell of this colour that is at least `from`. A page without one costs one step.
    pub fn next_of<L: Ledger>(&self, from: u32, colour: Colour, steps: &mut Steps<L>) -> Option<u32>
        ensures base { MatchOption result (NoneOfFrom self.now colour from)
            (λ base. IsNextOf self.now colour from base) }
        ensures sound { IsSoundCells self.now }
        ensures cost { IsWalk self.now from result steps.old steps.new }
    {
        for page in from / PAGE_BYTES..self.table.pages() {
            steps.tick();
            if let Some(base) = lowest_in_page(&self.table, page, from, Sought::Of(colour)) {
                return Some(base);
            }
        }
        None
    }

    /// Makes every taken cell white. All else stays.
    pub fn whiten<L: Ledger>(&mut self, steps: &mut Steps<L>)
        ensures white { self.new ≡ all_white self.old }
        ensures sound { IsSoundCells self.new }
        ensures cost { steps.new ≡ steps.old + self.old.pages }
    {
        for page in 0..self.table.pages() {
            steps.tick();
            self.whiten_page(page);
        }
    }

    /// Makes the taken cells white that begin in a page.
    fn whiten_page(&mut self, page: u32)
        requires { page < self.old.pages }
        ensures white { Whitens self.old self.new (4096 * page) (4096 * page + 4096) }
        ensures sound { IsSoundCells self.new }
    {
        let words = words_of_marks(self.table.use_at(page));
        self.table.whiten(page, words);
    }
}

/// In how many words the marks stand that are read of a page of this use.
fn words_of_marks(page_use: PageUse) -> u32
    requires { (class : ℕ) → page_use ≡ Class class → class < 19 }
    ensures all { HaveMarks page_use result }
    ensures most { result ≤ 32 }
{
    match page_use {
        PageUse::Class(class) => cells_per_page(class).div_ceil(8),
        PageUse::First(_) => 1,
        PageUse::Unused | PageUse::Later(_) => 0,
    }
}
