// Objects by their colours.
ghost use Rattle.std.specs.Prelude.{◌≡◌, ◌+◌, MatchOption};
ghost use Rattle.mm_cells.specs.Cells.{IsWalk};
ghost use Rattle.mm_object.specs.Heap.{cells_in, IsSound};
ghost use Rattle.mm_object.specs.Colours.{NoWhite, Shades, IsNextOf, NoneOfFrom, all_whitened};

use crate::heap::Heap;
use mm_model::Colour;
use mm_steps::Steps;
use std::sync::ledger::Ledger;

impl Heap {
    /// Makes the white object in which a word falls gray, and answers its base.
    #[inline(always)]
    pub fn shade<L: Ledger>(&mut self, word: u32, steps: &mut Steps<L>) -> Option<u32>
        ensures shaded { MatchOption result (NoWhite self.old word × (self.new ≡ self.old))
            (λ base. Shades self.old self.new word base) }
        ensures sound { IsSound self.new }
        ensures cost { steps.new ≡ steps.old + 1 }
    {
        self.cells.shade(word, steps)
    }

    /// The least base of an object of this colour that is at least `from`. A page without one costs one step.
    pub fn next_of<L: Ledger>(&self, from: u32, colour: Colour, steps: &mut Steps<L>) -> Option<u32>
        ensures base { MatchOption result (NoneOfFrom self.now colour from)
            (λ base. IsNextOf self.now colour from base) }
        ensures sound { IsSound self.now }
        ensures cost { IsWalk (cells_in self.now) from result steps.old steps.new }
    {
        self.cells.next_of(from, colour, steps)
    }

    /// Makes every object white. Each page is a step.
    pub fn whiten<L: Ledger>(&mut self, steps: &mut Steps<L>)
        ensures white { self.new ≡ all_whitened self.old }
        ensures sound { IsSound self.new }
        ensures cost { steps.new ≡ steps.old + self.old.pages }
    {
        self.cells.whiten(steps);
    }
}
