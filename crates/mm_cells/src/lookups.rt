// Looking a cell up once, by a word or by its base.
ghost use Rattle.std.specs.Prelude.{◌≡◌, ◌+◌, ℕ, MatchOption};
ghost use Rattle.mm_cells.specs.Cells.{Taken, Begins, IsTaken, Covers, IsSoundCells};
ghost use Rattle.mm_cells.specs.Looking.{NoWhite, Shades};

use crate::cells::{Cells, locate};
use crate::class::{PAGE_BYTES, extent_of};
use crate::marks::CellBits;
use crate::page_use::PageUse;
use mm_model::{Colour, Size};
use mm_steps::Steps;
use std::sync::ledger::Ledger;

/// A taken cell, and what is told of the object in it.
#[derive(Clone, Copy, Debug, PartialEq, Eq)]
pub struct FoundCell {
    pub base: u32,
    pub extent: u32,
    pub colour: Colour,
    pub flags: CellBits,
}

impl Cells {
    /// The bytes of a taken cell. It isn't counted, for a token that is taken back where there is no counter.
    pub fn extent(&self, base: u32) -> u32
        requires { IsTaken self.now base }
        ensures extent { (cell : Taken) → Begins self.now base cell → result ≡ cell.extent }
        ensures sound { IsSoundCells self.now }
    {
        match self.table.use_at(base / PAGE_BYTES) {
            PageUse::Class(class) => extent_of(Size::Small(class)),
            PageUse::First(count) => count * PAGE_BYTES,
            PageUse::Unused | PageUse::Later(_) => unreachable!(),
        }
    }

    /// The taken cell in which a word falls, with all that is told of it.
    #[inline(always)]
    pub fn find<L: Ledger>(&self, word: u32, steps: &mut Steps<L>) -> Option<FoundCell>
        ensures cell { MatchOption result
            ((base : ℕ) (cell : Taken) → Covers self.now word base cell → ⊥)
            (λ found. Covers self.now word found.base
            (record { extent = found.extent; colour = found.colour; flags = found.flags })) }
        ensures sound { IsSoundCells self.now }
        ensures cost { steps.new ≡ steps.old + 1 }
    {
        steps.tick();
        match locate(&self.table, word) {
            Some(located) => Some(FoundCell {
                base: located.cell.base,
                extent: located.cell.extent,
                colour: located.told.colour,
                flags: located.told.flags,
            }),
            None => None,
        }
    }

    /// Makes the white cell in which a word falls gray, and answers its base.
    #[inline(always)]
    pub fn shade<L: Ledger>(&mut self, word: u32, steps: &mut Steps<L>) -> Option<u32>
        ensures shaded { MatchOption result (NoWhite self.old word × (self.new ≡ self.old))
            (λ base. Shades self.old self.new word base) }
        ensures sound { IsSoundCells self.new }
        ensures cost { steps.new ≡ steps.old + 1 }
    {
        steps.tick();
        match locate(&self.table, word) {
            Some(located) => match located.told.colour {
                Colour::White => {
                    let index = located.index;
                    self.table.make_gray(index.page, index.number);
                    Some(located.cell.base)
                }
                Colour::Gray | Colour::Black => None,
            },
            None => None,
        }
    }
}
