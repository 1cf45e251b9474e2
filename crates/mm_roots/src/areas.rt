// The areas under numbers.
ghost use Rattle.std.specs.Prelude.{◌≡◌, ◌≢◌, ℕ, ◌<◌, ◌≤◌, List, Option, length, MatchOption};
ghost use Rattle.std.specs.Option.{option_map};
ghost use Rattle.mm_words.specs.Location.{location_of};
ghost use Rattle.mm_fixed.specs.Fixed.{HasNoBlock, IsSoundFixed};
ghost use Rattle.mm_roots.specs.Areas.{fresh, area_at, live_areas, HasNoArea, IsSoundAreas, OwnsAll};
ghost use Rattle.mm_roots.specs.Views.{view_of_area, views_of_areas, view_numbered};

use crate::area_shape::AreaShape;
use crate::area_table::AreaTable;
use mm_fixed::Fixed;
use mm_words::Words;
use std::marker::Model;

/// The areas, each under a number below 1,024. The words of their cells are words of a heap's memory that lie in no
/// object, in blocks that no collection frees.
///
/// They stand on words of an arena and on an allocator of blocks. These come back by `close`, and the areas can't be
/// dropped.
pub struct Areas {
    pub(crate) table: AreaTable,
    pub(crate) fixed: Fixed,
    pub(crate) live: u32,
}

impl Model for Areas {
    ghost use Rattle.mm_roots.specs.Areas;
    ghost use Rattle.mm_roots.specs.Kept.{areas_of, KeepsAreas};

    ghost Value = { Areas.Areas };

    ghost view = { λ a. areas_of a.table a.fixed };

    ghost invariant = { λ a. KeepsAreas a.table a.fixed a.live };
}

impl Areas {
    /// No areas yet. The table's words may hold anything.
    pub fn make(table: Words, fixed: Fixed) -> Areas
        requires room { 4096 ≤ length table.words }
        requires sound { IsSoundFixed fixed }
        ensures value { result ≡ fresh (location_of table) fixed }
        ensures owns { HasNoBlock fixed → OwnsAll result }
        ensures sound { IsSoundAreas result }
    {
        Areas {
            table: AreaTable::make(table),
            fixed,
            live: 0,
        }
    }

    /// Gives back what they stand on: the table's words, which may hold anything, and the allocator as it is.
    pub fn close(self) -> (Words, Fixed)
        requires { HasNoArea self }
        ensures table { location_of result.0 ≡ self.table }
        ensures fixed { result.1 ≡ self.fixed }
    {
        let Areas {
            table,
            fixed,
            live: _,
        } = self;
        (table.into_words(), fixed)
    }

    /// The area that has a number, if one has.
    pub fn shape(&self, a: u32) -> Option<AreaShape>
        ensures shape { result ≡ area_at self.now a }
        ensures view { (raw : List (Option ℕ)) →
            view_numbered (views_of_areas self.now raw) a ≡ option_map (view_of_area raw a) result }
        ensures sound { IsSoundAreas self.now }
    {
        self.table.area(a)
    }

    /// How many areas live.
    pub fn live(&self) -> u32
        ensures value { result ≡ live_areas self.now }
        ensures views { (raw : List (Option ℕ)) → result ≡ length (views_of_areas self.now raw) }
        ensures sound { IsSoundAreas self.now }
    {
        self.live
    }
}
