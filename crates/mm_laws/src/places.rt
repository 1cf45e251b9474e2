// Laws on where the next piece goes.
ghost use Rattle.std.specs.Prelude.{◌≡◌, ℕ, ◌*◌, ◌<◌, ◌≤◌, ◌↔◌, Option, Some};
ghost use Rattle.std.specs.List.{Contains};
ghost use Rattle.mm_model.specs.Places.SizeClass.{class_sizes, extent_of};
ghost use Rattle.mm_model.specs.State.{State};
ghost use Rattle.mm_model.specs.Places.Place.{Family, live_pieces, place_of};
ghost use Rattle.mm_model.specs.Good.{IsPlaced};
ghost use Rattle.mm_model.specs.Places.Lowest.{piece_of, IsFreeFor, IsRun, IsFreeCell, IsLowestOf, IsPreferred};

/// A place that is found lies in the region, is free, and shares its pages with its own kind alone.
pub fn place_is_free()
    ensures { (a : State) (limit : ℕ) (family : Family) (bytes base : ℕ) → IsPlaced a.settings.max (live_pieces a)
        → place_of a limit family bytes ≡ Some base → IsFreeFor limit (live_pieces a) (piece_of family bytes base) }
{}

/// Whole pages take the lowest run that is free. A cell takes the lowest free one in the pages of its family and class,
/// and where there is none, begins the lowest free page. No place is found exactly where there is none.
pub fn place_is_lowest()
    ensures pages { (a : State) (limit : ℕ) (family : Family) (bytes : ℕ) (found : Option ℕ) → 2048 < bytes
        → (place_of a limit family bytes ≡ found)
        ↔ IsLowestOf (IsRun (live_pieces a) limit (extent_of bytes)) found }
    ensures cell { (a : State) (limit : ℕ) (family : Family) (bytes : ℕ) (found : Option ℕ) → bytes ≤ 2048
        → (place_of a limit family bytes ≡ found)
        ↔ IsPreferred (IsFreeCell (live_pieces a) limit family (extent_of bytes)) (IsRun (live_pieces a) limit 4096)
        found }
{}

/// A piece takes the least cell, or the fewest whole pages, that have room for its bytes.
pub fn extents_are_least()
    ensures enough { (bytes : ℕ) → bytes ≤ extent_of bytes }
    ensures cell { (bytes size : ℕ) → bytes ≤ 2048 → Contains class_sizes size → bytes ≤ size
        → extent_of bytes ≤ size }
    ensures pages { (bytes count : ℕ) → 2048 < bytes → bytes ≤ 4096 * count → extent_of bytes ≤ 4096 * count }
{}
