// What a search looks for a place for, and what is made there.

use mm_model::{AreaAnswer, Shape};

/// The shape of a new area.
#[derive(Clone, Copy, Debug, PartialEq, Eq)]
pub(crate) struct AreaWanted {
    pub(crate) scanned: bool,
    pub(crate) counted: u32,
    pub(crate) cells: u32,
}

/// What room is wanted for.
#[derive(Clone, Copy, Debug, PartialEq, Eq)]
pub(crate) enum Wanted {
    Object(Shape),
    /// The weak object of the object at this base, which has none.
    WeakOf(u32),
    Area(AreaWanted),
}

/// What was made.
#[derive(Clone, Copy, Debug, PartialEq, Eq)]
pub(crate) enum Made {
    /// An object, or a weak object, at this base.
    Object(u32),
    Area(AreaAnswer),
}

/// How far a search may go: within the region as it is, or to its greatest number of pages.
#[derive(Clone, Copy, Debug, PartialEq, Eq)]
pub(crate) enum Reach {
    Now,
    Grown,
}
