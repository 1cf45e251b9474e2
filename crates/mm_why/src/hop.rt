// The hops of a path.

/// Which word leads to an object.
#[derive(Clone, Copy, Debug, PartialEq, Eq)]
pub enum Via {
    /// That of a stack cell, counted from the top.
    Stack { cell: u32 },
    /// That of a cell of the scanned area under a number.
    Area { area: u32, cell: u32 },
    /// That of a slot of the object before.
    Slot { slot: u32 },
}

/// One object of a path: its base, and the word that falls in it.
#[derive(Clone, Copy, Debug, PartialEq, Eq)]
pub struct Hop {
    pub via: Via,
    pub base: u32,
}
