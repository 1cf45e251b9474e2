// What is told of areas, and why a call on them is refused.

/// An area: which of its cells are counted or scanned, and where they lie.
#[derive(Clone, Copy, Debug, PartialEq, Eq)]
pub struct AreaShape {
    /// Its words are roots.
    pub scanned: bool,
    /// How many of the cells, from the first on, are counted.
    pub counted: u32,
    pub cells: u32,
    pub base: u32,
    /// The bytes of its block.
    pub extent: u32,
}

/// Why a call on areas is refused.
#[derive(Clone, Copy, Debug, PartialEq, Eq)]
pub enum AreaRefusal {
    /// There are as many areas as there may be.
    AreasFull,
    /// There is no place for the cells.
    NoRun,
    /// No area has the number.
    NoArea,
    /// The area has no such cell.
    NoSlot,
}

/// An area whose words are roots.
#[derive(Clone, Copy, Debug, PartialEq, Eq)]
pub struct ScannedArea {
    pub number: u32,
    pub base: u32,
    pub cells: u32,
}
