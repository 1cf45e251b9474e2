//! The roots of the memory manager: the stack of words, and the areas.
#![tactic(auto)]

mod adding;
mod area_cells;
mod area_shape;
mod area_table;
mod areas;
mod scanned;
mod stack;

pub use area_shape::{AreaRefusal, AreaShape, ScannedArea};
pub use area_table::MOST_AREAS;
pub use areas::Areas;
pub use stack::{Stack, StackFull};
