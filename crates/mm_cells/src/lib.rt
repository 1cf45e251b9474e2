//! Cells of the size classes, and the marks of their objects.
#![tactic(auto)]

mod cells;
mod class;
mod lookups;
mod marks;
mod page_use;
mod placing;
mod table;
mod taking;
mod walks;

pub use cells::{Cell, Cells, cells_words};
pub use class::{PAGE_BYTES, cells_per_page, class_of, extent_of};
pub use lookups::FoundCell;
pub use marks::CellBits;
