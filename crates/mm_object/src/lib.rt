//! Objects in the cells of a region: their headers, their slots, and the words that lie in none of them.
#![tactic(auto)]

mod colours;
mod creating;
mod header;
mod heap;
mod raw;
mod resizing;
mod slot;
mod slots;

pub use heap::{Found, Heap};
pub use slot::Slot;
