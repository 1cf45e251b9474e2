//! Unmanaged blocks, in pages of size classes of their own.
#![tactic(auto)]

mod block;
mod fixed;

pub use block::FixedBlock;
pub use fixed::{Fixed, fixed_words};
