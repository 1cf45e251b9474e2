//! Sets of small numbers in slices of words, whose lowest member is found in a few instructions.
#![tactic(auto)]

mod bits;
mod set;

pub use set::{clear, contains, insert, lowest, lowest_from, remove, set_words};
