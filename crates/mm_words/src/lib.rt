//! One allocation of 32-bit words, cut into pieces that own their words.
#![tactic(auto)]

mod allocation;
mod arena;
mod backing;
mod loan;
mod run;
mod words;

pub use arena::Arena;
pub use words::Words;

/// Want of memory, the one refusal of this crate.
pub type NoMemory = std::alloc::AllocError;
