//! Reaping: which counted objects nothing but the dead refers to.
#![tactic(auto)]

mod dead;
mod following;
mod pins;
mod reaping;

pub use reaping::reap;
