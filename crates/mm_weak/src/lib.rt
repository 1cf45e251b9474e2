//! Weak objects: a weak object gives its target for as long as the target lives.
#![tactic(auto)]

mod links;

pub use links::{clear_for, forget, target, weak_of};
