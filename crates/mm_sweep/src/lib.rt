//! Phases: what isn't reached is found, finalizers run, and objects are freed.
#![tactic(auto)]

mod finalizing;
mod freeing;
mod journal;
mod releasing;
mod sweeping;

pub use journal::{Finalizer, Journal};
pub use releasing::release;
pub use sweeping::sweep;
