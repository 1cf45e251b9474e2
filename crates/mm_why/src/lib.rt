//! Why an object is kept: a shortest path that leads to it from the stack or from a scanned area.
#![tactic(auto)]

mod bits;
mod following;
mod found;
mod hop;
mod laws;
mod noting;
mod queue;
mod roots;
mod tracing;
mod why;

pub use hop::{Hop, Via};
pub use laws::{paths_lead_to_what_a_state_reaches, paths_lead_to_what_is_reached};
pub use why::{NoMemory, Why};
