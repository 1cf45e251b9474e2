//! Sites of the objects of a heap: a journal that takes them away as objects are freed, and commands that keep them.
#![tactic(auto)]

mod execute;
mod extent;
mod sited;

pub use execute::execute_at;
pub use extent::object_extent;
pub use sited::Sited;
