//! Deferred counts of references, and the zero-count table.
#![tactic(auto)]

mod composite;
mod counts;
mod dead;
mod pins;
mod store;
mod table;

pub use composite::Composite;
pub use counts::Count;
pub use table::ZeroTable;
