//! Marking, in parts and between the commands of a program.
#![tactic(auto)]

mod choosing;
mod colours;
mod cycle;
mod draining;
mod marker;
mod roots;
mod scanning;
mod shading;

pub use marker::Marker;
