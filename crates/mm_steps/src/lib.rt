//! A counter of steps that exists in contracts alone.
#![tactic(auto)]

mod steps;

pub use steps::Steps;
