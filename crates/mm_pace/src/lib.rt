//! Cycles that are driven by allocation: when one begins, how much of it is done for each birth, and when it ends.
#![tactic(auto)]

mod laws;
mod pace;
#[cfg(test)]
mod tests;

pub use laws::{
    a_paced_list_is_determined, a_trace_is_at_most_quadrupled, added_commands_bear_nothing,
    begin_begins_a_cycle, bytes_and_work_are_counted_on, cycles_end_in_time,
    paced_lists_can_be_carried_on, the_last_turn_tells_of_the_state,
};
pub use pace::Pace;
