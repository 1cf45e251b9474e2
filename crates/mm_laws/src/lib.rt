//! Laws that show that the model's definitions are what they should be.
#![tactic(auto)]

mod cycles;
mod logs;
mod places;
mod reachability;
mod references;
mod spelling;
mod states;
mod steps;
mod traces;
mod views;
mod weak;

pub use cycles::{
    begin_marks_only_what_is_reached, finish_frees_what_neither_reaches,
    finish_frees_what_was_unreachable_throughout, marking_gains_only_what_is_reached,
};
pub use logs::{
    a_log_has_one_list_of_turns, commands_and_bytes_determine_a_log, legal_logs_are_faithful,
    legal_logs_can_be_cut, no_command_is_both_answered_and_refused_nothing, steps_are_faithful,
};
pub use places::{extents_are_least, place_is_free, place_is_lowest};
pub use reachability::{
    collections_leave_what_is_reached, phases_spare_protected, protected_is_reached,
    reapable_is_not_protected, unheld_is_reapable, unmarked_is_not_reached,
};
pub use references::{reads_through_references, words_mean_their_origin};
pub use spelling::{
    a_log_is_determined_by_its_bytes, different_lines_are_spelled_differently,
    no_spelling_begins_another,
};
pub use states::{empty_is_good, legal_logs_lead_to_good_states, steps_keep_states_good};
pub use steps::{
    each_command_has_a_step, lines_determine_the_state, only_step_chooses,
    sticky_objects_stay_sticky,
};
pub use traces::{lines_are_cut_at_newlines, traces_join_at_a_newline};
pub use views::{good_states_have_good_views, rows_of_views_are_rows, steps_of_views_are_steps};
pub use weak::{
    look_is_empty_exactly_once_the_target_is_gone, looks_tell_whether_the_target_is_gone,
    runs_leave_weak_references_their_targets, weak_references_are_made_for_a_target,
    weak_references_follow_their_targets,
};
