//! Whether bytes that anybody wrote are the log of given commands, and where they aren't, the first line that doesn't
//! fit.
#![tactic(auto)]

mod answer;
mod bits;
mod count;
mod counts;
mod header;
mod laws;
mod meaning;
mod numbers;
mod objects;
mod owner;
mod places;
mod shading;
mod size;
mod stack;
#[cfg(test)]
mod tests;

pub use answer::Answer;
pub use count::Count;
pub use counts::Counts;
pub use header::{Found, Header};
pub use laws::{
    a_put_may_move_its_count, a_put_moves_one_count, a_rest_is_no_spelling,
    a_write_moves_one_reference, an_answer_is_determined, each_front_fits, every_log_has_an_answer,
    lines_make_up_a_log, parts_show_a_view, spellings_are_lines, words_gray_one_by_one,
    zeros_are_zero_count_objects,
};
pub use numbers::Numbers;
pub use objects::Objects;
pub use owner::Owner;
pub use places::Places;
pub use size::size_of;
pub use stack::Stack;

/// Want of memory, the one refusal of this crate.
pub type NoMemory = std::alloc::AllocError;
