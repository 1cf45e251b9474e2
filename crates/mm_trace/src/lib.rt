//! The lines of a trace and of a log: bytes to commands, lines to bytes, and the texts that a user sees.
#![tactic(auto)]

mod command;
mod cutter;
mod form;
mod name;
mod number;
mod parse;
mod plain;
mod put;
mod text;
mod word;
mod write;

pub use cutter::{Cutter, line_end};
pub use mm_model::LineFault;
pub use number::number_of;
pub use parse::{parse_line, parse_plain_line};
pub use text::{fault_text, refusal_text};
pub use write::write_line;
