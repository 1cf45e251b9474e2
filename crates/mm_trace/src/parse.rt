// A line of a trace.
ghost use Rattle.std.specs.Prelude.{◌≡◌, if◌then◌else◌, Some, Ok, IfSome};
ghost use Rattle.mm_model.specs.Logs.Trace.{line_reading, words_reading, words_of, is_comment};

use crate::command::command_of;
use crate::cutter::LINE_LIMIT;
use crate::form::form_of;
use crate::plain::plain_command;
use crate::word::next_word;
use mm_model::{Command, LineFault};

/// What the words of a line say.
#[tactic(auto, unfolding(mm_model::specs::Logs::Trace::words_reading))]
fn read_words(line: &[u8]) -> Result<Option<Command>, LineFault>
    ensures { result ≡ words_reading (words_of line.now) }
{
    let Some((first, rest)) = next_word(line) else {
        return Ok(None);
    };
    let form = form_of(first).ok_or(LineFault::UnknownCommand)?;
    let command = command_of(form, rest)?;
    Ok(Some(command))
}

/// Reads one line of a trace, handed in without its newline. `None` is a line that is passed over: one
/// without words, and one whose first byte is `#`.
///
/// A fault is the first that holds of these: the line is too long, its first word names no command, the command
/// has another number of words, and then the leftmost word that is no kind or no number where one must stand.
#[tactic(auto, unfolding(mm_model::specs::Logs::Trace::line_reading))]
pub fn parse_line(bytes: &[u8]) -> Result<Option<Command>, LineFault>
    ensures { result ≡ line_reading bytes.now }
{
    if bytes.len() > LINE_LIMIT {
        return Err(LineFault::LineTooLong);
    }
    read_line(bytes)
}

/// The command of a line as programs write it: one space between words, and none before or behind them. It is read in
/// one pass, where `parse_line` goes by words. `None` says nothing of the line.
#[inline]
#[tactic(auto, unfolding(mm_model::specs::Logs::Trace::line_reading))]
pub fn parse_plain_line(bytes: &[u8]) -> Option<Command>
    ensures { IfSome result (λ command. line_reading bytes.now ≡ Ok (Some command)) }
{
    if bytes.len() > LINE_LIMIT {
        return None;
    }
    plain_command(bytes)
}

// What a line that isn't too long says.
fn read_line(line: &[u8]) -> Result<Option<Command>, LineFault>
    ensures { result ≡ (if is_comment line.now then Ok None else words_reading (words_of line.now)) }
{
    if starts_comment(line) {
        return Ok(None);
    }
    read_words(line)
}

// Whether the first byte is the number sign.
fn starts_comment(line: &[u8]) -> bool
    ensures { result ≡ is_comment line.now }
{
    match line {
        [b'#', ..] => true,
        _ => false,
    }
}
