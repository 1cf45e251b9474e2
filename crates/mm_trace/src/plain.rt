// The commands of plain lines, read in one pass.
ghost use Rattle.std.specs.Prelude.{◌≡◌, true, false, Some, Ok, IfSome, OnSome};
ghost use Rattle.mm_model.specs.Logs.Trace as trace;
ghost use Rattle.mm_model.specs.Logs.Trace.{words_of, words_reading, is_comment};
ghost use Rattle.mm_trace.specs.Form.{model_form};
ghost use Rattle.mm_trace.specs.Plain.{has_no_space, BeginsWithKind};

use crate::form::{Form, OfNone, OfOne, OfThree, OfTwo};
use crate::name::{behind, behind_word, name_at};
use crate::number::{last_number, number_at};
use mm_model::{Command, Kind, Shape};

// A kind word, and what stands behind it.
#[inline]
fn kind_named<'a>(
    text: &'a [u8],
    word: &[u8],
    kind: Kind,
    finalize: bool,
) -> Option<((Kind, bool), &'a [u8])>
    requires word { has_no_space word.now ≡ true }
    requires kind { trace.kind_of word.now ≡ Ok (kind, finalize) }
    ensures { IfSome result (λ read. BeginsWithKind text.now read.0 read.1.now) }
{
    let text = behind(text, word)?;
    let rest = behind_word(text)?;
    Some(((kind, finalize), rest))
}

// The kind word at the front of a text, and what stands behind it.
fn kind_at(text: &[u8]) -> Option<((Kind, bool), &[u8])>
    ensures { IfSome result (λ read. BeginsWithKind text.now read.0 read.1.now) }
{
    if let Some(found) = kind_named(text, b"t", Kind::Traced, false) {
        return Some(found);
    }
    if let Some(found) = kind_named(text, b"l", Kind::Leaf, false) {
        return Some(found);
    }
    if let Some(found) = kind_named(text, b"r", Kind::Counted, false) {
        return Some(found);
    }
    if let Some(found) = kind_named(text, b"tf", Kind::Traced, true) {
        return Some(found);
    }
    if let Some(found) = kind_named(text, b"lf", Kind::Leaf, true) {
        return Some(found);
    }
    kind_named(text, b"rf", Kind::Counted, true)
}

// A command without words.
#[inline]
fn of_none(name: OfNone, rest: &[u8]) -> Option<Command>
    ensures { IfSome result
        (λ command. trace.command_of (model_form (Form.None name)) (words_of rest.now) ≡ Ok command) }
{
    if rest.is_empty() {
        Some(name.command())
    } else {
        None
    }
}

// A command of one number.
#[inline]
fn of_one(name: OfOne, rest: &[u8]) -> Option<Command>
    ensures { IfSome result
        (λ command. trace.command_of (model_form (Form.One name)) (words_of rest.now) ≡ Ok command) }
{
    let a = last_number(rest)?;
    Some(name.command(a))
}

// A command of two numbers.
#[inline]
fn of_two(name: OfTwo, rest: &[u8]) -> Option<Command>
    ensures { IfSome result
        (λ command. trace.command_of (model_form (Form.Two name)) (words_of rest.now) ≡ Ok command) }
{
    let (a, rest) = number_at(rest)?;
    let b = last_number(rest)?;
    Some(name.command(a, b))
}

// A command of three numbers.
#[inline]
fn of_three(name: OfThree, rest: &[u8]) -> Option<Command>
    ensures { IfSome result
        (λ command. trace.command_of (model_form (Form.Three name)) (words_of rest.now) ≡ Ok command) }
{
    let (a, rest) = number_at(rest)?;
    let (b, rest) = number_at(rest)?;
    let c = last_number(rest)?;
    Some(name.command(a, b, c))
}

// A kind and two numbers make an object.
#[inline]
fn shaped(rest: &[u8]) -> Option<Command>
    ensures { IfSome result (λ command. trace.command_of (model_form Form.Shaped) (words_of rest.now) ≡ Ok command) }
{
    let ((kind, finalize), rest) = kind_at(rest)?;
    let (counted, rest) = number_at(rest)?;
    let slots = last_number(rest)?;
    Some(Command::New(Shape {
        kind,
        finalize,
        counted,
        slots,
    }))
}

// The command of a form and of what stands behind its name.
#[inline]
fn of_form(form: Form, rest: &[u8]) -> Option<Command>
    ensures { IfSome result (λ command. trace.command_of (model_form form) (words_of rest.now) ≡ Ok command) }
{
    match form {
        Form::Shaped => shaped(rest),
        Form::None(name) => of_none(name, rest),
        Form::One(name) => of_one(name, rest),
        Form::Two(name) => of_two(name, rest),
        Form::Three(name) => of_three(name, rest),
    }
}

/// The command of a plain line. `None` says nothing of a line that isn't plain.
#[inline]
#[tactic(auto, unfolding(mm_model::specs::Logs::Trace::words_reading))]
pub(crate) fn plain_command(line: &[u8]) -> Option<Command>
    ensures command { IfSome result (λ command. words_reading (words_of line.now) ≡ Ok (Some command)) }
    ensures plain { OnSome result (is_comment line.now ≡ false) }
{
    let (form, rest) = name_at(line)?;
    of_form(form, rest)
}
