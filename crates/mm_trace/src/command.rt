// The command of a form and the words after the first.
ghost use Rattle.std.specs.Prelude.{◌≡◌};
ghost use Rattle.mm_model.specs.Logs.Trace as trace;
ghost use Rattle.mm_model.specs.Logs.Trace.{words_of};
ghost use Rattle.mm_trace.specs.Form.{with_none, with_one, with_two, with_three, model_form};

use crate::form::{Form, OfNone, OfOne, OfThree, OfTwo};
use crate::number::number_of;
use crate::word::{is, no_word, one_word, three_words, two_words};
use mm_model::{Command, Kind, LineFault, Shape};

/// The kind that a word names, and whether a finalizer is asked for.
fn kind_of(word: &[u8]) -> Result<(Kind, bool), LineFault>
    ensures { result ≡ trace.kind_of word.now }
{
    if is(word, b"t") {
        return Ok((Kind::Traced, false));
    }
    if is(word, b"l") {
        return Ok((Kind::Leaf, false));
    }
    if is(word, b"r") {
        return Ok((Kind::Counted, false));
    }
    if is(word, b"tf") {
        return Ok((Kind::Traced, true));
    }
    if is(word, b"lf") {
        return Ok((Kind::Leaf, true));
    }
    if is(word, b"rf") {
        return Ok((Kind::Counted, true));
    }
    Err(LineFault::BadWord)
}

// A command that has no words.
fn of_none(name: OfNone, rest: &[u8]) -> Result<Command, LineFault>
    ensures { result ≡ trace.command_of (trace.Bare (with_none name)) (words_of rest.now) }
{
    no_word(rest)?;
    Ok(name.command())
}

// A command of one number.
fn of_one(name: OfOne, rest: &[u8]) -> Result<Command, LineFault>
    ensures { result ≡ trace.command_of (trace.OneNumber (with_one name)) (words_of rest.now) }
{
    let word = one_word(rest)?;
    let a = number_of(word)?;
    Ok(name.command(a))
}

// A command of two numbers.
fn of_two(name: OfTwo, rest: &[u8]) -> Result<Command, LineFault>
    ensures { result ≡ trace.command_of (trace.TwoNumbers (with_two name)) (words_of rest.now) }
{
    let (first, second) = two_words(rest)?;
    let a = number_of(first)?;
    let b = number_of(second)?;
    Ok(name.command(a, b))
}

// A command of three numbers.
fn of_three(name: OfThree, rest: &[u8]) -> Result<Command, LineFault>
    ensures { result ≡ trace.command_of (trace.ThreeNumbers (with_three name)) (words_of rest.now) }
{
    let (first, second, third) = three_words(rest)?;
    let a = number_of(first)?;
    let b = number_of(second)?;
    let c = number_of(third)?;
    Ok(name.command(a, b, c))
}

// A kind and two numbers make an object.
fn shaped(rest: &[u8]) -> Result<Command, LineFault>
    ensures { result ≡ trace.command_of trace.Shaped (words_of rest.now) }
{
    let (first, second, third) = three_words(rest)?;
    let (kind, finalize) = kind_of(first)?;
    let counted = number_of(second)?;
    let slots = number_of(third)?;
    Ok(Command::New(Shape {
        kind,
        finalize,
        counted,
        slots,
    }))
}

/// The command of a form and of the rest of its line. How many words there are is judged before any of them.
pub(crate) fn command_of(form: Form, rest: &[u8]) -> Result<Command, LineFault>
    ensures { result ≡ trace.command_of (model_form form) (words_of rest.now) }
{
    match form {
        Form::Shaped => shaped(rest),
        Form::None(name) => of_none(name, rest),
        Form::One(name) => of_one(name, rest),
        Form::Two(name) => of_two(name, rest),
        Form::Three(name) => of_three(name, rest),
    }
}
