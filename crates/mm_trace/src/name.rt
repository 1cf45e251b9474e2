// The name at the front of a plain line: one where no space stands but one between two words.
ghost use Rattle.std.specs.Prelude.{◌≡◌, ◌++◌, true, false, Some, IfSome, OnSome};
ghost use Rattle.mm_model.specs.Logs.Trace.{forms, entry_at, is_comment};
ghost use Rattle.mm_trace.specs.Form.{model_form};
ghost use Rattle.mm_trace.specs.Plain.{is_name, EndsWord, BeginsWithName};

use crate::form::{Form, OfNone, OfOne, OfThree, OfTwo};
use crate::word::is;

/// What stands behind these four bytes, if a line begins with them.
#[inline]
fn behind_four<'a>(line: &'a [u8], front: &[u8; 4]) -> Option<&'a [u8]>
    ensures { IfSome result (λ rest. line.now ≡ front.now ++ rest.now) }
{
    let [a, b, c, d, rest @ ..] = line else {
        return None;
    };
    // As numbers, four bytes are compared at once.
    if u32::from_le_bytes([*a, *b, *c, *d]) != u32::from_le_bytes(*front) {
        return None;
    }
    Some(rest)
}

/// What stands behind these bytes, if a text begins with them.
#[inline]
pub(crate) fn behind<'a>(text: &'a [u8], front: &[u8]) -> Option<&'a [u8]>
    ensures { IfSome result (λ rest. text.now ≡ front.now ++ rest.now) }
{
    let (start, rest) = text.split_at_checked(front.len())?;
    if is(start, front) { Some(rest) } else { None }
}

/// What stands behind a space, if a text begins with one.
#[inline]
pub(crate) fn behind_space(text: &[u8]) -> Option<&[u8]>
    ensures { IfSome result (λ rest. EndsWord text.now rest.now) }
{
    match text {
        [b' ', rest @ ..] => Some(rest),
        _ => None,
    }
}

/// What follows the end of a word: nothing at the end of the line, else what stands behind one space.
#[inline]
pub(crate) fn behind_word(text: &[u8]) -> Option<&[u8]>
    ensures { IfSome result (λ rest. EndsWord text.now rest.now) }
{
    match text {
        [] => Some(text),
        _ => behind_space(text),
    }
}

// A name of four letters.
#[inline]
fn four<'a>(line: &'a [u8], name: &[u8; 4], form: Form) -> Option<(Form, &'a [u8])>
    requires name { is_name name.now ≡ true }
    requires form { entry_at forms name.now ≡ Some (model_form form) }
    ensures form { IfSome result (λ found. BeginsWithName line.now found.0 found.1.now) }
    ensures plain { OnSome result (is_comment line.now ≡ false) }
{
    let text = behind_four(line, name)?;
    let rest = behind_word(text)?;
    Some((form, rest))
}

// A name of three letters, with the space behind it.
#[inline]
fn three<'a>(line: &'a [u8], name: &[u8; 3], form: Form) -> Option<(Form, &'a [u8])>
    requires name { is_name name.now ≡ true }
    requires form { entry_at forms name.now ≡ Some (model_form form) }
    ensures form { IfSome result (λ found. BeginsWithName line.now found.0 found.1.now) }
    ensures plain { OnSome result (is_comment line.now ≡ false) }
{
    let rest = behind_four(line, &[name[0], name[1], name[2], b' '])?;
    Some((form, rest))
}

// A longer name.
#[inline]
fn long<'a>(line: &'a [u8], front: &[u8; 4], back: &[u8], form: Form) -> Option<(Form, &'a [u8])>
    requires name { is_name (front.now ++ back.now) ≡ true }
    requires form { entry_at forms (front.now ++ back.now) ≡ Some (model_form form) }
    ensures form { IfSome result (λ found. BeginsWithName line.now found.0 found.1.now) }
    ensures plain { OnSome result (is_comment line.now ≡ false) }
{
    let text = behind_four(line, front)?;
    let text = behind(text, back)?;
    let rest = behind_word(text)?;
    Some((form, rest))
}

// A name that begins with `p`.
#[inline]
fn with_p(line: &[u8]) -> Option<(Form, &[u8])>
    ensures form { IfSome result (λ found. BeginsWithName line.now found.0 found.1.now) }
    ensures plain { OnSome result (is_comment line.now ≡ false) }
{
    if let Some(found) = four(line, b"push", Form::One(OfOne::Push)) {
        return Some(found);
    }
    if let Some(found) = three(line, b"pop", Form::One(OfOne::Pop)) {
        return Some(found);
    }
    three(line, b"put", Form::Three(OfThree::Put))
}

// A name that begins with `a`.
#[inline]
fn with_a(line: &[u8]) -> Option<(Form, &[u8])>
    ensures form { IfSome result (λ found. BeginsWithName line.now found.0 found.1.now) }
    ensures plain { OnSome result (is_comment line.now ≡ false) }
{
    if let Some(found) = four(line, b"aget", Form::Two(OfTwo::AreaGet)) {
        return Some(found);
    }
    four(line, b"aput", Form::Three(OfThree::AreaPut))
}

// A name that begins with `d`.
#[inline]
fn with_d(line: &[u8]) -> Option<(Form, &[u8])>
    ensures form { IfSome result (λ found. BeginsWithName line.now found.0 found.1.now) }
    ensures plain { OnSome result (is_comment line.now ≡ false) }
{
    if let Some(found) = three(line, b"dup", Form::One(OfOne::Dup)) {
        return Some(found);
    }
    four(line, b"drop", Form::One(OfOne::DropArea))
}

// A name that begins with `f`.
#[inline]
fn with_f(line: &[u8]) -> Option<(Form, &[u8])>
    ensures form { IfSome result (λ found. BeginsWithName line.now found.0 found.1.now) }
    ensures plain { OnSome result (is_comment line.now ≡ false) }
{
    if let Some(found) = long(line, b"fixe", b"d", Form::One(OfOne::Fixed)) {
        return Some(found);
    }
    long(line, b"fini", b"sh", Form::None(OfNone::Finish))
}

// A name that begins with `r`.
#[inline]
fn with_r(line: &[u8]) -> Option<(Form, &[u8])>
    ensures form { IfSome result (λ found. BeginsWithName line.now found.0 found.1.now) }
    ensures plain { OnSome result (is_comment line.now ≡ false) }
{
    if let Some(found) = four(line, b"root", Form::Two(OfTwo::Root)) {
        return Some(found);
    }
    four(line, b"reap", Form::None(OfNone::Reap))
}

// A name that begins with `s`.
#[inline]
fn with_s(line: &[u8]) -> Option<(Form, &[u8])>
    ensures form { IfSome result (λ found. BeginsWithName line.now found.0 found.1.now) }
    ensures plain { OnSome result (is_comment line.now ≡ false) }
{
    if let Some(found) = four(line, b"step", Form::One(OfOne::Step)) {
        return Some(found);
    }
    four(line, b"stat", Form::None(OfNone::Stat))
}

/// The form of the command that a plain line names, and what stands behind the name. `None` says nothing of a line
/// that isn't plain.
#[inline]
pub(crate) fn name_at(line: &[u8]) -> Option<(Form, &[u8])>
    ensures form { IfSome result (λ found. BeginsWithName line.now found.0 found.1.now) }
    ensures plain { OnSome result (is_comment line.now ≡ false) }
{
    match line.first()? {
        b'a' => with_a(line),
        b'b' => long(line, b"begi", b"n", Form::None(OfNone::Begin)),
        b'c' => long(line, b"coll", b"ect", Form::None(OfNone::Collect)),
        b'd' => with_d(line),
        b'f' => with_f(line),
        b'g' => three(line, b"get", Form::Two(OfTwo::Get)),
        b'i' => long(line, b"inne", b"r", Form::Two(OfTwo::Inner)),
        b'l' => four(line, b"look", Form::One(OfOne::Look)),
        b'm' => three(line, b"map", Form::One(OfOne::Map)),
        b'n' => three(line, b"new", Form::Shaped),
        b'p' => with_p(line),
        b'r' => with_r(line),
        b's' => with_s(line),
        b'w' => four(line, b"weak", Form::One(OfOne::Weak)),
        _ => None,
    }
}
