// What a command's first word says of the words after it.
ghost use Rattle.std.specs.Prelude.{◌≡◌, if◌then◌else◌, bytes_eq, codes};
ghost use Rattle.mm_trace.specs.Form.{with_none, with_one, with_two, with_three, model_form};
ghost use Rattle.std.specs.Option.{option_map};
ghost use Rattle.mm_model.specs.Logs.Trace.{forms, entry_at};

use crate::word::is;
use mm_model::Command;

/// The commands without numbers.
#[derive(Clone, Copy)]
pub(crate) enum OfNone {
    Reap,
    Collect,
    Begin,
    Finish,
    Stat,
}

impl OfNone {
    /// The command of this name.
    #[inline]
    pub(crate) fn command(self) -> Command
        ensures { result ≡ with_none self }
    {
        match self {
            OfNone::Reap => Command::Reap,
            OfNone::Collect => Command::Collect,
            OfNone::Begin => Command::Begin,
            OfNone::Finish => Command::Finish,
            OfNone::Stat => Command::Stat,
        }
    }
}

/// The commands of one number.
#[derive(Clone, Copy)]
pub(crate) enum OfOne {
    Push,
    Dup,
    Pop,
    Weak,
    Look,
    Fixed,
    DropArea,
    Step,
    Map,
}

impl OfOne {
    /// The command of this name.
    #[inline]
    pub(crate) fn command(self, a: u32) -> Command
        ensures { result ≡ with_one self a }
    {
        match self {
            OfOne::Push => Command::Push(a),
            OfOne::Dup => Command::Dup(a),
            OfOne::Pop => Command::Pop(a),
            OfOne::Weak => Command::Weak(a),
            OfOne::Look => Command::Look(a),
            OfOne::Fixed => Command::Fixed(a),
            OfOne::DropArea => Command::DropArea(a),
            OfOne::Step => Command::Step(a),
            OfOne::Map => Command::Map(a),
        }
    }
}

/// The commands of two numbers.
#[derive(Clone, Copy)]
pub(crate) enum OfTwo {
    Inner,
    Get,
    Root,
    AreaGet,
}

impl OfTwo {
    /// The command of this name.
    #[inline]
    pub(crate) fn command(self, a: u32, b: u32) -> Command
        ensures { result ≡ with_two self a b }
    {
        match self {
            OfTwo::Inner => Command::Inner(a, b),
            OfTwo::Get => Command::Get(a, b),
            OfTwo::Root => Command::Root(a, b),
            OfTwo::AreaGet => Command::AreaGet(a, b),
        }
    }
}

/// The commands of three numbers.
#[derive(Clone, Copy)]
pub(crate) enum OfThree {
    Put,
    AreaPut,
}

impl OfThree {
    /// The command of this name.
    #[inline]
    pub(crate) fn command(self, a: u32, b: u32, c: u32) -> Command
        ensures { result ≡ with_three self a b c }
    {
        match self {
            OfThree::Put => Command::Put(a, b, c),
            OfThree::AreaPut => Command::AreaPut(a, b, c),
        }
    }
}

/// The words that stand behind a command's first word.
#[derive(Clone, Copy)]
pub(crate) enum Form {
    /// A kind and two numbers.
    Shaped,
    None(OfNone),
    One(OfOne),
    Two(OfTwo),
    Three(OfThree),
}

// The form where the word is this name.
#[inline]
fn named(word: &[u8], name: &[u8], form: Form) -> Option<Form>
    ensures { result ≡ (if bytes_eq name.now word.now then Some form else None) }
{
    if is(word, name) { Some(form) } else { None }
}

// The form of the one of two names that the word is.
#[inline]
fn either(word: &[u8], name: &[u8], form: Form, other: &[u8], other_form: Form) -> Option<Form>
    ensures { result ≡ (if bytes_eq name.now word.now then Some form
        else (if bytes_eq other.now word.now then Some other_form else None)) }
{
    if is(word, name) {
        return Some(form);
    }
    named(word, other, other_form)
}

// The form of a name that begins with `p`.
#[inline]
fn with_p(word: &[u8]) -> Option<Form>
    ensures { result ≡ (if bytes_eq (codes "push") word.now then Some (Form.One OfOne.Push)
        else (if bytes_eq (codes "pop") word.now then Some (Form.One OfOne.Pop)
        else (if bytes_eq (codes "put") word.now then Some (Form.Three OfThree.Put) else None))) }
{
    if is(word, b"push") {
        return Some(Form::One(OfOne::Push));
    }
    either(
        word,
        b"pop",
        Form::One(OfOne::Pop),
        b"put",
        Form::Three(OfThree::Put),
    )
}

/// The form of the command that has this name, if there is one.
pub(crate) fn form_of(word: &[u8]) -> Option<Form>
    ensures { option_map model_form result ≡ entry_at forms word.now }
{
    let first = word.first()?;
    match *first {
        b'a' => either(
            word,
            b"aget",
            Form::Two(OfTwo::AreaGet),
            b"aput",
            Form::Three(OfThree::AreaPut),
        ),
        b'b' => named(word, b"begin", Form::None(OfNone::Begin)),
        b'c' => named(word, b"collect", Form::None(OfNone::Collect)),
        b'd' => either(
            word,
            b"dup",
            Form::One(OfOne::Dup),
            b"drop",
            Form::One(OfOne::DropArea),
        ),
        b'f' => either(
            word,
            b"fixed",
            Form::One(OfOne::Fixed),
            b"finish",
            Form::None(OfNone::Finish),
        ),
        b'g' => named(word, b"get", Form::Two(OfTwo::Get)),
        b'i' => named(word, b"inner", Form::Two(OfTwo::Inner)),
        b'l' => named(word, b"look", Form::One(OfOne::Look)),
        b'm' => named(word, b"map", Form::One(OfOne::Map)),
        b'n' => named(word, b"new", Form::Shaped),
        b'p' => with_p(word),
        b'r' => either(
            word,
            b"root",
            Form::Two(OfTwo::Root),
            b"reap",
            Form::None(OfNone::Reap),
        ),
        b's' => either(
            word,
            b"step",
            Form::One(OfOne::Step),
            b"stat",
            Form::None(OfNone::Stat),
        ),
        b'w' => named(word, b"weak", Form::One(OfOne::Weak)),
        _ => None,
    }
}
