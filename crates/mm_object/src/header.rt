// The first two words of an object, which say its shape.
ghost use Rattle.std.specs.Prelude.{◌≡◌, ◌<◌};
ghost use Rattle.mm_object.specs.Header.{kind_number, kind_numbered, first_word, second_word, shape_in, IsShape};

use mm_model::{Kind, Shape};

/// Bit 2 of the first word: the object has a finalizer.
const FINALIZE: u32 = 4;

/// The number of counted slots begins at bit 8 of the first word.
const COUNTED: u32 = 256;

/// Numbers of slots have 20 bits.
const SLOTS: u32 = 0x10_0000;

/// The first two words of a header.
#[derive(Clone, Copy, Debug, PartialEq, Eq)]
pub(crate) struct Header {
    pub first: u32,
    pub second: u32,
}

/// The number in bits 0 and 1 of the first word.
fn kind_number(kind: Kind) -> u32
    ensures number { result ≡ kind_number kind }
    ensures small { result < 4 }
{
    match kind {
        Kind::Traced => 0,
        Kind::Leaf => 1,
        Kind::Counted => 2,
        Kind::Weak => 3,
    }
}

fn kind_numbered(number: u32) -> Kind
    ensures { result ≡ kind_numbered number }
{
    match number {
        0 => Kind::Traced,
        1 => Kind::Leaf,
        2 => Kind::Counted,
        _ => Kind::Weak,
    }
}

impl Header {
    /// The words that say this shape.
    pub fn of(shape: Shape) -> Header
        requires { IsShape shape }
        ensures first { result.first ≡ first_word shape }
        ensures second { result.second ≡ second_word shape }
        ensures means { shape_in result.first result.second ≡ shape }
    {
        let finalize = if shape.finalize { FINALIZE } else { 0 };
        Header {
            first: kind_number(shape.kind) + finalize + COUNTED * shape.counted,
            second: shape.slots,
        }
    }

    /// The shape that the words say.
    pub fn shape(self) -> Shape
        ensures { result ≡ shape_in self.first self.second }
    {
        Shape {
            kind: kind_numbered(self.first % 4),
            finalize: self.first / FINALIZE % 2 == 1,
            counted: self.first / COUNTED % SLOTS,
            slots: self.second % SLOTS,
        }
    }
}
