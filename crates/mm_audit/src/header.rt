// What is kept of a live object beside the words of its slots.
ghost use Rattle.std.specs.Prelude.{◌≡◌};
ghost use Rattle.mm_audit.specs.Objects.{header_of, newborn_of};

use mm_model::{Colour, Kind, Shape};

/// What is known of a live object beside the words of its slots.
#[derive(Clone, Copy, Debug, PartialEq, Eq)]
pub struct Header {
    /// The bytes of its cell or of its pages.
    pub extent: u32,
    pub kind: Kind,
    /// Whether a finalizer runs before it is freed.
    pub finalize: bool,
    /// How many of the slots, from the first on, are counted.
    pub counted: u32,
    /// The number of slots, each one word.
    pub slots: u32,
    /// 255 counted places held its base once.
    pub sticky: bool,
    /// Of a target the base of its weak reference, of a weak reference that of its target.
    pub partner: Option<u32>,
    /// White where no cycle runs.
    pub colour: Colour,
}

impl Header {
    // That of a newborn object.
    pub(crate) fn newborn(extent: u32, shape: Shape, colour: Colour) -> Header
        ensures { result ≡ header_of (newborn_of extent shape colour) }
    {
        Header {
            extent,
            kind: shape.kind,
            finalize: shape.finalize,
            counted: shape.counted,
            slots: shape.slots,
            sticky: false,
            partner: None,
            colour,
        }
    }
}

/// A live object, found by a word that falls in it.
#[derive(Clone, Copy, Debug, PartialEq, Eq)]
pub struct Found {
    pub base: u32,
    pub header: Header,
}
