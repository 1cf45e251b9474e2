// The composite word of a counted object.
ghost use Rattle.std.specs.Prelude.{◌≡◌, ◌≢◌, ◌<◌, ◌+◌, ◌-◌, ◌==◌, true, false, if◌then◌else◌};
ghost use Rattle.mm_count.specs.Composite.{composite_in, word_of, FitsWord};
ghost use Rattle.mm_count.specs.Counts.{count_in};

use crate::counts::Count;

/// The place stands above the eight bits of the count, and has 20 bits.
const PLACE: u32 = 0x100;

const PLACES: u32 = 0x10_0000;

/// The greatest count that isn't sticky.
const MOST: u32 = 254;

const STICKY: u32 = 0x2000_0000;

const PINNED: u32 = 0x4000_0000;

const LISTED: u32 = 0x8000_0000;

/// What the composite word of a counted object says.
#[derive(Clone, Copy, Debug, PartialEq, Eq)]
pub struct Composite {
    /// How many references from memory the object has, or 255 where it is sticky.
    pub count: u32,
    /// Its place in the zero-count table, or 0 while it isn't there.
    pub place: u32,
    /// It had 255 references once, and is counted no more.
    pub sticky: bool,
    /// A word of the stack names it. It is set within a reap alone.
    pub pinned: bool,
    /// It is in the zero-count table.
    pub listed: bool,
}

/// The bit where it is set.
fn bit(set: bool, bit: u32) -> u32
    ensures { result ≡ (if set then bit else 0) }
{
    if set { bit } else { 0 }
}

impl Composite {
    /// What a word says.
    pub fn of(word: u32) -> Composite
        ensures says { result ≡ composite_in word }
        ensures fits { FitsWord result }
    {
        Composite {
            count: word % PLACE,
            place: word / PLACE % PLACES,
            sticky: word / STICKY % 2 == 1,
            pinned: word / PINNED % 2 == 1,
            listed: word / LISTED == 1,
        }
    }

    /// The word that says it.
    pub fn word(self) -> u32
        requires { FitsWord self }
        ensures word { result ≡ word_of self }
        ensures says { composite_in result ≡ self }
    {
        self.count
            + PLACE * self.place
            + bit(self.sticky, STICKY)
            + bit(self.pinned, PINNED)
            + bit(self.listed, LISTED)
    }

    /// One reference more. It comes out of the table, and is sticky once the count is 255.
    pub(crate) fn raised(self) -> Composite
        requires { self.count < 255 }
        ensures { result ≡
            record self { count = self.count + 1; place = 0; sticky = self.count == 254; listed = false } }
    {
        Composite {
            count: self.count + 1,
            place: 0,
            sticky: self.count == MOST,
            pinned: self.pinned,
            listed: false,
        }
    }

    /// One reference fewer.
    pub(crate) fn lowered(self) -> Composite
        requires { self.count ≢ 0 }
        ensures { result ≡ record self { count = self.count - 1 } }
    {
        Composite {
            count: self.count - 1,
            place: self.place,
            sticky: self.sticky,
            pinned: self.pinned,
            listed: self.listed,
        }
    }

    /// In the table.
    pub(crate) fn entered(self, place: u32) -> Composite
        ensures { result ≡ record self { place = place; listed = true } }
    {
        Composite {
            count: self.count,
            place,
            sticky: self.sticky,
            pinned: self.pinned,
            listed: true,
        }
    }

    /// Out of the table.
    pub(crate) fn left(self) -> Composite
        ensures { result ≡ record self { place = 0; listed = false } }
    {
        Composite {
            count: self.count,
            place: 0,
            sticky: self.sticky,
            pinned: self.pinned,
            listed: false,
        }
    }

    pub(crate) fn with_pin(self, pinned: bool) -> Composite
        ensures { result ≡ record self { pinned = pinned } }
    {
        Composite {
            count: self.count,
            place: self.place,
            sticky: self.sticky,
            pinned,
            listed: self.listed,
        }
    }

    /// The count that it says.
    pub(crate) fn counted(self) -> Count
        ensures { result ≡ count_in self }
    {
        if self.sticky {
            Count::Sticky
        } else {
            Count::Exact(self.count)
        }
    }
}
