// What a command answers.

use crate::{Kind, Refusal};

/// How a word was stored.
#[derive(Clone, Copy, Debug, PartialEq, Eq)]
pub enum Put {
    /// The slot is counted, or the word falls in no counted object.
    Tight,
    /// The word falls in a live counted object and the slot isn't counted. A reap doesn't see the word, so it may free
    /// the object. Marking reaches it by the word where the slot is scanned.
    Loose,
}

/// The base of a weak reference.
#[derive(Clone, Copy, Debug, PartialEq, Eq)]
pub enum WeakAnswer {
    /// It was made now.
    Made(u32),
    /// It lived already.
    Kept(u32),
}

/// A new area.
#[derive(Clone, Copy, Debug, PartialEq, Eq)]
pub struct AreaAnswer {
    pub number: u32,
    pub base: u32,
}

/// What is told of an object.
#[derive(Clone, Copy, Debug, PartialEq, Eq)]
pub struct Mapped {
    pub base: u32,
    pub kind: Kind,
    pub finalize: bool,
    /// The bytes of its cell or of its pages.
    pub extent: u32,
}

/// What is told of the heap.
#[derive(Clone, Copy, Debug, PartialEq, Eq)]
pub struct Stat {
    /// Live objects.
    pub objects: u32,
    /// Zero-count objects.
    pub zero: u32,
    /// Live areas.
    pub areas: u32,
    /// Free pages.
    pub free: u32,
}

/// The reply that ends each command.
#[derive(Clone, Copy, Debug, PartialEq, Eq)]
pub enum Reply {
    Done,
    /// A word that falls in a live counted object was stored in a slot that isn't counted.
    Loose,
    /// The base of what was made.
    New(u32),
    /// The word that was pushed.
    Word(u32),
    Area(AreaAnswer),
    Object(Mapped),
    /// The cell means no object.
    Nothing,
    Stat(Stat),
    Refused(Refusal),
}
