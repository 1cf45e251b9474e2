// What an object is, as a caller asks for one.
ghost use Rattle.std.specs.Prelude.{◌≡◌};
ghost use Rattle.mm_model.specs.Object.{is_counted, is_scanned, is_weak};

/// What a collected object is.
#[derive(Clone, Copy, Debug, PartialEq, Eq)]
pub enum Kind {
    /// Not counted; its slots are scanned.
    Traced,
    /// Not counted; its slots are raw words that nothing scans.
    Leaf,
    /// Reference-counted; its slots are scanned.
    Counted,
    /// A weak reference, which has no slots. No trace can ask for one by `new`.
    Weak,
}

impl Kind {
    /// Whether references to an object of this kind are counted.
    pub fn is_counted(self) -> bool
        ensures { result ≡ is_counted self }
    {
        match self {
            Kind::Counted => true,
            Kind::Traced | Kind::Leaf | Kind::Weak => false,
        }
    }

    /// Whether marking reads the slots of an object of this kind.
    pub fn is_scanned(self) -> bool
        ensures { result ≡ is_scanned self }
    {
        match self {
            Kind::Traced | Kind::Counted => true,
            Kind::Leaf | Kind::Weak => false,
        }
    }

    /// Whether an object of this kind is a weak one.
    pub fn is_weak(self) -> bool
        ensures { result ≡ is_weak self }
    {
        match self {
            Kind::Weak => true,
            Kind::Traced | Kind::Leaf | Kind::Counted => false,
        }
    }
}

/// The kind and the slots of an object.
#[derive(Clone, Copy, Debug, PartialEq, Eq)]
pub struct Shape {
    pub kind: Kind,
    /// Whether a finalizer runs before the object is freed.
    pub finalize: bool,
    /// How many of the slots, from the first on, are counted.
    pub counted: u32,
    /// The number of slots, each one word of four bytes.
    pub slots: u32,
}

/// The room that a piece of some bytes takes.
#[derive(Clone, Copy, Debug, PartialEq, Eq)]
pub enum Size {
    /// A cell of the size class with this index.
    Small(u32),
    /// Whole pages, this many.
    Pages(u32),
}

/// How far marking has come with an object.
#[derive(Clone, Copy, Debug, PartialEq, Eq)]
pub enum Colour {
    /// Not reached yet.
    White,
    /// Reached, and not scanned to its end.
    Gray,
    /// Reached and scanned, or born in the cycle.
    Black,
}

/// What is scanned at once: an object and how many of its slots, at most 64.
#[derive(Clone, Copy, Debug, PartialEq, Eq)]
pub struct Part {
    pub base: u32,
    pub slots: u32,
}
