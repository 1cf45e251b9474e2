// A slot as it is read.

/// The word of a slot of an object, or of a cell of an area, by the kind of the slot.
#[derive(Clone, Copy, Debug, PartialEq, Eq)]
pub enum Slot {
    /// It holds 0 or the base of a counted object.
    Count(u32),
    /// It is scanned, and not counted.
    Word(u32),
    /// Nothing looks at it.
    Raw(u32),
}

impl Slot {
    ghost use Rattle.std.specs.Prelude.{◌≡◌, ◌<◌};
    ghost use Rattle.mm_model.specs.Words.{slot_kind_at};
    ghost use Rattle.mm_object.specs.Object.{slot_with};

    /// A word of slot `s`, where the first `counted` of scanned slots are counted.
    pub fn of(scanned: bool, counted: u32, s: u32, word: u32) -> Slot
        ensures { result ≡ slot_with (slot_kind_at scanned counted s) word }
    {
        if !scanned {
            Slot::Raw(word)
        } else if s < counted {
            Slot::Count(word)
        } else {
            Slot::Word(word)
        }
    }
}
