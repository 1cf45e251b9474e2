// What stays with a run of words of an arena, and settles the account when the run comes back.
ghost use Rattle.std.specs.Prelude.{◌≡◌, ℕ};
ghost use Rattle.mm_words.specs.Piece.{Name};
ghost use Rattle.mm_words.specs.Ownership.{debt, at_place};

use std::marker::Model;

// The arena has lent `len` words from its word `place` on, and they lie at `ptr`.
pub(crate) struct Loan {
    pub(crate) ptr: *mut u32,
    pub(crate) len: u32,
    pub ghost arena: { Name },
    pub ghost place: { ℕ },
    pub ghost lies: { ptr ≡ at_place arena place },
}

impl Model for Loan {
    ghost also_owns = { λ d. debt d.arena d.place d.len };
}
