// Who is told what a command did before it replies.
ghost use Rattle.std.specs.Prelude.{◌<◌, ℕ, ◌^◌, List, [], ◌∷◌, ◌++◌, length};
ghost use Rattle.mm_sweep.specs.Told.{Told, Finalize, PhaseOf, Free, Scan};

use mm_model::Phase;

/// What runs before an object is freed.
pub trait Finalizer {
    /// From an earlier moment to a later one it was told this and no more, as far as it can tell.
    ghost tells: { Self → Self → List Told → Type 0 };

    /// An object is about to be freed; `slots` are its words as last written.
    fn finalize(&mut self, base: u32, slots: &[u32])
        requires { length slots.now < 2 ^ 32 }
        ensures { tells self.old self.new (Finalize base slots.now ∷ []) };

    /// Nothing is told where nothing is called,
    ghost tells_nothing: { (journal : Self) → tells journal journal [] };

    /// and one call tells more after another.
    ghost tells_on: { (first next last : Self) → (earlier later : List Told) → tells first next earlier
        → tells next last later → tells first last (earlier ++ later) };
}

/// What keeps the lines of a command that stand before its reply.
pub trait Journal: Finalizer {
    /// A phase frees so many objects, each of which a call of `free` names.
    fn phase(&mut self, what: Phase, freed: u32)
        ensures { Self.tells self.old self.new (PhaseOf what freed ∷ []) };

    /// The object at this base is freed.
    fn free(&mut self, base: u32)
        ensures { Self.tells self.old self.new (Free base ∷ []) };

    /// So many slots of the object at this base were scanned.
    fn scan(&mut self, base: u32, slots: u32)
        ensures { Self.tells self.old self.new (Scan base slots ∷ []) };
}
