// Laws of how lines of a log are spelled.
ghost use Rattle.std.specs.Prelude.{◌≡◌, ◌⊎◌, ◌++◌, [], ℕ, List};
ghost use Rattle.std.specs.List.{All};
ghost use Rattle.mm_model.specs.Logs.Spelling.{spelling, spelling_of};
ghost use Rattle.mm_model.specs.declared.line.Line.{Line};
ghost use Rattle.mm_laws.specs.Lines.{IsSpelledInFull, AreNothing, AreAlike};

/// Two different lines are never spelled alike but for `nothing`.
pub fn different_lines_are_spelled_differently()
    ensures { (x y : Line) → IsSpelledInFull x → IsSpelledInFull y → spelling x ≡ spelling y
        → (x ≡ y) ⊎ AreNothing x y }
{}

/// Where a spelling begins with another one, nothing comes behind it.
pub fn no_spelling_begins_another()
    ensures { (x y : Line) (rest : List ℕ) → spelling x ++ rest ≡ spelling y → rest ≡ [] }
{}

/// The bytes of a log determine its lines, but for `nothing`.
pub fn a_log_is_determined_by_its_bytes()
    ensures { (xs ys : List Line) → All IsSpelledInFull xs → All IsSpelledInFull ys → spelling_of xs ≡ spelling_of ys
        → AreAlike xs ys }
{}
