// What an audit answers of logs that are right, that end too early, and that go wrong at a line.
ghost use Rattle.std.specs.Prelude.{◌∷◌, [], codes};
ghost use Rattle.mm_model.specs.declared.command.Command.TheVariants.{Push, Pop, Reap, Begin, Step};
ghost use Rattle.mm_model.specs.declared.object.Kind.TheVariants.{Traced};
ghost use Rattle.mm_audit.specs.declared.answer.Answer.TheVariants.{Yes, No};
ghost use Rattle.mm_audit.specs.Audit.{IsAudited};
ghost use Rattle.mm_examples.specs.Examples.{usual, new};

/// A whole log is right. One that ends too early lacks the line behind, also where it ends within a group or lacks no
/// more than its last newline byte.
pub fn ends_of_logs()
    ensures whole { IsAudited usual (new Traced 0 4 ∷ []) (codes "new 4096\ntotal 1 1 0 1\n") Yes }
    ensures empty { IsAudited usual [] [] (No 1) }
    ensures no_total { IsAudited usual (new Traced 0 4 ∷ []) (codes "new 4096\n") (No 2) }
    ensures no_newline { IsAudited usual (Push 7 ∷ []) (codes "ok\ntotal 1 0 0 0") (No 2) }
    ensures within_a_group { IsAudited usual (Reap ∷ []) (codes " reap 0\n") (No 2) }
    ensures two_totals { IsAudited usual [] (codes "total 0 0 0 0\ntotal 0 0 0 0\n") (No 2) }
{}

/// The first line that doesn't fit is named.
pub fn wrong_lines()
    ensures place { IsAudited usual (new Traced 0 4 ∷ []) (codes "new 4128\ntotal 1 1 0 1\n") (No 1) }
    ensures total { IsAudited usual (Push 7 ∷ []) (codes "ok\ntotal 1 1 0 0\n") (No 2) }
{}
