// The text of traces and logs, as it is read, cut and written.
ghost use Rattle.std.specs.Prelude.{◌≡◌, ◌∷◌, [], codes, None, Some, Ok, Err, true, false};
ghost use Rattle.mm_model.specs.Logs.Spelling.{spelling_of};
ghost use Rattle.mm_model.specs.Logs.Trace.{line_reading, lines_of, complete_lines};
ghost use Rattle.mm_model.specs.declared.refusal.LineFault.TheVariants.{UnknownCommand, WordCount, BadWord, BadNumber};
ghost use Rattle.mm_model.specs.declared.command.Command.TheVariants as commands;
ghost use Rattle.mm_model.specs.declared.line.Line.TheVariants as lines;
ghost use Rattle.mm_model.specs.declared.line.Phase.TheVariants as phases;
ghost use Rattle.mm_model.specs.declared.reply.Reply.TheVariants as replies;
ghost use Rattle.mm_model.specs.declared.object.Kind.TheVariants as kinds;

/// What single lines of a trace say.
#[tactic(auto, unfolding(mm_model::specs::Logs::Trace::line_reading, mm_model::specs::Logs::Trace::words_reading))]
pub fn worked_lines()
    ensures passed_over { line_reading (codes "   ") ≡ Ok None }
    ensures comment { line_reading (codes "# new") ≡ Ok None }
    ensures late_comment { line_reading (codes " # new") ≡ Err UnknownCommand }
    ensures object { line_reading (codes " new  rf 0007 12 ")
        ≡ Ok (Some (commands.New (record { kind = kinds.Counted; finalize = true; counted = 7; slots = 12 }))) }
    ensures count_first { line_reading (codes "new q") ≡ Err WordCount }
    ensures leftmost { line_reading (codes "new q x 1") ≡ Err BadWord }
    ensures greatest { line_reading (codes "push 4294967295") ≡ Ok (Some (commands.Push 4294967295)) }
    ensures too_great { line_reading (codes "push 4294967296") ≡ Err BadNumber }
    ensures eleven_digits { line_reading (codes "push 00000000001") ≡ Err BadNumber }
    ensures upper_case { line_reading (codes "Push 1") ≡ Err UnknownCommand }
{}

/// How bytes are cut into lines.
pub fn worked_cuts()
    ensures rest { lines_of (codes "a\nb") ≡ codes "a" ∷ codes "b" ∷ [] }
    ensures no_rest { lines_of (codes "a\n\n") ≡ codes "a" ∷ [] ∷ [] }
    ensures incomplete { complete_lines (codes "a\nb") ≡ codes "a" ∷ [] }
    ensures nothing { lines_of [] ≡ [] }
{}

/// How lines of a log are spelled.
pub fn worked_spelling()
    ensures group { spelling_of
        (lines.Final 4096 2 12 ∷ lines.Phase phases.Reap 1 ∷ lines.Free 4096 ∷ lines.Reply replies.Done ∷ [])
        ≡ codes " final 4096 2 12\n reap 1\n free 4096\nok\n" }
    ensures scan { spelling_of (lines.Scan 4096 64 ∷ []) ≡ codes " scan 4096 64\n" }
    ensures object { spelling_of (lines.Reply (replies.Object
        (record { base = 4096; kind = kinds.Traced; finalize = false; extent = 32 })) ∷ [])
        ≡ codes "object 4096 t 32\n" }
    ensures total { spelling_of (lines.Total (record { commands = 2; born = 0; freed = 0; live = 0 }) ∷ [])
        ≡ codes "total 2 0 0 0\n" }
{}
