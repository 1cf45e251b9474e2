// Laws on references: a word that was made as a reference to an object goes on to mean it.
ghost use Rattle.std.specs.Prelude.{◌≡◌, ◌∷◌, ◌++◌, [], ℕ, List, Some, false, slice_get};
ghost use Rattle.mm_model.specs.declared.command.Command.TheVariants as commands;
ghost use Rattle.mm_model.specs.declared.line.Line.{Line};
ghost use Rattle.mm_model.specs.declared.line.Line.TheVariants as lines;
ghost use Rattle.mm_model.specs.declared.reply.Reply.TheVariants as replies;
ghost use Rattle.mm_model.specs.Value.{Value};
ghost use Rattle.mm_model.specs.Object.{Object};
ghost use Rattle.mm_model.specs.State.{State, Lives};
ghost use Rattle.mm_model.specs.Meaning.{resolved};
ghost use Rattle.mm_model.specs.Refusing.{is_stack_full};
ghost use Rattle.mm_model.specs.Good.{IsGood};
ghost use Rattle.mm_model.specs.Step.{IsStep};

/// The origin of a reference on the stack lives, and its word alone resolves to it.
pub fn words_mean_their_origin()
    ensures lives { (a : State) (i birth : ℕ) (value : Value) → IsGood a → slice_get a.stack i ≡ Some value
        → value.origin ≡ Some birth → (object : Object) × Lives a birth object }
    ensures resolved { (a : State) (i birth : ℕ) (value : Value) → IsGood a → slice_get a.stack i ≡ Some value
        → value.origin ≡ Some birth → resolved a value.word ≡ Some birth }
{}

/// `get` through a reference answers what a heap that never frees has in the slot: the word that was written last to
/// this slot of the reference's origin.
pub fn reads_through_references()
    ensures { (a : State) (i s birth : ℕ) (value : Value) (object : Object) (read : Value) (group : List Line)
        (b : State) → slice_get a.stack i ≡ Some value → value.origin ≡ Some birth
        → slice_get a.objects birth ≡ Some object → slice_get object.slots s ≡ Some read → is_stack_full a ≡ false
        → IsStep a (commands.Get i s) group b
        → (reaped : List Line) × (group ≡ reaped ++ lines.Reply (replies.Word read.word) ∷ []) }
{}
