// The texts of faults and refusals.
ghost use Rattle.std.specs.Prelude.{◌≡◌};
ghost use Rattle.mm_model.specs.Logs.Spelling as spelling;

use mm_model::{LineFault, Refusal};

/// What a user reads of a line that is outside the grammar.
pub fn fault_text(fault: LineFault) -> &'static str
    ensures { result.now ≡ spelling.fault_text fault }
{
    match fault {
        LineFault::UnknownCommand => "unknown command",
        LineFault::WordCount => "wrong number of words",
        LineFault::BadWord => "bad word",
        LineFault::BadNumber => "bad number",
        LineFault::LineTooLong => "line too long",
    }
}

/// What the log says of a refused command.
pub fn refusal_text(refusal: Refusal) -> &'static str
    ensures { result.now ≡ spelling.refusal_text refusal }
{
    match refusal {
        Refusal::NoCell => "no cell",
        Refusal::Shape => "bad shape",
        Refusal::NoArea => "no area",
        Refusal::Nothing => "nothing",
        Refusal::Outside => "outside",
        Refusal::NoWeak => "no weak",
        Refusal::NoSlot => "no slot",
        Refusal::NotCounted => "not counted",
        Refusal::StackFull => "stack full",
        Refusal::AreasFull => "areas full",
        Refusal::Full => "full",
        Refusal::Busy => "busy",
        Refusal::Idle => "idle",
    }
}
