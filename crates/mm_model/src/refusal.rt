// Why a command or a line of a trace is refused.

use thiserror::Error;

/// Why a command is refused. A refused command changes nothing but the number of commands, apart from what `Full`
/// leaves.
#[derive(Clone, Copy, Debug, PartialEq, Eq)]
pub enum Refusal {
    /// No stack cell has the index. For `pop`: it is asked for more cells than the stack has.
    NoCell,
    /// No object that a command makes, or no area, has this shape: more counted slots than slots, more than 1,048,575
    /// slots, counted slots in a leaf, an area without cells, or a weak reference asked for by `new`.
    Shape,
    /// No live area has the number.
    NoArea,
    /// The stack cell means no object.
    Nothing,
    /// The sum doesn't fall in the object.
    Outside,
    /// The object is a weak reference where none may be, or isn't one where one must be.
    NoWeak,
    /// The object or area has no slot with this index.
    NoSlot,
    /// A counted slot takes 0 or the base of a live counted object alone.
    NotCounted,
    /// The stack is at its limit.
    StackFull,
    /// 1,024 areas live.
    AreasFull,
    /// There is no place, also after a reap and a full collection.
    Full,
    /// A cycle runs.
    Busy,
    /// No cycle runs.
    Idle,
}

/// Why a line of a trace isn't a command.
#[derive(Clone, Copy, Debug, PartialEq, Eq, Error)]
pub enum LineFault {
    #[error("unknown command")]
    UnknownCommand,
    #[error("wrong number of words")]
    WordCount,
    #[error("bad word")]
    BadWord,
    #[error("bad number")]
    BadNumber,
    #[error("line too long")]
    LineTooLong,
}
