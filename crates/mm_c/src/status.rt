// How a call went.
ghost use Rattle.std.specs.Prelude.{◌≡◌};
ghost use Rattle.mm_c.specs.Status.{number, status_of, status_of_fault};

use mm_gc::WordsFault;
use mm_model::Refusal;

/// How a call went: it was done, the heap refused it, or it didn't come to the heap.
#[derive(Clone, Copy, Debug, PartialEq, Eq)]
pub enum Status {
    Done,
    NoCell,
    Shape,
    NoArea,
    Nothing,
    Outside,
    NoWeak,
    NoSlot,
    NotCounted,
    StackFull,
    AreasFull,
    Full,
    Busy,
    Idle,
    /// Marking looks at the slots of the object, so its words aren't read or written in bulk.
    Scanned,
    /// No heap is open.
    Closed,
    /// One is open already.
    Open,
    NoMemory,
    /// The settings aren't within their limits.
    BadSettings,
    /// As many objects were born as can be counted.
    WornOut,
    /// No finalizer waits.
    NoFinal,
    /// There was no memory for finalizers that ran since those that were handed out.
    FinalsLost,
}

impl Status {
    pub fn number(self) -> u32
        ensures { result ≡ number self }
    {
        match self {
            Status::Done => 0,
            Status::NoCell => 1,
            Status::Shape => 2,
            Status::NoArea => 3,
            Status::Nothing => 4,
            Status::Outside => 5,
            Status::NoWeak => 6,
            Status::NoSlot => 7,
            Status::NotCounted => 8,
            Status::StackFull => 9,
            Status::AreasFull => 10,
            Status::Full => 11,
            Status::Busy => 12,
            Status::Idle => 13,
            Status::Scanned => 14,
            Status::Closed => 100,
            Status::Open => 101,
            Status::NoMemory => 102,
            Status::BadSettings => 103,
            Status::WornOut => 104,
            Status::NoFinal => 105,
            Status::FinalsLost => 106,
        }
    }

    pub fn of(because: Refusal) -> Status
        ensures { result ≡ status_of because }
    {
        match because {
            Refusal::NoCell => Status::NoCell,
            Refusal::Shape => Status::Shape,
            Refusal::NoArea => Status::NoArea,
            Refusal::Nothing => Status::Nothing,
            Refusal::Outside => Status::Outside,
            Refusal::NoWeak => Status::NoWeak,
            Refusal::NoSlot => Status::NoSlot,
            Refusal::NotCounted => Status::NotCounted,
            Refusal::StackFull => Status::StackFull,
            Refusal::AreasFull => Status::AreasFull,
            Refusal::Full => Status::Full,
            Refusal::Busy => Status::Busy,
            Refusal::Idle => Status::Idle,
        }
    }

    pub fn of_fault(fault: WordsFault) -> Status
        ensures { result ≡ status_of_fault fault }
    {
        match fault {
            WordsFault::Refused(because) => Status::of(because),
            WordsFault::Scanned => Status::Scanned,
        }
    }
}
