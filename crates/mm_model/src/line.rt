// The lines of a log.

use crate::Reply;

/// What frees objects.
#[derive(Clone, Copy, Debug, PartialEq, Eq)]
pub enum Phase {
    /// Counting alone.
    Reap,
    /// Marking: a full collection, or the end of a cycle.
    Collect,
}

/// What the whole log comes to.
#[derive(Clone, Copy, Debug, PartialEq, Eq)]
pub struct Totals {
    /// Commands carried out, refused ones included.
    pub commands: u64,
    /// Objects that were ever made.
    pub born: u64,
    /// Objects that were freed.
    pub freed: u64,
    /// Objects that live.
    pub live: u64,
}

/// A line of the log.
#[derive(Clone, Copy, Debug, PartialEq, Eq)]
pub enum Line {
    /// So many slots of the object at this base were scanned.
    Scan { base: u32, slots: u32 },
    /// The finalizer of the object at this base ran; the sum is that of its slots' words, modulo 2^32.
    Final { base: u32, slots: u32, sum: u32 },
    /// A phase that frees so many objects.
    Phase { what: Phase, freed: u32 },
    /// The object at this base was freed.
    Free(u32),
    /// The reply, which ends the lines of a command.
    Reply(Reply),
    /// The last line of a whole log.
    Total(Totals),
}
