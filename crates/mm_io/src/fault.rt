// What can go wrong at a source or a sink.
use std::alloc::AllocError;
use thiserror::Error;

/// The fault of a read, a write or a flush. What it was isn't told; that it came is counted.
#[derive(Clone, Copy, Debug, PartialEq, Eq)]
pub struct Failed;

/// Why a source couldn't turn to a named file.
#[derive(Clone, Copy, Debug, PartialEq, Eq, Error)]
pub enum ChooseFault {
    /// The source failed, and counted it.
    #[error("the file could not be opened")]
    Failed,
    /// There was no memory for the attempt. This isn't counted as a fault of the source.
    #[error("out of memory")]
    NoMemory,
}

/// Want of memory.
pub type NoMemory = AllocError;
