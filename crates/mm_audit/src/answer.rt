// What an audit answers.

/// Whether a log is a whole log of its commands.
#[derive(Clone, Copy, Debug, PartialEq, Eq)]
pub enum Answer {
    Yes,
    /// The number of the first line that doesn't fit, counted from 1. Of a log that ends too early it is that of the
    /// missing line, one more than the log has lines. A log of 2^32 - 1 bytes may have as many lines, so 32 bits
    /// aren't enough.
    No(u64),
}
