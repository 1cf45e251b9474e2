// What a heap is made with.

/// The limits of a heap.
#[derive(Clone, Copy, Debug, PartialEq, Eq)]
pub struct Settings {
    /// The least number of pages of 4,096 bytes, page 0 included: 2 to 4,096.
    pub pages: u32,
    /// The greatest number of pages: `pages` to 4,096.
    pub max: u32,
    /// The least number of zero-count objects at which a command reaps at its end: 1 to 1,048,575.
    pub zct: u32,
    /// The entries of the mark queue: 1 to 65,536.
    pub queue: u32,
    /// The cells of the stack: 1 to 65,536.
    pub stack: u32,
}
