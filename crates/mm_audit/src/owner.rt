// Who has a piece of memory.

/// Who has a piece of memory. A page has cells of one of the two alone.
#[derive(Clone, Copy, Debug, PartialEq, Eq)]
pub enum Owner {
    Object,
    Area,
}
