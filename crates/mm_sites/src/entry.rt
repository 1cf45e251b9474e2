// What is kept of an object.

/// An object's bytes and its site.
#[derive(Clone, Copy, Debug, PartialEq, Eq)]
pub struct Entry {
    pub extent: u32,
    pub site: u32,
}
