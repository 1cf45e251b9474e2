// What is asked for of a replay beside the settings of its heap.

/// What is to stand behind the total line of a log, whether cycles are paced, and whether sites are kept.
#[derive(Clone, Copy, Debug, PartialEq, Eq)]
pub(crate) struct Extras {
    /// Why the object is kept in which this word falls.
    pub(crate) why: Option<u32>,
    /// The rate at which cycles are paced, from 1 to 1,024.
    pub(crate) rate: Option<u32>,
    /// Whether it is told what the live objects of each site take.
    pub(crate) sites: bool,
}
