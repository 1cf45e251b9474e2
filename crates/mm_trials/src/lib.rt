//! Worked sequences of the layers, from the arena of words to whole heaps. All of it but the words of headers is tests.
#![tactic(auto)]

#[cfg(test)]
mod arena;
#[cfg(test)]
mod cycles;
#[cfg(test)]
mod freeing;
mod headers;
#[cfg(test)]
mod lines;
#[cfg(test)]
mod long_paths;
#[cfg(test)]
mod paths;
#[cfg(test)]
mod places;
#[cfg(test)]
mod reading;
#[cfg(test)]
mod small_heaps;
#[cfg(test)]
mod told;
#[cfg(test)]
mod trial;

pub use headers::worked_headers;
