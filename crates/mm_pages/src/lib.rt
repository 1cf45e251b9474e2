//! Runs of free pages, by a tree over the pages.
#![tactic(auto)]

mod node;
mod page_heap;
mod page_run;
mod parking;
mod runs;
mod table;
mod tree;

pub use page_heap::{NoRun, PageHeap, table_words};
pub use page_run::PageRun;
