//! The whole heap: it carries out commands, and each is a step of the model.
#![tactic(auto)]

mod area_cells;
mod bare_words;
mod closing;
mod cycles;
mod describing;
mod execute;
mod freeing;
mod gc;
mod making;
mod phases;
mod reading;
mod region;
mod reply;
mod search;
mod slots;
mod stack;
mod wanted;

pub use bare_words::WordsFault;
pub use describing::Described;
pub use gc::{Gc, NoMemory};
pub use mm_model::Settings;
pub use mm_sweep::{Finalizer, Journal};
