//! What the manager must do: plain types, and in `specs/` the definitions that every contract cites.
#![tactic(auto)]

mod command;
mod line;
mod object;
mod refusal;
mod reply;
mod settings;

pub use command::Command;
pub use line::{Line, Phase, Totals};
pub use object::{Colour, Kind, Part, Shape, Size};
pub use refusal::{LineFault, Refusal};
pub use reply::{AreaAnswer, Mapped, Put, Reply, Stat, WeakAnswer};
pub use settings::Settings;
