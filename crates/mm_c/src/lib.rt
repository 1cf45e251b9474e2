//! The heap for C. `c/mmgc.h` tells a C programmer what each export does.
#![tactic(auto)]

mod answer;
mod areas;
mod births;
mod finals;
mod handle;
mod in_bulk;
mod loose;
mod opening;
mod owned;
mod phases;
mod reading;
mod serving;
mod settings;
mod slots;
mod stack;
mod stat;
mod status;
mod version;
