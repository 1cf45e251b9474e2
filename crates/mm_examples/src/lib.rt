//! Worked examples of the definitions of `mm_model`, each the contract of a function that does nothing.
#![tactic(auto)]

mod answers;
mod areas;
mod audited;
mod broken;
mod collecting;
mod counting;
mod cycles;
mod finalizers;
mod finishing;
mod full;
mod held_often;
mod illegal;
mod pacing;
mod places;
mod room;
mod sites;
mod text;
mod weak;
mod words;
