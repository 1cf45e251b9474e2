//! How much the live objects of each site take, counted on with each birth and each free.
#![tactic(auto)]

mod entry;
mod laws;
mod line;
mod site_total;
mod sites;
#[cfg(test)]
mod tests;
mod text;

pub use entry::Entry;
pub use laws::{
    births_are_where_nothing_is_entered, each_birth_has_a_site, each_command_has_a_site,
    entries_follow_a_command, lines_of_sites_are_passed_over, nothing_is_entered_at_first,
    sites_of_births_come_one_after_another, sites_of_lines_come_one_after_another,
    texts_come_one_after_another, totals_are_those_of_the_living,
};
pub use line::site_named;
pub use site_total::SiteTotal;
pub use sites::{SITES, Sites};
pub use text::site_text;

/// Want of memory, the one refusal of this crate.
pub type NoMemory = std::alloc::AllocError;
