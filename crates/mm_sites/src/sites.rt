// The sites of objects by base, with a running total for each site.
ghost use Rattle.std.specs.Prelude.{◌≡◌, ℕ, ◌*◌, ◌%◌, ◌<◌, ◌≤◌, ◌↔◌, true, false, length, replicate, Some, None};
ghost use Rattle.std.specs.Prelude.{IsTrue, IfOk};
ghost use Rattle.std.specs.Bool.{OnTrue, OnFalse};
ghost use Rattle.mm_model.specs.Views.ByBase.{with_entry};
ghost use Rattle.mm_sites.specs.Entries.{HasEntry, total_of};

use crate::NoMemory;
use crate::entry::Entry;
use crate::site_total::SiteTotal;
use std::alloc::Global;
use std::marker::Model;

/// How many sites there are.
pub const SITES: u32 = 4096;

// Objects begin at its multiples.
const GRAIN: u32 = 16;

// How many grains a page has.
const PAGE_GRAINS: u32 = 256;

/// The objects of a region by base, each with its bytes and its site.
///
/// No call but `make` takes memory.
#[derive(Drop)]
pub struct Sites {
    // By grain.
    entries: Vec<Option<Entry>>,
    // By site.
    totals: Vec<SiteTotal>,
}

impl Model for Sites {
    ghost use Rattle.std.specs.Prelude.{List, Option};
    ghost use Rattle.mm_sites.specs.declared.entry.Entry.{Entry as Entered};
    ghost use Rattle.mm_sites.specs.Kept.{KeepsTotals};

    ghost Value = { List (Option Entered) };

    ghost view = { λ s. s.entries.items };

    ghost invariant = { λ s. KeepsTotals s.entries.items s.totals.items };
}

impl Sites {
    /// No objects, in a region of so many pages of 4,096 bytes.
    pub fn make(alloc: Global, pages: u32) -> Result<Sites, NoMemory>
        requires least { 2 ≤ pages }
        requires most { pages ≤ 4096 }
        ensures { IfOk result (λ sites. sites ≡ replicate (256 * pages) None) }
    {
        let entries = vec![in alloc; None; (PAGE_GRAINS * pages) as usize]?;
        let totals = vec![in alloc; SiteTotal::NONE; SITES as usize]?;
        Ok(Sites { entries, totals })
    }

    /// An object was born at a base. Answers false where an object is entered there already.
    pub fn born(&mut self, base: u32, extent: u32, site: u32) -> bool
        requires aligned { base % 16 ≡ 0 }
        requires inside { base < 16 * length self.old }
        requires least { 16 ≤ extent }
        requires most { extent ≤ 4198400 }
        requires site { site < 4096 }
        ensures taken { (result ≡ false) ↔ HasEntry self.old base }
        ensures entered { OnTrue result
            (self.new ≡ with_entry base (Some (record { extent = extent; site = site })) self.old) }
        ensures same { OnFalse result (self.new ≡ self.old) }
        ensures room { length self.new ≡ length self.old }
    {
        let grain = (base / GRAIN) as usize;
        if self.entries[grain].is_some() {
            return false;
        }
        self.entries[grain] = Some(Entry { extent, site });
        self.totals[site as usize].add(extent);
        true
    }

    /// The object at a base was freed. Answers false where none is entered there.
    pub fn freed(&mut self, base: u32) -> bool
        ensures found { IsTrue result ↔ HasEntry self.old base }
        ensures removed { OnTrue result (self.new ≡ with_entry base None self.old) }
        ensures same { OnFalse result (self.new ≡ self.old) }
        ensures room { length self.new ≡ length self.old }
    {
        let grain = (base / GRAIN) as usize;
        if base % GRAIN != 0 || self.entries.len() <= grain {
            return false;
        }
        match self.entries[grain] {
            None => false,
            Some(entry) => {
                self.entries[grain] = None;
                self.totals[entry.site as usize].remove(entry.extent);
                true
            }
        }
    }

    /// How many objects of a site there are, and the bytes that they take.
    pub fn total(&self, site: u32) -> SiteTotal
        requires { site < 4096 }
        ensures { result ≡ total_of self.now site }
    {
        self.totals[site as usize]
    }
}
