// The sites of objects while a trace is carried out.
ghost use Rattle.std.specs.Prelude.{◌≡◌, ◌≤◌, is_some, IfOk, IfSome};
ghost use Rattle.mm_sites.specs.Entries.{total_of};
ghost use Rattle.mm_sites.specs.Text.{sites_text};
ghost use Rattle.mmgc.specs.Booking.{IsBlank, noted};
ghost use Rattle.mmgc.specs.Carrying.{Grew};
ghost use Rattle.mmgc.specs.Logging.{kept_by, KeepsOn};

use crate::log::LogWriter;
use mm_io::Sink;
use mm_sites::{SITES, Sites, site_named, site_text, texts_come_one_after_another};
use std::alloc::{AllocError, Global};

/// The sites of the objects that live, and the site of what is born next, which is below 4,096.
#[derive(Drop)]
pub(crate) struct SiteBook {
    pub(crate) site: u32,
    pub(crate) sites: Sites,
}

/// A book of the objects of a heap of at most so many pages, where one is asked for.
pub(crate) fn make_book(
    alloc: Global,
    asked: bool,
    pages: u32,
) -> Result<Option<SiteBook>, AllocError>
    requires two { 2 ≤ pages }
    requires most { pages ≤ 4096 }
    ensures asked { IfOk result (λ book. is_some book ≡ asked) }
    ensures blank { IfOk result (λ book. IfSome book (IsBlank pages)) }
{
    if !asked {
        return Ok(None);
    }
    let book = SiteBook::make(alloc, pages)?;
    Ok(Some(book))
}

impl SiteBook {
    fn make(alloc: Global, pages: u32) -> Result<SiteBook, AllocError>
        requires two { 2 ≤ pages }
        requires most { pages ≤ 4096 }
        ensures { IfOk result (IsBlank pages) }
    {
        let sites = Sites::make(alloc, pages)?;
        Ok(SiteBook { site: 0, sites })
    }

    /// Goes on with the site that a line of the trace names, if it names one.
    pub(crate) fn note(&mut self, line: &[u8])
        ensures { self.new ≡ noted line.now self.old }
    {
        if let Some(site) = site_named(line) {
            self.site = site;
        }
    }

    /// Writes a line for each site with a live object.
    pub(crate) fn write<K: Sink>(&self, log: &mut LogWriter<'_, K>)
        ensures written { Grew (kept_by K.taken log.old) (kept_by K.taken log.new)
            (sites_text (total_of self.now.sites)) }
        ensures kept { KeepsOn K.faults K.taken log.old log.new }
    {
        texts_come_one_after_another();
        for site in 0..SITES {
            log.text(site_text(site, self.sites.total(site)).as_slice());
        }
    }
}
