// Births and frees worked out by hand, and against sums from scratch.
ghost use Rattle.std.specs.Prelude.{◌≡◌, length};

use crate::{Entry, SiteTotal, Sites, site_named, site_text};
use std::test::Fail;

fn total(objects: u32, bytes: u64) -> SiteTotal {
    SiteTotal { objects, bytes }
}

#[test]
fn totals_follow_births_and_frees(rt: HostRuntime) -> Result<(), Fail> {
    let mut sites = Sites::make(rt.alloc(), 3)?;
    assert!(&rt; sites.born(4096, 32, 3));
    assert!(&rt; sites.born(4128, 32, 3));
    assert!(&rt; sites.born(8192, 16, 5));
    assert!(&rt; sites.born(8208, 16, 5));
    assert_eq!(&rt; sites.total(3), total(2, 64));
    assert_eq!(&rt; sites.total(5), total(2, 32));
    assert!(&rt; sites.freed(4096));
    assert!(&rt; sites.freed(4128));
    assert!(&rt; sites.freed(8192));
    assert_eq!(&rt; sites.total(3), total(0, 0));
    assert_eq!(&rt; sites.total(5), total(1, 16));
    assert_eq!(&rt; sites.total(4095), total(0, 0));
    Ok(())
}

#[test]
fn a_base_is_entered_once_and_can_be_used_again(rt: HostRuntime) -> Result<(), Fail> {
    let mut sites = Sites::make(rt.alloc(), 2)?;
    assert!(&rt; !sites.freed(4096));
    assert!(&rt; sites.born(4096, 4096, 0));
    assert!(&rt; !sites.born(4096, 16, 1));
    assert_eq!(&rt; sites.total(0), total(1, 4096));
    assert_eq!(&rt; sites.total(1), total(0, 0));
    assert!(&rt; !sites.freed(4097));
    assert!(&rt; !sites.freed(4112));
    assert!(&rt; !sites.freed(8192));
    assert!(&rt; !sites.freed(u32::MAX));
    assert!(&rt; sites.freed(4096));
    assert!(&rt; sites.born(4096, 16, 1));
    assert_eq!(&rt; sites.total(0), total(0, 0));
    assert_eq!(&rt; sites.total(1), total(1, 16));
    Ok(())
}

// Bases at the ends of pages.
const BASES: [u32; 8] = [0, 16, 4080, 4096, 4112, 8176, 8192, 12272];

// What is entered at these bases, as a plain list.
#[derive(Drop)]
struct Plain {
    entries: [Option<Entry>; 8],
}

impl Plain {
    fn total(&self, site: u32) -> SiteTotal {
        let mut sum = total(0, 0);
        for i in 0..8usize {
            if let Some(entry) = self.entries[i] {
                if entry.site == site {
                    sum.objects = sum.objects.saturating_add(1);
                    sum.bytes = sum.bytes.saturating_add(u64::from(entry.extent));
                }
            }
        }
        sum
    }

    fn born(&mut self, place: usize, entry: Entry) -> bool {
        if place >= 8 || self.entries[place].is_some() {
            return false;
        }
        self.entries[place] = Some(entry);
        true
    }

    fn freed(&mut self, place: usize) -> bool {
        if place >= 8 || self.entries[place].is_none() {
            return false;
        }
        self.entries[place] = None;
        true
    }
}

// Whether the totals of four sites are the sums from scratch.
fn agree(sites: &Sites, plain: &Plain) -> bool {
    for site in 0..4u32 {
        if sites.total(site) != plain.total(site) {
            return false;
        }
    }
    true
}

// One move: a birth or a free at one of the bases, which is answered alike.
fn make_move(sites: &mut Sites, plain: &mut Plain, code: u32) -> bool
    requires { length sites.old ≡ 768 }
    ensures { length sites.new ≡ 768 }
{
    let place = (code % 8) as usize;
    let entry = Entry {
        extent: 16 * (1 + code % 5),
        site: code / 16 % 4,
    };
    let alike = if code / 8 % 2 == 0 {
        sites.born(BASES[place], entry.extent, entry.site) == plain.born(place, entry)
    } else {
        sites.freed(BASES[place]) == plain.freed(place)
    };
    alike && agree(sites, plain)
}

#[test]
fn moves_over_eight_bases_agree_with_sums_from_scratch(rt: HostRuntime) -> Result<(), Fail> {
    let mut sites = Sites::make(rt.alloc(), 3)?;
    let mut plain = Plain { entries: [None; 8] };
    for code in 0..4096u32 {
        assert!(&rt; make_move(&mut sites, &mut plain, code * 7), "at {code}");
        assert!(&rt;
            make_move(&mut sites, &mut plain, code / 16 * 3),
            "at {code}"
        );
        assert!(&rt; make_move(&mut sites, &mut plain, code / 3), "at {code}");
    }
    Ok(())
}

#[test]
fn a_line_names_a_site_where_it_is_the_mark_and_a_number(rt: HostRuntime) -> Result<(), Fail> {
    assert_eq!(&rt; site_named(b"#site 5"), Some(5));
    assert_eq!(&rt; site_named(b"#site 0"), Some(0));
    assert_eq!(&rt; site_named(b"#site 4095"), Some(4095));
    assert_eq!(&rt; site_named(b"#site 00003"), Some(3));
    assert_eq!(&rt; site_named(b"#site 0000000003"), Some(3));
    Ok(())
}

#[test]
fn no_other_line_names_a_site(rt: HostRuntime) -> Result<(), Fail> {
    assert_eq!(&rt; site_named(b"#site 5 "), None);
    assert_eq!(&rt; site_named(b"#site  5"), None);
    assert_eq!(&rt; site_named(b" #site 5"), None);
    assert_eq!(&rt; site_named(b"#site 4096"), None);
    assert_eq!(&rt; site_named(b"#site 4294967299"), None);
    assert_eq!(&rt; site_named(b"#site 00000000003"), None);
    assert_eq!(&rt; site_named(b"#site 3x"), None);
    assert_eq!(&rt; site_named(b"#site "), None);
    assert_eq!(&rt; site_named(b"#site"), None);
    assert_eq!(&rt; site_named(b"#sites 3"), None);
    assert_eq!(&rt; site_named(b"site 3"), None);
    assert_eq!(&rt; site_named(b""), None);
    Ok(())
}

#[test]
fn a_site_with_objects_has_a_line(rt: HostRuntime) -> Result<(), Fail> {
    assert_eq!(&rt;
        site_text(5, total(1, 16)).as_slice(),
        b"site 5 1 16\n".as_slice()
    );
    assert_eq!(&rt; site_text(5, total(0, 0)).as_slice(), b"".as_slice());
    assert_eq!(&rt;
        site_text(4095, total(1_000_000, 16_777_216)).as_slice(),
        b"site 4095 1000000 16777216\n".as_slice()
    );
    assert_eq!(&rt;
        site_text(4095, total(u32::MAX, u64::MAX)).as_slice(),
        b"site 4095 4294967295 18446744073709551615\n".as_slice()
    );
    Ok(())
}
