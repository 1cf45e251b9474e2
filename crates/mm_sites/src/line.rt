// Lines of a trace that name a site.
ghost use Rattle.std.specs.Prelude.{◌≡◌, ◌<◌, ◌++◌, length, drop, false, MatchOption, IfSome};
ghost use Rattle.std.specs.Prelude.{nat_eq};
ghost use Rattle.std.specs.List.{starts_with};
ghost use Rattle.mm_sites.specs.Lines.{most_sites, site_line, site_mark, site_number};

use crate::sites::SITES;
use mm_trace::number_of;

// What stands before the number.
const MARK: &[u8] = b"#site ";

/// The site that a line names: the line is `#site `, the number of a site, and nothing more.
#[inline]
pub fn site_named(line: &[u8]) -> Option<u32>
    ensures { result ≡ site_line line.now }
{
    if line.first() != Some(&b'#') {
        return None;
    }
    marked_site(line)
}

// Comments are few, so that what reads them isn't inlined at each line.
#[inline(never)]
fn marked_site(line: &[u8]) -> Option<u32>
    ensures { result ≡ site_line line.now }
{
    if !line.starts_with(MARK) {
        return None;
    }
    numbered(&line[MARK.len()..])
}

// The site with this number.
fn numbered(word: &[u8]) -> Option<u32>
    ensures { result ≡ site_number word.now }
{
    let number = number_of(word).ok()?;
    if number < SITES { Some(number) } else { None }
}
