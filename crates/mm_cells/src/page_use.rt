// What the pages of a region are used for, by a word for each.
ghost use Rattle.std.specs.Prelude.{◌≡◌, ◌≢◌, ◌+◌, ◌<◌, ◌≤◌, ℕ, length};
ghost use Rattle.mm_cells.specs.Uses.{use_of, behind, use_in, use_in_whole, IsUse, StandsAlone};
ghost use Rattle.mm_cells.specs.Uses.{HaveUses, ChangesUses};

/// What the page map says of a page.
#[derive(Clone, Copy, Debug, PartialEq, Eq)]
pub(crate) enum PageUse {
    /// No cell is in it.
    Unused,
    /// It has cells of this class, at least one of them taken.
    Class(u32),
    /// It is the first of so many pages, which one taken cell fills.
    First(u32),
    /// It is a later page of a cell, whose first page is so many pages before it. Its word may say so even after the
    /// cell is given back, but that counts only where the word of the first page tells of a cell that reaches it.
    Later(u32),
}

/// The word that says so.
fn encode(page_use: PageUse) -> u32
    requires { IsUse page_use }
    ensures { use_of result ≡ page_use }
{
    match page_use {
        PageUse::Unused => 0,
        PageUse::Class(class) => class + 1,
        PageUse::First(count) => count + 32,
        PageUse::Later(distance) => distance + 8192,
    }
}

/// What the word says.
fn decode(code: u32) -> PageUse
    ensures { result ≡ use_of code }
{
    match code {
        0 => PageUse::Unused,
        1..32 => PageUse::Class(code - 1),
        32..8192 => PageUse::First(code - 32),
        _ => PageUse::Later(code - 8192),
    }
}

/// The use of a page that lies so far behind one of this use.
fn behind(first: PageUse, distance: u32) -> PageUse
    ensures { result ≡ behind first distance }
{
    match first {
        PageUse::First(count) if distance < count => PageUse::Later(distance),
        _ => PageUse::Unused,
    }
}

/// What a page is used for.
#[inline]
pub(crate) fn use_in(uses: &[u32], page: u32) -> PageUse
    requires { page < length uses.now }
    ensures { result ≡ use_in uses.now page }
{
    match decode(uses[page as usize]) {
        PageUse::Later(distance) => {
            if page < distance {
                return PageUse::Unused;
            }
            behind(decode(uses[(page - distance) as usize]), distance)
        }
        page_use => page_use,
    }
}

/// Gives a page by itself another use.
pub(crate) fn set_use(uses: &mut [u32], page: u32, page_use: PageUse)
    requires within { page < length uses.old }
    requires small { IsUse page_use }
    requires was_alone { StandsAlone (use_in uses.old page) }
    requires alone { StandsAlone page_use }
    ensures here { use_in uses.new page ≡ page_use }
    ensures others { (other : ℕ) → other ≢ page → use_in uses.new other ≡ use_in uses.old other }
{
    uses[page as usize] = encode(page_use);
}

/// Makes unused pages those of one cell.
pub(crate) fn set_whole(uses: &mut [u32], first: u32, count: u32)
    requires some { 0 < count }
    requires most { length uses.old ≤ 4096 }
    requires within { first + count ≤ length uses.old }
    requires unused { (page : ℕ) → first ≤ page → page < first + count → use_in uses.old page ≡ PageUse.Unused }
    ensures { ChangesUses uses.old uses.new first count (use_in_whole count) }
{
    for distance in 1..count {
        uses[(first + distance) as usize] = encode(PageUse::Later(distance));
    }
    uses[first as usize] = encode(PageUse::First(count));
}

/// Makes the pages of one cell unused. What the words of the later ones say doesn't count any more.
pub(crate) fn clear_whole(uses: &mut [u32], first: u32)
    requires { first < length uses.old }
    ensures { (count : ℕ) → 0 < count → HaveUses uses.old first count (use_in_whole count)
        → ChangesUses uses.old uses.new first count (λ distance. PageUse.Unused) }
{
    uses[first as usize] = encode(PageUse::Unused);
}
