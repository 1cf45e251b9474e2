// How often counted places hold the base of an object.
ghost use Rattle.std.specs.Prelude.{◌≡◌, ◌≢◌};
ghost use Rattle.mm_audit.specs.declared.count.Count.TheVariants as counts;
ghost use Rattle.mm_audit.specs.Counts.{one_more, one_less, is_zero};

/// How many counted places hold the base of a counted object.
#[derive(Clone, Copy, Debug, PartialEq, Eq)]
pub enum Count {
    /// So many do, at most 254.
    Exact(u8),
    /// 255 did once, so there is no count any more.
    Sticky,
}

// The most places that are counted.
const MOST: u8 = 254;

impl Count {
    /// One more place holds it.
    pub(crate) fn one_more(self) -> Count
        ensures { result ≡ one_more self }
    {
        match self {
            Count::Sticky => Count::Sticky,
            Count::Exact(places) => {
                if places < MOST {
                    Count::Exact(places + 1)
                } else {
                    Count::Sticky
                }
            }
        }
    }

    /// One place less holds it.
    pub(crate) fn one_less(self) -> Count
        requires held { self ≢ counts.Exact 0 }
        ensures { result ≡ one_less self }
    {
        match self {
            Count::Sticky => Count::Sticky,
            Count::Exact(places) => Count::Exact(places - 1),
        }
    }

    /// Whether no place holds it.
    pub fn is_zero(self) -> bool
        ensures { result ≡ is_zero self }
    {
        match self {
            Count::Sticky => false,
            Count::Exact(places) => places == 0,
        }
    }
}
