// A trace whose objects have sites.
ghost use Rattle.std.specs.Prelude.{◌≡◌, ◌∷◌, ◌++◌, [], Some, None, codes, map};
ghost use Rattle.mm_model.specs.declared.command.Command.TheVariants.{Pop, Collect};
ghost use Rattle.mm_model.specs.declared.object.Kind.TheVariants.{Traced, Leaf};
ghost use Rattle.mm_sites.specs.Lines.{site_line, sites_of_lines};
ghost use Rattle.mm_examples.specs.Examples.{usual, new, made, done, collected, freed};
ghost use Rattle.mm_examples.specs.SiteText.{IsSiteText};

/// A line names a site only where nothing stands around the number, which is one of the trace's and below 4,096.
pub fn lines_of_sites()
    ensures named { map site_line (codes "#site 5" ∷ codes "#site 0" ∷ codes "#site 4095" ∷ codes "#site 00003" ∷
        codes "#site 0000000003" ∷ []) ≡ Some 5 ∷ Some 0 ∷ Some 4095 ∷ Some 3 ∷ Some 3 ∷ [] }
    ensures others { map site_line (codes "#site 5 " ∷ codes "#site  5" ∷ codes " #site 5" ∷ codes "#site 4096" ∷
        codes "#site 00000000003" ∷ codes "#site " ∷ codes "#site" ∷ codes "#sites 5" ∷ codes "#site 5x" ∷
        codes "# site 5" ∷ codes "" ∷ [])
        ≡ None ∷ None ∷ None ∷ None ∷ None ∷ None ∷ None ∷ None ∷ None ∷ None ∷ None ∷ [] }
{}

/// A command has the site that the lines before it name last, and 0 where none does.
pub fn sites_of_commands()
    ensures last { sites_of_lines (codes "stat" ∷ codes "#site 3" ∷ codes "stat" ∷ codes "stat" ∷ codes "#site 5" ∷
        codes "#site 4096" ∷ codes "stat" ∷ codes "#site 3" ∷ []) ≡ 0 ∷ 3 ∷ 3 ∷ 5 ∷ [] }
    ensures fault { sites_of_lines (codes "#site 3" ∷ codes "stat" ∷ codes "no" ∷ codes "stat" ∷ []) ≡ 3 ∷ [] }
{}

/// Of each site with a live object there is a line.
pub fn sites_of_live_objects()
    ensures { IsSiteText usual
        (new Traced 0 4 ∷ new Traced 0 4 ∷ new Leaf 0 0 ∷ new Leaf 0 0 ∷ [])
        (made 4096 ∷ made 4128 ∷ made 8192 ∷ made 8208 ∷ [])
        (3 ∷ 3 ∷ 5 ∷ 3 ∷ []) 8 (codes "site 3 3 80" ++ 10 ∷ codes "site 5 1 16" ++ 10 ∷ []) }
{}

/// All objects are freed. The new one at an address that was used before has the site of its own command.
pub fn a_base_has_the_site_of_its_last_birth()
    ensures { IsSiteText usual
        (new Traced 0 4 ∷ new Traced 0 4 ∷ new Leaf 0 0 ∷ Pop 3 ∷ Collect ∷ new Leaf 0 4 ∷ [])
        (made 4096 ∷ made 4128 ∷ made 8192 ∷ done ∷ collected 3 ∷ freed 4096 ∷ freed 4128 ∷ freed 8192 ∷ done ∷
        made 4096 ∷ [])
        (3 ∷ 3 ∷ 5 ∷ 5 ∷ 5 ∷ 7 ∷ []) 8 (codes "site 7 1 32" ++ 10 ∷ []) }
{}
