// Laws of the sites of commands and births, and of what is entered.
ghost use Rattle.std.specs.Prelude.{◌≡◌, ℕ, ◌+◌, ◌*◌, ◌≤◌, ◌++◌, ◌∷◌, List, [], length, Ok, Err, Some, None};
ghost use Rattle.std.specs.Prelude.{replicate, unwrap_or};
ghost use Rattle.mm_model.specs.declared.command.Command.{Command};
ghost use Rattle.mm_model.specs.declared.line.Line.{Line};
ghost use Rattle.mm_model.specs.declared.refusal.LineFault.{LineFault};
ghost use Rattle.mm_model.specs.After.{freed_bases};
ghost use Rattle.mm_model.specs.Good.{IsGood};
ghost use Rattle.mm_model.specs.declared.settings.Settings.{Settings};
ghost use Rattle.mm_model.specs.State.{State, empty_state};
ghost use Rattle.mm_model.specs.Step.{IsStep};
ghost use Rattle.mm_model.specs.Logs.Trace.{line_reading, reading_from, trace_reading, FaultAt};
ghost use Rattle.mm_model.specs.Logs.Turns.{Turn, Born, births_if, births_of, births_in, reply_in};
ghost use Rattle.mm_sites.specs.Births.{birth_sites, total_in};
ghost use Rattle.mm_sites.specs.Entries.{EntriesByBase, total_of, without};
ghost use Rattle.mm_sites.specs.Following.{IsFreeAt, sites_with, with_births};
ghost use Rattle.mm_sites.specs.Lines.{site_line, site_after, sites_of_lines, sites_of_trace};
ghost use Rattle.mm_sites.specs.Living.{AreEntered};
ghost use Rattle.mm_sites.specs.Text.{site_text, sites_text, texts_below};
ghost use Rattle.mm_sites.specs.declared.site_total.SiteTotal.{SiteTotal};

/// A line that names a site is passed over, as each line that begins with the number sign and isn't too long.
pub fn lines_of_sites_are_passed_over()
    ensures { (line : List ℕ) (site : ℕ) → site_line line ≡ Some site → line_reading line ≡ Ok None }
{}

/// Each command of a trace has a site.
pub fn each_command_has_a_site()
    ensures lines { (n : ℕ) (lines : List (List ℕ)) →
        length (sites_of_lines lines) ≡ length (reading_from line_reading n lines).commands }
    ensures trace { (bytes : List ℕ) →
        length (sites_of_trace bytes) ≡ length (trace_reading bytes).commands }
{}

/// Each birth has a site, where there is a site for each turn.
pub fn each_birth_has_a_site()
    ensures { (turns : List Turn) (sites : List ℕ) → length sites ≡ length turns
        → length (birth_sites turns sites) ≡ length (births_in turns) }
{}

/// What is born in one more turn has the site of the turn's command, and its sites come behind those before.
pub fn sites_of_births_come_one_after_another()
    ensures { (turns : List Turn) (turn : Turn) (sites : List ℕ) (site : ℕ) → length sites ≡ length turns
        → birth_sites (turns ++ turn ∷ []) (sites ++ site ∷ [])
        ≡ sites_with site (birth_sites turns sites) (births_of turn) }
{}

/// One more line has the site that the lines before it name last, where it is a command and no fault stands before it.
pub fn sites_of_lines_come_one_after_another()
    ensures command { (n : ℕ) (lines : List (List ℕ)) (line : List ℕ) (command : Command) →
        (reading_from line_reading n lines).fault ≡ None → line_reading line ≡ Ok (Some command)
        → sites_of_lines (lines ++ line ∷ []) ≡ sites_of_lines lines ++ site_after lines ∷ [] }
    ensures passed_over { (lines : List (List ℕ)) (line : List ℕ) → line_reading line ≡ Ok None
        → sites_of_lines (lines ++ line ∷ []) ≡ sites_of_lines lines }
    ensures fault { (lines later : List (List ℕ)) (line : List ℕ) (fault : LineFault) → line_reading line ≡ Err fault
        → sites_of_lines (lines ++ line ∷ later) ≡ sites_of_lines lines }
    ensures behind_a_fault { (n : ℕ) (lines : List (List ℕ)) (line : List ℕ) (fault : FaultAt) →
        (reading_from line_reading n lines).fault ≡ Some fault
        → sites_of_lines (lines ++ line ∷ []) ≡ sites_of_lines lines }
    ensures site { (lines : List (List ℕ)) (line : List ℕ) →
        site_after (lines ++ line ∷ []) ≡ unwrap_or (site_line line) (site_after lines) }
{}

/// Where exactly the live objects of a state are entered, the totals of the entries are those of the state.
pub fn totals_are_those_of_the_living()
    ensures { (a : State) (sites : List ℕ) (entries : EntriesByBase) (site : ℕ) → IsGood a
        → length sites ≡ length a.objects → AreEntered a sites entries
        → total_of entries site ≡ total_in a sites site }
{}

/// Where exactly the live objects of a state are entered, so are those after a command: what its lines free is taken
/// away first, and then what it bore is entered, with the command's site.
pub fn entries_follow_a_command()
    ensures entered { (a : State) (command : Command) (group : List Line) (b : State) (sites : List ℕ) (site : ℕ)
        (entries : EntriesByBase) → IsGood a → IsStep a command group b → length sites ≡ length a.objects
        → 256 * a.settings.max ≤ length entries → AreEntered a sites entries
        → AreEntered b (sites_with site sites (births_if a command (reply_in group)))
        (with_births site (without entries (freed_bases group)) (births_if a command (reply_in group))) }
    ensures births { (a : State) (command : Command) (group : List Line) (b : State) (sites : List ℕ) (site : ℕ)
        → IsStep a command group b → length sites ≡ length a.objects
        → length (sites_with site sites (births_if a command (reply_in group))) ≡ length b.objects }
    ensures room { (site : ℕ) (entries : EntriesByBase) (bases : List ℕ) (births : List Born)
        → length (with_births site (without entries bases) births) ≡ length entries }
{}

/// Where no object lives, nothing is to be entered.
pub fn nothing_is_entered_at_first()
    ensures { (settings : Settings) (grains : ℕ) → AreEntered (empty_state settings) [] (replicate grains None) }
{}

/// What a command bears begins where nothing is entered any more, once what its lines free is taken away.
pub fn births_are_where_nothing_is_entered()
    ensures { (a : State) (command : Command) (group : List Line) (b : State) (sites : List ℕ)
        (entries : EntriesByBase) (born : Born) → IsGood a → IsStep a command group b → AreEntered a sites entries
        → births_if a command (reply_in group) ≡ born ∷ []
        → IsFreeAt (256 * a.settings.max) (without entries (freed_bases group)) born.base }
{}

/// The text of all sites is that of site after site.
pub fn texts_come_one_after_another()
    ensures none { (total_at : ℕ → SiteTotal) → texts_below total_at 0 ≡ [] }
    ensures one_more { (total_at : ℕ → SiteTotal) (site : ℕ)
        → texts_below total_at (site + 1) ≡ texts_below total_at site ++ site_text site (total_at site) }
    ensures all { (total_at : ℕ → SiteTotal) → sites_text total_at ≡ texts_below total_at 4096 }
{}
