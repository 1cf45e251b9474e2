// The words behind the program's name.
ghost use Rattle.std.specs.Prelude.{◌≡◌, ◌≤◌, ◌∷◌, List, ℕ, false, None, Some, codes, map, option_map, string_bytes};
ghost use Rattle.std.specs.Prelude.{IfOk, IfSome, IsErrOf};
ghost use Rattle.clap.specs.Words.{app_of, found_of, kind_of, matches_of, rows_of, rule_of, takes, with_rule};
ghost use Rattle.mm_model.specs.Places.Limits.{IsWithinLimits};
ghost use Rattle.mmgc.specs.Words.{choice_from, choice_in, choice_taken, extras_of, file_of, generating, reading};
ghost use Rattle.mmgc.specs.Words.{asking_app, flag_rule, is_plain, is_set};
ghost use Rattle.mmgc.specs.Words.{limits, mmgc_app, option_rule, setting_of, settings_app, settings_of, trace_of};
ghost use Rattle.mmgc.specs.Words.{number_if_given, values_in, with_option};
ghost use Rattle.mmgc.specs.Requests.{IsAllowed, IsRate, asked_by, values_by};

use crate::extras::Extras;
use crate::generator::GeneratedTrace;
use clap::error::ErrorKind;
use clap::{Arg, ArgAction, ArgMatches, Command, Error};
use mm_model::Settings;
use mm_trace::number_of;
use std::alloc::{AllocError, Global};

/// What the words ask for.
#[derive(Drop)]
pub(crate) struct Request<'a> {
    pub(crate) settings: Settings,
    /// The file to read in place of the source as handed in.
    pub(crate) file: Option<&'a str>,
    /// The trace to carry out in place of one that is read.
    pub(crate) generated: Option<GeneratedTrace>,
    /// What is to stand behind the log, whether cycles are paced, and whether sites are kept.
    pub(crate) extras: Extras,
}

/// Why the words ask for nothing.
#[derive(Clone, Copy, Debug, PartialEq, Eq)]
pub(crate) enum WordsFault {
    /// They aren't those of the command, or a value breaks a rule.
    Refused,
    /// There was no memory to read them.
    NoMemory,
}

/// The values that stand in the words, as text.
#[derive(Drop)]
struct Given<'a> {
    pages: Option<&'a str>,
    max: Option<&'a str>,
    zct: Option<&'a str>,
    queue: Option<&'a str>,
    stack: Option<&'a str>,
    generated: Option<&'a str>,
    count: Option<&'a str>,
    why: Option<&'a str>,
    pace: Option<&'a str>,
    sites: bool,
    file: Option<&'a str>,
}

fn option<'a>(alloc: Global, name: &'a str) -> Arg<'a>
    ensures rule { rule_of result ≡ option_rule name.entry.now }
    ensures local { result.global ≡ false }
{
    Arg::new(alloc, name).long(name)
}

fn with<'a>(command: Command<'a>, alloc: Global, name: &'a str) -> Result<Command<'a>, AllocError>
    ensures { IfOk result (λ new. app_of new ≡ with_option (app_of command.entry) name.entry.now) }
{
    command.arg(option(alloc, name))
}

/// With an option that has no value.
fn with_flag<'a>(
    command: Command<'a>,
    alloc: Global,
    name: &'a str,
) -> Result<Command<'a>, AllocError>
    ensures { IfOk result (λ new. app_of new ≡ with_rule (app_of command.entry) (flag_rule name.entry.now)) }
{
    command.arg(option(alloc, name).action(ArgAction::SetTrue))
}

/// The command with the options of the heap.
fn settings_command<'a>(alloc: Global) -> Result<Command<'a>, AllocError>
    ensures { IfOk result (λ command. app_of command ≡ settings_app) }
{
    let command = Command::new(alloc, "mmgc")
        .disable_help_flag(true)
        .disable_version_flag(true);
    let command = with(command, alloc, "pages")?;
    let command = with(command, alloc, "max")?;
    let command = with(command, alloc, "zct")?;
    let command = with(command, alloc, "queue")?;
    with(command, alloc, "stack")
}

/// The command with the options that ask for something beside the heap, too.
fn asking_command<'a>(alloc: Global) -> Result<Command<'a>, AllocError>
    ensures { IfOk result (λ command. app_of command ≡ asking_app) }
{
    let command = settings_command(alloc)?;
    let command = with(command, alloc, "gen")?;
    let command = with(command, alloc, "count")?;
    let command = with(command, alloc, "why")?;
    with(command, alloc, "pace")
}

/// The program's command.
fn command<'a>(alloc: Global) -> Result<Command<'a>, AllocError>
    ensures { IfOk result (λ command. app_of command ≡ mmgc_app) }
{
    let command = asking_command(alloc)?;
    let command = with_flag(command, alloc, "sites")?;
    command.arg(Arg::new(alloc, "FILE"))
}

impl<'a> Given<'a> {
    fn of(matches: &ArgMatches<'a>) -> Given<'a>
        ensures { values_by result ≡ values_in (rows_of (found_of matches.now)) }
    {
        Given {
            pages: matches.get_str("pages"),
            max: matches.get_str("max"),
            zct: matches.get_str("zct"),
            queue: matches.get_str("queue"),
            stack: matches.get_str("stack"),
            generated: matches.get_str("gen"),
            count: matches.get_str("count"),
            why: matches.get_str("why"),
            pace: matches.get_str("pace"),
            sites: is_set(matches, "sites"),
            file: matches.get_str("FILE"),
        }
    }

    fn settings(&self) -> Option<Settings>
        ensures settings { result ≡ settings_of (values_by self.now) }
        ensures limits { IfSome result IsWithinLimits }
    {
        let pages = setting(self.pages, 2, 4096, 1024)?;
        let max = setting(self.max, pages, 4096, pages)?;
        let zct = setting(self.zct, 1, 1048575, 256)?;
        let queue = setting(self.queue, 1, 65536, 256)?;
        let stack = setting(self.stack, 1, 65536, 1024)?;
        Some(Settings {
            pages,
            max,
            zct,
            queue,
            stack,
        })
    }

    /// Whether none of FILE, `--why`, `--pace` and `--sites` stands there.
    fn is_plain(&self) -> bool
        ensures { result ≡ is_plain (values_by self.now) }
    {
        self.file.is_none() && self.why.is_none() && self.pace.is_none() && !self.sites
    }

    /// `--gen` and `--count` stand together or not at all, and beside them nothing but what sets something of the heap.
    fn request(&self) -> Option<Request<'a>>
        ensures asked { option_map asked_by result ≡ choice_from (values_by self.now) }
        ensures allowed { IfSome result IsAllowed }
    {
        let settings = self.settings()?;
        match (self.generated, self.count) {
            (None, None) => self.replay_request(settings),
            (Some(seed), Some(count)) if self.is_plain() => generated_request(
                settings, seed, count,
            ),
            _ => None,
        }
    }

    fn replay_request(&self, settings: Settings) -> Option<Request<'a>>
        requires { IsWithinLimits settings }
        ensures asked { option_map asked_by result ≡ reading settings (values_by self.now).file
            (extras_of (values_by self.now).why (values_by self.now).pace self.now.sites) }
        ensures allowed { IfSome result IsAllowed }
    {
        let extras = read_extras(self.why, self.pace, self.sites)?;
        Some(Request {
            settings,
            file: file_name(self.file),
            generated: None,
            extras,
        })
    }
}

/// An option's number, or its default where the option doesn't stand.
fn setting(text: Option<&str>, least: u32, most: u32, default: u32) -> Option<u32>
    requires { (least ≤ default) × (default ≤ most) }
    ensures value { result ≡ setting_of (limits least most default) (option_map (λ text. text.now) text.entry) }
    ensures within { IfSome result (λ n. (least ≤ n) × (n ≤ most)) }
{
    match text {
        Some(text) => number_within(text, least, most),
        None => Some(default),
    }
}

fn number_within(text: &str, least: u32, most: u32) -> Option<u32>
    ensures value { result ≡ setting_of (limits least most 0) (Some text.now) }
    ensures within { IfSome result (λ n. (least ≤ n) × (n ≤ most)) }
{
    match number_of(text.as_bytes()) {
        Ok(n) if least <= n && n <= most => Some(n),
        _ => None,
    }
}

/// Whether a flag stands in the words.
fn is_set(matches: &ArgMatches<'_>, name: &str) -> bool
    ensures { result ≡ is_set name.now (rows_of (found_of matches.now)) }
{
    match matches.get_str(name) {
        Some(text) => text == "true",
        None => false,
    }
}

fn read_extras(why: Option<&str>, pace: Option<&str>, sites: bool) -> Option<Extras>
    ensures value { result ≡ extras_of (option_map (λ text. text.now) why.entry)
        (option_map (λ text. text.now) pace.entry) sites }
    ensures rate { IfSome result (λ extras. IfSome extras.rate IsRate) }
{
    let why = number_if_given(why, 0, u32::MAX)?;
    let rate = number_if_given(pace, 1, 1024)?;
    Some(Extras { why, rate, sites })
}

/// The number of an option that has no default, where it stands.
fn number_if_given(text: Option<&str>, least: u32, most: u32) -> Option<Option<u32>>
    ensures value { result ≡ number_if_given (limits least most 0) (option_map (λ text. text.now) text.entry) }
    ensures within { IfSome result (λ number. IfSome number (λ n. (least ≤ n) × (n ≤ most))) }
{
    match text {
        Some(text) => {
            let number = number_within(text, least, most)?;
            Some(Some(number))
        }
        None => Some(None),
    }
}

fn generated_request<'a>(settings: Settings, seed: &str, count: &str) -> Option<Request<'a>>
    requires { IsWithinLimits settings }
    ensures asked { option_map asked_by result ≡ generating settings (trace_of seed.now count.now) }
    ensures allowed { IfSome result IsAllowed }
{
    let seed = number_within(seed, 0, u32::MAX)?;
    let count = number_within(count, 0, 4_000_000)?;
    Some(Request {
        settings,
        file: None,
        generated: Some(GeneratedTrace { seed, count }),
        extras: Extras {
            why: None,
            rate: None,
            sites: false,
        },
    })
}

fn file_name<'a>(file: Option<&'a str>) -> Option<&'a str>
    ensures { option_map (λ name. name.now) result ≡ file_of (option_map (λ name. name.now) file.entry) }
{
    match file {
        Some(name) if name != "-" => Some(name),
        _ => None,
    }
}

/// The words with the program's name before them, as `read_words` takes them.
pub(crate) fn list_words<'a>(alloc: Global, words: &'a [String]) -> Result<Vec<&'a str>, AllocError>
    ensures { IfOk result (λ list. map (λ word. word.now) list.items
        ≡ codes "mmgc" ∷ map (λ word. string_bytes word) words.now) }
{
    let mut list = Vec::new(alloc);
    list.push("mmgc")?;
    for word in words {
        list.push(word.as_str())?;
    }
    Ok(list)
}

/// Why a command didn't take its words.
fn fault_of(error: &Error) -> WordsFault
    ensures { kind_of error.now ≡ ErrorKind.OutOfMemory → result ≡ WordsFault.NoMemory }
{
    if error.kind() == ErrorKind::OutOfMemory {
        WordsFault::NoMemory
    } else {
        WordsFault::Refused
    }
}

fn values_by_command<'a>(command: Command<'a>, list: &'a [&'a str]) -> Result<Given<'a>, WordsFault>
    requires { app_of command ≡ mmgc_app }
    ensures given { IfOk result (λ given. values_by given
        ≡ values_in (matches_of mmgc_app (map (λ word. word.now) list.entry.now))) }
    ensures refused { IsErrOf result WordsFault.Refused →
        takes mmgc_app (map (λ word. word.now) list.entry.now) ≡ false }
{
    match command.try_get_matches_from(list) {
        Ok(matches) => Ok(Given::of(&matches)),
        Err(error) => Err(fault_of(&error)),
    }
}

fn values<'a>(alloc: Global, list: &'a [&'a str]) -> Result<Given<'a>, WordsFault>
    ensures given { IfOk result (λ given. values_by given
        ≡ values_in (matches_of mmgc_app (map (λ word. word.now) list.entry.now))) }
    ensures refused { IsErrOf result WordsFault.Refused →
        takes mmgc_app (map (λ word. word.now) list.entry.now) ≡ false }
{
    match command(alloc) {
        Ok(command) => values_by_command(command, list),
        Err(_) => Err(WordsFault::NoMemory),
    }
}

fn requested<'a>(given: &Given<'a>) -> Result<Request<'a>, WordsFault>
    ensures asked { IfOk result (λ request. choice_from (values_by given.now) ≡ Some (asked_by request)) }
    ensures allowed { IfOk result IsAllowed }
    ensures refused { IsErrOf result WordsFault.Refused → choice_from (values_by given.now) ≡ None }
{
    match given.request() {
        Some(request) => Ok(request),
        None => Err(WordsFault::Refused),
    }
}

/// What the words ask for. The first one is the program's name.
pub(crate) fn read_words<'a>(alloc: Global, list: &'a [&'a str]) -> Result<Request<'a>, WordsFault>
    ensures read { IfOk result (λ request. choice_in (map (λ word. word.now) list.entry.now)
        ≡ Some (asked_by request)) }
    ensures allowed { IfOk result IsAllowed }
    ensures refused { IsErrOf result WordsFault.Refused →
        choice_taken (map (λ word. word.now) list.entry.now) ≡ None }
{
    match values(alloc, list) {
        Ok(given) => requested(&given),
        Err(fault) => Err(fault),
    }
}
