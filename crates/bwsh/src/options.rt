//! The command line: the settings of a new store, the crew, the files and the mode of the session.
ghost use Rattle.std.specs.Prelude.{◌≡◌, ◌⊎◌, IfOk, IfErr, Some, codes, false, map, option_map, string_bytes, true};
ghost use Rattle.std.specs.List.{fold};
ghost use Rattle.clap.specs.Words.{FailsBy, app_of, fault_of, found_of, kind_of, matches_of, one_of, rows_of, rule_of, with_rule, without_minus};
ghost use Rattle.clap.specs.declared.error.kind.ErrorKind.TheVariants.{ArgumentConflict, OutOfMemory};
ghost use Rattle.bwsh.specs.Options.{AreAsked, AreForPairs, AsksFor, Given, IsRightKind, Text, are_usable, crew_of, gives_size, is_given, is_number, number_of, pairs_of, path_of, settings_of, takes_nothing, takes_number, takes_path, texts, request_of, mode_of};
ghost use Rattle.bwsh.specs.CommandLine.{AreGivable, bwsh, finished_rows, flag_rule, number_rule, text_rule, with_work};

mod asked;
mod help_text;

pub use asked::{Mode, Options};
use clap::error::ErrorKind;
use clap::parser::ValueSource;
use clap::{Arg, ArgAction, ArgMatches, Command, Error, value_parser};
use engine::Crew;
pub use help_text::STREAM_LINES;
use keys::Settings;
use std::alloc::{AllocError, Global};

// The name, the default and the help of each option that takes a number, ...
const SETTINGS: &[(&str, &str, &str)] = &[
    ("fan", "16", help_text::FAN),
    ("chain", "4", help_text::CHAIN),
    ("max-key", "64", help_text::MAX_KEY),
    ("max-value", "256", help_text::MAX_VALUE),
    ("seg-size", "65536", help_text::SEG_SIZE),
    ("segments", "64", help_text::SEGMENTS),
    ("pairs", "0", help_text::PAIRS),
];

const WORK: &[(&str, &str, &str)] = &[
    ("workers", "1", help_text::WORKERS),
    ("grain", "64", help_text::GRAIN),
    ("tidy", "0", help_text::TIDY),
    ("wait", "0", help_text::WAIT),
    ("max-rows", "0", help_text::MAX_ROWS),
];

// ... and the name and the help of each that takes no value.
const FLAGS: &[(&str, &str)] = &[
    ("create", help_text::CREATE),
    ("version", help_text::VERSION),
    ("explain", help_text::EXPLAIN),
    ("stat", help_text::STAT),
    ("clean-when-full", help_text::CLEAN_WHEN_FULL),
    ("stream", help_text::STREAM),
    ("progress", help_text::PROGRESS),
];

fn number<'a>(alloc: Global, name: &'a str, default: &'a str, help: &'a str) -> Arg<'a>
    ensures rule { rule_of result ≡ number_rule name.entry.now default.entry.now }
    ensures local { result.global ≡ false }
{
    Arg::new(alloc, name)
        .long(name)
        .value_name("N")
        .value_parser(value_parser!(u32))
        .default_value(default)
        .help(help)
}

fn path<'a>(alloc: Global, name: &'a str, help: &'a str) -> Arg<'a>
    ensures rule { rule_of result ≡ text_rule name.entry.now }
    ensures local { result.global ≡ false }
{
    Arg::new(alloc, name)
        .long(name)
        .value_name("PATH")
        .help(help)
}

fn flag<'a>(alloc: Global, name: &'a str, help: &'a str) -> Arg<'a>
    ensures rule { rule_of result ≡ flag_rule name.entry.now }
    ensures local { result.global ≡ false }
{
    Arg::new(alloc, name)
        .long(name)
        .action(ArgAction::SetTrue)
        .help(help)
}

fn add_numbers<'a>(
    alloc: Global,
    mut command: Command<'a>,
    numbers: &[(&'a str, &'a str, &'a str)],
) -> Result<Command<'a>, AllocError>
    ensures { IfOk result (λ c. app_of c ≡ fold with_rule (app_of command.entry)
        (map (λ n. number_rule n.0.now n.1.now) numbers.entry.now)) }
{
    for &(name, default, help) in numbers {
        command = command.arg(number(alloc, name, default, help))?;
    }
    Ok(command)
}

fn add_work<'a>(alloc: Global, command: Command<'a>) -> Result<Command<'a>, AllocError>
    ensures { IfOk result (λ c. app_of c ≡ with_work (app_of command.entry)) }
{
    add_numbers(alloc, command, WORK)?
        .arg(path(alloc, "disk", help_text::DISK))?
        .arg(path(alloc, "copy-to", help_text::COPY_TO))
}

fn add_flags<'a>(
    alloc: Global,
    mut command: Command<'a>,
    flags: &[(&'a str, &'a str)],
) -> Result<Command<'a>, AllocError>
    ensures { IfOk result (λ c. app_of c ≡ fold with_rule (app_of command.entry)
        (map (λ f. flag_rule f.0.now) flags.entry.now)) }
{
    for &(name, help) in flags {
        command = command.arg(flag(alloc, name, help))?;
    }
    Ok(command)
}

fn command<'a>(alloc: Global) -> Result<Command<'a>, AllocError>
    ensures { IfOk result (λ c. app_of c ≡ bwsh) }
{
    let plain = Command::new(alloc, "bwsh")
        .about(help_text::ABOUT)
        .after_help(help_text::AFTER_OPTIONS)
        .no_binary_name(true);
    let command = add_work(alloc, add_numbers(alloc, plain, SETTINGS)?)?;
    add_flags(alloc, command, FLAGS)
}

fn parse<'a>(alloc: Global, words: &'a [String]) -> Result<ArgMatches<'a>, Error>
    ensures ok { IfOk result (λ m. rows_of (found_of m) ≡ matches_of bwsh (texts words.entry.now)) }
    ensures err { FailsBy (fault_of bwsh (texts words.entry.now)) result }
{
    command(alloc)?.try_get_matches_from(words)
}

// Every option that takes a number has a default, so the number is always found.
fn number_at(matches: &ArgMatches<'_>, name: &str) -> u32
    ensures { (text : Text) → is_number text ≡ true
        → one_of name.now (rows_of (found_of matches.now)) ≡ Some (without_minus text)
        → result ≡ number_of text }
{
    matches.get_one::<u32>(name).unwrap_or_default()
}

fn settings(matches: &ArgMatches<'_>) -> Settings
    ensures { (given : Given) → AreGivable given
        → rows_of (found_of matches.now) ≡ finished_rows given → result ≡ settings_of given }
{
    Settings {
        fan: number_at(matches, "fan"),
        chain: number_at(matches, "chain"),
        max_key: number_at(matches, "max-key"),
        max_value: number_at(matches, "max-value"),
        seg_size: number_at(matches, "seg-size"),
        segments: number_at(matches, "segments"),
    }
}

// Returns the settings for this many pairs, with the lengths of `given`. If there are none, returns
// settings that are out of range in the same field.
fn settings_for(pairs: u32, given: Settings) -> Settings
    ensures { AreForPairs pairs given.max_key given.max_value result }
{
    match Settings::for_pairs(pairs, given.max_key, given.max_value) {
        Ok(settings) => settings,
        Err(_) => Settings {
            segments: u32::MAX,
            ..given
        },
    }
}

fn asked_settings(pairs: u32, matches: &ArgMatches<'_>) -> Settings
    ensures { (given : Given) → AreGivable given
        → rows_of (found_of matches.now) ≡ finished_rows given → pairs ≡ pairs_of given
        → AreAsked given result }
{
    let given = settings(matches);
    if pairs == 0 {
        given
    } else {
        settings_for(pairs, given)
    }
}

fn crew(matches: &ArgMatches<'_>) -> Crew
    ensures { (given : Given) → AreGivable given
        → rows_of (found_of matches.now) ≡ finished_rows given → result ≡ crew_of given }
{
    Crew {
        workers: number_at(matches, "workers"),
        grain: number_at(matches, "grain"),
    }
}

fn path_at(
    alloc: Global,
    matches: &ArgMatches<'_>,
    name: &str,
) -> Result<Option<String>, AllocError>
    ensures { takes_path name.now ≡ true → (given : Given)
        → rows_of (found_of matches.now) ≡ finished_rows given
        → IfOk result (λ found. option_map string_bytes found ≡ path_of name.now given) }
{
    match matches.get_str(name) {
        Some(path) => Ok(Some(String::from_str(alloc, path)?)),
        None => Ok(None),
    }
}

fn flag_at(matches: &ArgMatches<'_>, name: &str) -> bool
    ensures { takes_nothing name.now ≡ true → (given : Given) → AreGivable given
        → rows_of (found_of matches.now) ≡ finished_rows given → result ≡ is_given name.now given }
{
    matches.get_flag(name)
}

// Returns whether an option that takes a number was given. A default does not count.
fn was_given(matches: &ArgMatches<'_>, name: &str) -> bool
    ensures { takes_number name.now ≡ true → (given : Given)
        → rows_of (found_of matches.now) ≡ finished_rows given → result ≡ is_given name.now given }
{
    matches!(matches.value_source(name), Some(ValueSource::CommandLine))
}

// Returns whether an option was given for which `--pairs` chooses the number.
fn has_size(matches: &ArgMatches<'_>) -> bool
    ensures { (given : Given) → rows_of (found_of matches.now) ≡ finished_rows given
        → result ≡ gives_size given }
{
    was_given(matches, "fan")
        || was_given(matches, "chain")
        || was_given(matches, "seg-size")
        || was_given(matches, "segments")
}

// Refuses `--pairs` without a new store or a copy, and with an option for which it chooses the
// number.
fn check_pairs(alloc: Global, pairs: u32, is_new: bool, has_size: bool) -> Result<(), Error>
    ensures ok { IfOk result (λ _. are_usable pairs is_new has_size ≡ true) }
    ensures err { IfErr result (λ e. (kind_of e ≡ OutOfMemory)
        ⊎ ((kind_of e ≡ ArgumentConflict) × (are_usable pairs is_new has_size ≡ false))) }
{
    if pairs == 0 || is_new && !has_size {
        return Ok(());
    }
    let reason = if is_new {
        "--pairs chooses --fan, --chain, --seg-size and --segments: leave these out"
    } else {
        "--pairs needs --create or --copy-to"
    };
    Err(command(alloc)?.error(ErrorKind::ArgumentConflict, reason)?)
}

fn mode(matches: &ArgMatches<'_>) -> Mode
    ensures { (given : Given) → AreGivable given
        → rows_of (found_of matches.now) ≡ finished_rows given → result ≡ mode_of given }
{
    Mode {
        version: flag_at(matches, "version"),
        explain: flag_at(matches, "explain"),
        stat: flag_at(matches, "stat"),
        clean_when_full: flag_at(matches, "clean-when-full"),
        stream: flag_at(matches, "stream"),
        tidy: number_at(matches, "tidy"),
        wait: number_at(matches, "wait"),
        max_rows: number_at(matches, "max-rows"),
        progress: flag_at(matches, "progress"),
    }
}

/// Parses the words after the program's name. Ranges are checked later, by `Settings::check` (only
/// for a new store or a copy) and `Crew::check`.
// Not inlined, because its large stack frame would then be held during the whole session.
#[inline(never)]
pub fn options(alloc: Global, words: &[String]) -> Result<Options, Error>
    ensures ok { IfOk result (λ o. AsksFor (texts words.now) (request_of o)) }
    ensures err { IfErr result (λ e. IsRightKind (texts words.now) (kind_of e)) }
{
    let matches = parse(alloc, words)?;
    let disk = path_at(alloc, &matches, "disk")?;
    let copy_to = path_at(alloc, &matches, "copy-to")?;
    let create = flag_at(&matches, "create");
    let pairs = number_at(&matches, "pairs");
    check_pairs(
        alloc,
        pairs,
        create || copy_to.is_some(),
        has_size(&matches),
    )?;
    Ok(Options {
        settings: asked_settings(pairs, &matches),
        pairs,
        crew: crew(&matches),
        disk,
        create,
        copy_to,
        mode: mode(&matches),
    })
}
