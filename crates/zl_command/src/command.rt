//! The command line, read with `clap`: what its words ask for, and its help.
ghost use Rattle.std.specs.Prelude.{◌≡◌, ◌≢◌, ◌≤◌, ◌<◌, ◌⊎◌, Some, IfOk, IfErr, map, codes, false, length, option_map, unwrap_or, [], ◌∷◌};
ghost use Rattle.clap.specs.Words.{app_of, fault_of, first_of, found_of, kind_of, rows_of, rule_of, subcommand_of, subcommand_rows_of};
ghost use Rattle.zl_command.specs.Words.{AnswersError, AsksFor, GivesText, HasItsValues, HasNumber, HasValue, HasValues, IfTask, IfText, MayAskForHelp, MayHaveNumber};
ghost use Rattle.zl_command.specs.Words.{are_accepted, assembling, bad_of, checking, commands, exploring, is_within, needed, number_of, numbered, repeated, replaying};
ghost use Rattle.zl_command.specs.Words.{running, single, stepping};
ghost use Rattle.zl_command.specs.declared.command.WordFault.TheVariants.{NoMemory, Usage};

mod numbers;
mod texts;

use clap::builder::ValueParser;
use clap::error::ErrorKind;
use clap::{Arg, ArgAction, ArgMatches, Command};
pub use numbers::Numbers;
use std::alloc::{AllocError, Global};
use std::convert::AsStr;
use thiserror::Error;

/// How often `--bad` may stand among the words.
pub const MOST_BAD: usize = 16;

/// What a command line asks for.
#[derive(Debug, Drop)]
pub enum Asked<'a> {
    /// The help or the version, whose text is written.
    Text(String),
    /// A task.
    Task(Task<'a>),
}

/// What the program does with its inputs.
#[derive(PartialEq, Eq, Debug, Drop)]
pub enum Task<'a> {
    /// No words: standard input has a scenario and a schedule, whose trace is written.
    Input,
    /// `asm IN OUT`: a text is assembled into an image.
    Assemble {
        /// The path of the text.
        text: &'a str,
        /// The path of the image.
        image: &'a str,
    },
    /// `check IMAGE`: the verifier accepts an image or refuses it.
    Check {
        /// The path of the image.
        image: &'a str,
    },
    /// `step SCENARIO SCHEDULE`: a scenario runs along a schedule, and its trace is written.
    Step {
        /// The path of the scenario.
        scenario: &'a str,
        /// The path of the schedule.
        schedule: &'a str,
    },
    /// `replay SCENARIO TRACE`: whether a trace is replayed from a scenario.
    Replay {
        /// The path of the scenario.
        scenario: &'a str,
        /// The path of the trace.
        trace: &'a str,
    },
    /// `run SCENARIO --workers N --limit M [--burst K]`: a scenario runs on so many threads, and its
    /// trace is written.
    Run {
        /// The path of the scenario.
        scenario: &'a str,
        /// How many threads, 1 to 64.
        workers: u32,
        /// How many items the trace has at most, 0 to 1,000,000.
        limit: u64,
        /// How many local instructions a burst has at most, 1 to 1,000,000; 256 without the option.
        burst: u32,
    },
    /// `explore SCENARIO [--worlds N] [--bad WORDS].. [--part K/N] [--from D]`: all turns of a scenario are
    /// taken in each order, or in those of one part, and each end that is met is written, up to the first
    /// item, end or world that no order may have.
    Explore {
        /// The path of the scenario.
        scenario: &'a str,
        /// How many worlds are met at most, 1 to 1,000,000,000; 1,000,000 without the option.
        worlds: u32,
        /// The words of each `--bad`, in the order in which they stand; 16 at most.
        bad: Vec<&'a str>,
        /// The text of `--part`, whatever it says; `None` without the option.
        part: Option<&'a str>,
        /// How many turns of an order tell its part, 0 to 1,000; 6 without the option.
        from: u32,
    },
}

/// Why a command line asks for no task.
#[derive(Clone, Copy, PartialEq, Eq, Debug, Error)]
pub enum WordFault {
    /// The words are in none of the forms.
    #[error("`zlab --help` has the forms")]
    Usage,
    /// Memory was refused.
    #[error("out of memory")]
    NoMemory,
}

impl From<AllocError> for WordFault {
    ghost from_gives = { λ _ fault. fault ≡ NoMemory };

    fn from(_refused: AllocError) -> WordFault {
        WordFault::NoMemory
    }
}

/// What the words after the program's name ask for. A text comes where `clap` answers with its help or with
/// the version, `Usage` where it takes the words neither for that nor for the command set, or where `--bad`
/// stands more than 16 times among them, and `NoMemory` where memory is refused.
pub fn parse<'a, S: AsStr>(alloc: Global, words: &'a [S]) -> Result<Asked<'a>, WordFault>
    ensures task { IfOk result (IfTask (λ task. AsksFor (subcommand_of commands
        (map S.text words.entry.now)) task)) }
    ensures taken { IfOk result (IfTask (λ _. fault_of commands
        (map S.text words.entry.now) ≡ [])) }
    ensures help { fault_of commands (map S.text words.entry.now) ≡ ErrorKind.DisplayHelp ∷ []
        → GivesText result }
    ensures version { fault_of commands (map S.text words.entry.now)
        ≡ ErrorKind.DisplayVersion ∷ [] → GivesText result }
    ensures other { IfOk result (IfText (MayAskForHelp
        (fault_of commands (map S.text words.entry.now)))) }
    ensures faulty { IfErr result (λ fault. fault ≡ Usage
        → (fault_of commands (map S.text words.entry.now) ≢ [])
        ⊎ (is_within (subcommand_of commands (map S.text words.entry.now)) ≡ false)) }
    ensures usage { IfErr result (λ fault. fault ≡ Usage → are_accepted
        (map S.text words.entry.now) ≡ false) }
{
    match command(alloc)?.try_get_matches_from(words) {
        Ok(matches) => Ok(Asked::Task(task_of(alloc, &matches)?)),
        Err(error) => text_of(alloc, error),
    }
}

/// The text of an error by which `clap` answers with its help or with the version. Any other is a fault.
fn text_of<'a>(alloc: Global, error: clap::Error) -> Result<Asked<'a>, WordFault>
    ensures { AnswersError (kind_of error) result }
{
    match error.kind() {
        ErrorKind::DisplayHelp | ErrorKind::DisplayVersion => {
            Ok(Asked::Text(format!(in alloc; "{error}")?))
        }
        ErrorKind::OutOfMemory => Err(WordFault::NoMemory),
        _ => Err(WordFault::Usage),
    }
}

/// The task that the matches of the command set stand for.
fn task_of<'a>(alloc: Global, matches: &ArgMatches<'a>) -> Result<Task<'a>, WordFault>
    requires { HasValues (subcommand_rows_of matches.now) }
    ensures task { IfOk result (AsksFor (subcommand_rows_of matches.now)) }
    ensures usage { IfErr result (λ fault. fault ≡ Usage
        → is_within (subcommand_rows_of matches.now) ≡ false) }
{
    match matches.subcommand() {
        None => Ok(Task::Input),
        Some((name, values)) => task_of_command(alloc, name, values),
    }
}

/// The task that a command of the set with its values stands for.
fn task_of_command<'a>(
    alloc: Global,
    name: &str,
    values: &ArgMatches<'a>,
) -> Result<Task<'a>, WordFault>
    requires { HasItsValues name.now (rows_of (found_of values.now)) }
    ensures task { IfOk result (AsksFor (Some (name.now, rows_of (found_of values.now)))) }
    ensures usage { IfErr result (λ fault. fault ≡ Usage
        → is_within (Some (name.now, rows_of (found_of values.now))) ≡ false) }
{
    let task = if name == "asm" {
        Task::Assemble {
            text: value(values, "IN"),
            image: value(values, "OUT"),
        }
    } else if name == "step" {
        Task::Step {
            scenario: value(values, "SCENARIO"),
            schedule: value(values, "SCHEDULE"),
        }
    } else if name == "replay" {
        Task::Replay {
            scenario: value(values, "SCENARIO"),
            trace: value(values, "TRACE"),
        }
    } else if name == "run" {
        Task::Run {
            scenario: value(values, "SCENARIO"),
            workers: workers(values),
            limit: limit(values),
            burst: burst(values),
        }
    } else if name == "explore" {
        search_of(alloc, values)?
    } else {
        Task::Check {
            image: value(values, "IMAGE"),
        }
    };
    Ok(task)
}

/// The task that the values of `explore` stand for.
fn search_of<'a>(alloc: Global, values: &ArgMatches<'a>) -> Result<Task<'a>, WordFault>
    requires scenario { HasValue (rows_of (found_of values.now)) (codes "SCENARIO") }
    requires worlds { MayHaveNumber (rows_of (found_of values.now)) (codes "worlds") 1 1000000000 }
    requires from { MayHaveNumber (rows_of (found_of values.now)) (codes "from") 0 1000 }
    ensures task { IfOk result (AsksFor (Some (codes "explore", rows_of (found_of values.now)))) }
    ensures usage { IfErr result (λ fault. fault ≡ Usage
        → is_within (Some (codes "explore", rows_of (found_of values.now))) ≡ false) }
{
    Ok(Task::Explore {
        scenario: value(values, "SCENARIO"),
        worlds: worlds(values),
        bad: bad(alloc, values)?,
        part: part(values),
        from: from(values),
    })
}

/// A value that the subcommand can't be without.
fn value<'a>(matches: &ArgMatches<'a>, name: &str) -> &'a str
    requires { HasValue (rows_of (found_of matches.now)) name.now }
    ensures { first_of name.now (rows_of (found_of matches.now)) ≡ Some result.now }
{
    matches.get_str(name).unwrap()
}

/// The number of threads, which `run` can't be without.
fn workers<'a>(matches: &ArgMatches<'a>) -> u32
    requires { HasNumber (rows_of (found_of matches.now)) (codes "workers") 1 64 }
    ensures value { number_of (codes "workers") (rows_of (found_of matches.now)) ≡ Some result }
    ensures within { (1 ≤ result) × (result ≤ 64) }
{
    matches.get_one("workers").unwrap()
}

/// The limit of the trace, which `run` can't be without.
fn limit<'a>(matches: &ArgMatches<'a>) -> u64
    requires { HasNumber (rows_of (found_of matches.now)) (codes "limit") 0 1000000 }
    ensures value { number_of (codes "limit") (rows_of (found_of matches.now)) ≡ Some result }
    ensures within { result ≤ 1000000 }
{
    matches.get_one("limit").unwrap()
}

/// The length of a burst, which is 256 where the words have none.
fn burst<'a>(matches: &ArgMatches<'a>) -> u32
    requires { MayHaveNumber (rows_of (found_of matches.now)) (codes "burst") 1 1000000 }
    ensures value { result
        ≡ unwrap_or (number_of (codes "burst") (rows_of (found_of matches.now))) 256 }
    ensures within { (1 ≤ result) × (result ≤ 1000000) }
{
    matches.get_one("burst").unwrap_or(256)
}

/// The most worlds of a search, which are 1,000,000 where the words have no number.
fn worlds<'a>(matches: &ArgMatches<'a>) -> u32
    requires { MayHaveNumber (rows_of (found_of matches.now)) (codes "worlds") 1 1000000000 }
    ensures value { result
        ≡ unwrap_or (number_of (codes "worlds") (rows_of (found_of matches.now))) 1000000 }
    ensures within { (1 ≤ result) × (result ≤ 1000000000) }
{
    matches.get_one("worlds").unwrap_or(1_000_000)
}

/// The words of each `--bad`, in the order in which they stand, where there are no more than 16.
fn bad<'a>(alloc: Global, matches: &ArgMatches<'a>) -> Result<Vec<&'a str>, WordFault>
    ensures value { IfOk result (λ bad. map (λ words. words.now) bad.items
        ≡ bad_of (rows_of (found_of matches.now))) }
    ensures within { IfOk result (λ bad. length bad.items ≤ 16) }
    ensures usage { IfErr result (λ fault. fault ≡ Usage
        → 16 < length (bad_of (rows_of (found_of matches.now)))) }
{
    let found = matches.get_strs("bad").unwrap_or(&[]);
    if found.len() > MOST_BAD {
        return Err(WordFault::Usage);
    }
    Ok(found.to_vec(alloc)?)
}

/// The text of `--part`, if the words have one.
fn part<'a>(matches: &ArgMatches<'a>) -> Option<&'a str>
    ensures { option_map (λ text. text.now) result
        ≡ first_of (codes "part") (rows_of (found_of matches.now)) }
{
    matches.get_str("part")
}

/// How many turns tell the part of an order, which are 6 where the words have no number.
fn from<'a>(matches: &ArgMatches<'a>) -> u32
    requires { MayHaveNumber (rows_of (found_of matches.now)) (codes "from") 0 1000 }
    ensures value { result
        ≡ unwrap_or (number_of (codes "from") (rows_of (found_of matches.now))) 6 }
    ensures within { result ≤ 1000 }
{
    matches.get_one("from").unwrap_or(6)
}

/// The command set, with what the help says of it.
fn command<'a>(alloc: Global) -> Result<Command<'a>, AllocError>
    ensures { IfOk result (λ made. app_of made ≡ commands) }
{
    Command::new(alloc, "zlab")
        .no_binary_name(true)
        .bin_name("zlab")?
        .version("0.1.0")
        .about(texts::ABOUT)
        .after_help(texts::FORMS)
        .subcommand(assembling(alloc)?)?
        .subcommand(checking(alloc)?)?
        .subcommand(stepping(alloc)?)?
        .subcommand(replaying(alloc)?)?
        .subcommand(running(alloc)?)?
        .subcommand(exploring(alloc)?)
}

fn assembling<'a>(alloc: Global) -> Result<Command<'a>, AllocError>
    ensures { IfOk result (λ made. app_of made ≡ assembling) }
{
    Command::new(alloc, "asm")
        .about("Assembles the text in the file IN into an image in the file OUT")
        .arg(needed(alloc, "IN", "The file of the assembler's text"))?
        .arg(needed(alloc, "OUT", "The file for the image; it is emptied first"))
}

fn checking<'a>(alloc: Global) -> Result<Command<'a>, AllocError>
    ensures { IfOk result (λ made. app_of made ≡ checking) }
{
    Command::new(alloc, "check")
        .about("Says whether the verifier accepts the image in the file IMAGE")
        .arg(needed(alloc, "IMAGE", "The file of the image"))
}

fn stepping<'a>(alloc: Global) -> Result<Command<'a>, AllocError>
    ensures { IfOk result (λ made. app_of made ≡ stepping) }
{
    Command::new(alloc, "step")
        .about("Runs the scenario in the file SCENARIO along the schedule in the file SCHEDULE")
        .arg(needed(alloc, "SCENARIO", "The file of the scenario"))?
        .arg(needed(alloc, "SCHEDULE", "The file of the schedule"))
}

fn replaying<'a>(alloc: Global) -> Result<Command<'a>, AllocError>
    ensures { IfOk result (λ made. app_of made ≡ replaying) }
{
    Command::new(alloc, "replay")
        .about("Says whether the lab's own steps from SCENARIO give the trace in the file TRACE")
        .arg(needed(alloc, "SCENARIO", "The file of the scenario"))?
        .arg(needed(alloc, "TRACE", "The file of the trace"))
}

fn running<'a>(alloc: Global) -> Result<Command<'a>, AllocError>
    ensures { IfOk result (λ made. app_of made ≡ running) }
{
    let workers = numbered(alloc, "workers", "N", texts::WORKERS, Numbers::WORKERS);
    let limit = numbered(alloc, "limit", "M", texts::LIMIT, Numbers::LIMIT);
    let burst = numbered(alloc, "burst", "K", texts::BURST, Numbers::BURST);
    Command::new(alloc, "run")
        .about("Runs the scenario in the file SCENARIO on N threads")
        .arg(needed(alloc, "SCENARIO", "The file of the scenario"))?
        .arg(workers)?
        .arg(limit)?
        .arg(burst.required(false))
}

fn exploring<'a>(alloc: Global) -> Result<Command<'a>, AllocError>
    ensures { IfOk result (λ made. app_of made ≡ exploring) }
{
    let worlds = numbered(alloc, "worlds", "N", texts::WORLDS, Numbers::WORLDS);
    let from = numbered(alloc, "from", "D", texts::FROM, Numbers::FROM);
    Command::new(alloc, "explore")
        .about("Takes the turns of the scenario in the file SCENARIO in each order, for its ends")
        .arg(needed(alloc, "SCENARIO", "The file of the scenario"))?
        .arg(worlds.required(false))?
        .arg(repeated(alloc, "bad", "WORDS", texts::BAD))?
        .arg(single(alloc, "part", "K/N", texts::PART))?
        .arg(from.required(false))
}

/// An option that may stand several times, and each time takes a word.
fn repeated<'a>(alloc: Global, name: &'a str, letter: &'a str, help: &'a str) -> Arg<'a>
    ensures rule { rule_of result ≡ repeated name.entry.now }
    ensures local { result.global ≡ false }
{
    Arg::new(alloc, name)
        .help(help)
        .long(name)
        .value_name(letter)
        .action(ArgAction::Append)
}

/// An option that may stand once, and takes a word.
fn single<'a>(alloc: Global, name: &'a str, letter: &'a str, help: &'a str) -> Arg<'a>
    ensures rule { rule_of result ≡ single name.entry.now }
    ensures local { result.global ≡ false }
{
    Arg::new(alloc, name)
        .help(help)
        .long(name)
        .value_name(letter)
}

/// An option that must be there, whose value is one of these numbers.
fn numbered<'a>(
    alloc: Global,
    name: &'a str,
    letter: &'a str,
    help: &'a str,
    numbers: Numbers,
) -> Arg<'a>
    ensures rule { rule_of result ≡ numbered name.entry.now numbers.least numbers.most }
    ensures local { result.global ≡ false }
{
    needed(alloc, name, help)
        .long(name)
        .value_name(letter)
        .value_parser(ValueParser::unsigned(numbers.least, numbers.most))
}

/// A word that must be there.
fn needed<'a>(alloc: Global, name: &'a str, help: &'a str) -> Arg<'a>
    ensures rule { rule_of result ≡ needed name.entry.now }
    ensures local { result.global ≡ false }
{
    Arg::new(alloc, name).help(help).required(true)
}
