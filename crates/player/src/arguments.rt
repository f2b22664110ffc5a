ghost use Rattle.std.specs.Prelude.{◌≡◌, map, false, IfOk};
ghost use Rattle.clap.specs.Words.{FailsBy, app_of, found_of, one_of, rows_of, rule_of};
ghost use Rattle.player.specs.CommandLine.{AreOptionsOf, IsNumberRead, faults_given, file_rule, flag_rule, flashplay, named_rule};
ghost use Rattle.player.specs.CommandLine.{number_rule, versioned, with_numbers, with_threads};

use crate::command_line::{
    BLOCKS, BROOMS, DRAINS, ENDURANCE, LUNS, Options, PAGES, PATIENCE, SECTORS, WORDS, WORKERS,
};
use crate::help::{HELP, VERSION};
use clap::builder::ValueParser;
use clap::{Arg, ArgAction, ArgMatches, Command, Error};
use std::alloc::{AllocError, Global};

// An option of one whole number: its name, its default, the numbers that it takes, and its help.
struct NumberOption {
    name: &'static str,
    default: &'static str,
    least: i64,
    most: i64,
    help: &'static str,
}

// The greatest number that an option of a device takes.
const MAX: i64 = u32::MAX as i64;

// A row for each option: its name, its default, the numbers that it takes, and its help.
macro_rules! numbers {
    ($($name:literal, $default:literal, $least:literal to $most:tt: $help:literal;)*) => {
        [$(NumberOption {
            name: $name,
            default: $default,
            least: $least,
            most: $most,
            help: $help,
        }),*]
    };
}

// The numbers of a device, then the threads of a run, the tries of a write, and the drains by one survey.
const NUMBERS: [NumberOption; 10] = numbers! {
    "luns", "1", 0 to MAX: "LUNs, from 1 to 8";
    "blocks", "64", 0 to MAX: "Blocks over all LUNs, from 3 to 4096, a multiple of the LUNs";
    "pages", "64", 0 to MAX: "Pages of a block, from 1 to 16384";
    "words", "64", 0 to MAX: "64-bit words of a page, from 1 to 512";
    "sectors", "3072", 0 to MAX: "Sectors of one page each, from 1 to 1048576";
    "endurance", "1000", 0 to MAX: "Erase cycles of a block, from 1 to 1000000; the last one fails";
    "workers", "0", 0 to MAX: "Workers that play the trace, each in a thread of its own, from 1 to 500; with 0 one thread plays all";
    "brooms", "0", 0 to MAX: "Brooms that collect beside the workers, each in a thread of its own, from 0 to 32";
    "patience", "1000000", 1 to 1_000_000_000: "Times that a worker's write looks for a free block before it answers full";
    "drains", "1", 1 to 4096: "Blocks that a broom drains by one survey, from 1 to 4096";
};

/// The options that the words of a command line set. The first word is the program's name.
pub fn options<'a>(alloc: Global, words: &'a [&'a str]) -> Result<Options<'a>, Error>
    ensures numbers { IfOk result (AreOptionsOf (map (λ w. w.now) words.entry.now)) }
    ensures outcome { FailsBy (faults_given (map (λ w. w.now) words.entry.now)) result }
{
    let command = flashplay(alloc)?;
    let matches = match command.try_get_matches_from(words) {
        Ok(matches) => matches,
        Err(error) => return Err(error),
    };
    Ok(Options {
        luns: number(&matches, "luns", LUNS),
        blocks: number(&matches, "blocks", BLOCKS),
        pages: number(&matches, "pages", PAGES),
        words: number(&matches, "words", WORDS),
        sectors: number(&matches, "sectors", SECTORS),
        endurance: number(&matches, "endurance", ENDURANCE),
        workers: number(&matches, "workers", WORKERS),
        brooms: number(&matches, "brooms", BROOMS),
        patience: number(&matches, "patience", PATIENCE),
        drains: number(&matches, "drains", DRAINS),
        wear: matches.get_str("wear"),
        collections: matches.get_str("collections"),
        quiet: matches.get_flag("quiet"),
        all_written: matches.get_flag("all-written"),
    })
}

// The command line as clap knows it.
fn flashplay<'a>(alloc: Global) -> Result<Command<'a>, AllocError>
    ensures { IfOk result (λ command. app_of command ≡ flashplay) }
{
    number_options(alloc)?
        .arg(file(
            alloc,
            "wear",
            "Writes each block's erases and live pages to this file after the run",
        ))?
        .arg(file(
            alloc,
            "collections",
            "Writes a line for each collection to this file, as they are made; by workers a line for each broom",
        ))?
        .arg(flag(
            alloc,
            "quiet",
            "Leaves out the answers: the output is the last line alone",
        ))?
        .arg(flag(
            alloc,
            "all-written",
            "Ends with status 5, and says how many, if writes were refused as worn or full",
        ))
}

// The command with the options of whole numbers.
fn number_options<'a>(alloc: Global) -> Result<Command<'a>, AllocError>
    ensures { IfOk result (λ command. app_of command ≡ with_threads with_numbers) }
{
    let mut command = named_command(alloc);
    'numbers: for number in &NUMBERS {
        command = command.arg(option(alloc, number))?;
    }
    Ok(command)
}

// The command without options: its version and its texts of help.
fn named_command<'a>(alloc: Global) -> Command<'a>
    ensures { app_of result ≡ versioned }
{
    Command::new(alloc, "flashplay")
        .version(VERSION)
        .about(
            "Plays a trace on a page-mapped flash layer: the trace comes from standard input, its answers go to standard output.",
        )
        .after_help(HELP)
}

// An option of one whole number.
fn option<'a>(alloc: Global, number: &NumberOption) -> Arg<'a>
    ensures rule { rule_of result ≡ number_rule number.now }
    ensures local { result.global ≡ false }
{
    named(alloc, number.name, "N", number.help)
        .value_parser(ValueParser::signed(number.least, number.most))
        .default_value(number.default)
}

// An option of a file's name.
fn file<'a>(alloc: Global, name: &'a str, help: &'a str) -> Arg<'a>
    ensures rule { rule_of result ≡ file_rule name.entry.now }
    ensures local { result.global ≡ false }
{
    named(alloc, name, "FILE", help).value_parser(ValueParser::NonEmptyString)
}

// An option without a value.
fn flag<'a>(alloc: Global, name: &'a str, help: &'a str) -> Arg<'a>
    ensures rule { rule_of result ≡ flag_rule name.entry.now }
    ensures local { result.global ≡ false }
{
    Arg::new(alloc, name)
        .long(name)
        .action(ArgAction::SetTrue)
        .help(help)
}

// An option behind two dashes, by its name, its value's name, and its help.
fn named<'a>(alloc: Global, name: &'a str, value: &'a str, help: &'a str) -> Arg<'a>
    ensures rule { rule_of result ≡ named_rule name.entry.now }
    ensures local { result.global ≡ false }
{
    Arg::new(alloc, name)
        .long(name)
        .value_name(value)
        .help(help)
}

// The number that the matches give to an option.
fn number(matches: &ArgMatches<'_>, name: &str, default: u32) -> u32
    ensures { IsNumberRead (one_of name.now (rows_of (found_of matches.now))) default result }
{
    matches.get_one::<u32>(name).unwrap_or(default)
}
