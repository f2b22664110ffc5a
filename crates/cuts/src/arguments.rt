use crate::stop::Stop;
use answers::{RunFault, send};
use clap::builder::ValueParser;
use clap::error::ErrorKind;
use clap::{Arg, ArgMatches, Command};
use geometry::Geometry;
use std::alloc::{AllocError, Global};
use std::io::Write;
use trace::Watched;

/// What the command line gives: the device, and what befalls it.
#[derive(Drop)]
pub struct Given {
    pub geometry: Geometry,
    /// The power is cut within each command whose number is a multiple of this; 0 for no cut.
    pub cut_every: u32,
    /// How many commands fail.
    pub failures: u32,
    pub seed: u32,
}

// An option of one whole number: its name, its default, and its help.
const NUMBERS: [(&str, &str, &str); 7] = [
    ("blocks", "64", "Blocks, from 3 to 4096"),
    ("pages", "64", "Pages of a block, from 1 to 16384"),
    ("words", "64", "64-bit words of a page, from 1 to 512"),
    (
        "sectors",
        "3072",
        "Sectors of one page, below (blocks - 1) * pages",
    ),
    (
        "cut-every",
        "0",
        "Cuts the power in every N-th command, N at least pages + 2; 0: never",
    ),
    (
        "failures",
        "0",
        "Commands that fail, and spare blocks for them, as far as there is room",
    ),
    (
        "seed",
        "0",
        "Draws what a cut leaves of its command, and which commands fail",
    ),
];

/// What the words of a command line give; nothing where they ask for the help, which is written.
pub fn read_given<W: Write>(
    alloc: Global,
    words: &[&str],
    output: &mut Watched<W>,
) -> Result<Option<Given>, Stop> {
    let error = match command(alloc)?.try_get_matches_from(words) {
        Ok(matches) => return Ok(Some(checked(alloc, &matches)?)),
        Err(error) => error,
    };
    let text = error.to_string(alloc)?;
    if !matches!(error.kind(), ErrorKind::DisplayHelp) {
        return Err(Stop::Arguments(text));
    }
    match send(output, text.as_bytes()) {
        Ok(()) => Ok(None),
        Err(_) => Err(Stop::Run(RunFault::Output)),
    }
}

fn command<'a>(alloc: Global) -> Result<Command<'a>, AllocError> {
    let mut command = Command::new(alloc, "flashplay cuts")
        .about(
            "Plays a trace on a chip in memory whose power is cut and whose commands fail, by a seed.",
        )
        .after_help("Trace, answers and status: as for flashplay. docs/FORMATS.md tells more.");
    'numbers: for number in &NUMBERS {
        let (name, default, help) = *number;
        let option = Arg::new(alloc, name)
            .long(name)
            .value_name("N")
            .help(help)
            .value_parser(ValueParser::signed(0, u32::MAX as i64))
            .default_value(default);
        command = command.arg(option)?;
    }
    Ok(command)
}

// The numbers, if they make a device on which each call comes to its end between two cuts.
fn checked(alloc: Global, matches: &ArgMatches<'_>) -> Result<Given, Stop> {
    let pages = number(matches, "pages");
    let (blocks, words) = (number(matches, "blocks"), number(matches, "words"));
    let sectors = number(matches, "sectors");
    let geometry = match Geometry::new(1, blocks, pages, words, sectors, 1, 0, 0) {
        Ok(geometry) => geometry,
        Err(fault) => return Err(Stop::Geometry(fault)),
    };
    let cut_every = number(matches, "cut-every");
    let least = pages.saturating_add(2);
    if cut_every > 0 && cut_every < least {
        return Err(Stop::Arguments(format!(in alloc;
            "error: --cut-every {cut_every}: with {pages} pages of a block give 0 or at least {least}\n"
        )?));
    }
    Ok(Given {
        geometry,
        cut_every,
        failures: number(matches, "failures"),
        seed: number(matches, "seed"),
    })
}

fn number(matches: &ArgMatches<'_>, name: &str) -> u32 {
    matches.get_one::<u32>(name).unwrap_or(0)
}
