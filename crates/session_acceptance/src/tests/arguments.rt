//! The arguments of a session: each option by two words or by one, all options, and what `clap` answers.
use super::session::play;
use std::test::Fail;

// All numbers by two words each, which are 20 words.
const APART: &str =
    "--luns 2 --blocks 6 --pages 3 --words 1 --sectors 2 --endurance 9 --workers 1 --brooms 1 --patience 3 --drains 2";

// The same by one word each.
const TOGETHER: &str =
    "--luns=2 --blocks=6 --pages=3 --words=1 --sectors=2 --endurance=9 --workers=1 --brooms=1 --patience=3 --drains=2";

// The same from the last one on.
const REVERSED: &str =
    "--drains=2 --patience 3 --brooms=1 --workers 1 --endurance=9 --sectors 2 --words=1 --pages 3 --blocks=6 --luns 2";

// Each of these has one option more, which the device of the others doesn't allow: so this option is read, and by this word.
const REFUSED: [(&str, &str); 8] = [
    ("--luns 9", "geometry: Luns\n"),
    ("--luns 2 --blocks 7", "geometry: Blocks\n"),
    ("--pages 16385", "geometry: Pages\n"),
    ("--words 513", "geometry: Words\n"),
    ("--sectors 0", "geometry: Sectors\n"),
    ("--endurance 0", "geometry: Endurance\n"),
    ("--workers 501", "geometry: Passes\n"),
    ("--brooms 1", "geometry: Passes\n"),
];

// What clap writes for these on standard error, up to its first line end.
const BY_CLAP: [(&str, &str); 6] = [
    ("", "error: unexpected argument '' found\n"),
    (
        "--wear ",
        "error: a value is required for '--wear <FILE>' but none was supplied\n",
    ),
    (
        "--blocks=3 --blocks=4",
        "error: the argument '--blocks <N>' cannot be used multiple times\n",
    ),
    (
        "--patience 0",
        "error: invalid value '0' for '--patience <N>': 0 is not in 1..=1000000000\n",
    ),
    (
        "--drains 4097",
        "error: invalid value '4097' for '--drains <N>': 4097 is not in 1..=4096\n",
    ),
    ("--block 3", "error: unexpected argument '--block' found\n"),
];

// The first lines of what `--help` and `--version` write.
const TOLD: [(&str, &str); 2] = [
    (
        "--help",
        "Plays a trace on a page-mapped flash layer: the trace comes from standard input, its answers go to standard output.\n",
    ),
    ("--blocks 2 --version", "flashplay 0.1.0\n"),
];

#[test]
fn options_are_read_by_two_words_or_by_one(rt: HostRuntime) -> Result<(), Fail> {
    for arguments in [APART, TOGETHER, REVERSED] {
        let ended = play(&rt, arguments, b"0,write,1,\n0,read,1,\n".as_slice(), 0)?;
        let output = "1,write,1,empty\n2,read,1,0000000000000000\nend\n";
        assert!(rt; ended.is(0, output, ""), "{arguments:?}");
    }
    for (arguments, errors) in REFUSED {
        let ended = play(&rt, arguments, b"no trace".as_slice(), 0)?;
        assert!(rt; ended.is(2, "", errors), "{arguments:?}");
    }
    Ok(())
}

#[test]
fn clap_answers_what_it_refuses_or_is_asked(rt: HostRuntime) -> Result<(), Fail> {
    for (arguments, line) in BY_CLAP {
        let ended = play(&rt, arguments, b"no trace".as_slice(), 0)?;
        let is_refused = ended.status == 2 && ended.output.is_empty();
        let is_told = ended.errors.as_slice().starts_with(line.as_bytes());
        assert!(rt; is_refused && is_told, "{arguments:?}");
    }
    for (arguments, line) in TOLD {
        let ended = play(&rt, arguments, b"no trace".as_slice(), 0)?;
        let is_done = ended.status == 0 && ended.errors.is_empty();
        let is_told = ended.output.as_slice().starts_with(line.as_bytes());
        assert!(rt; is_done && is_told, "{arguments:?}");
    }
    Ok(())
}
