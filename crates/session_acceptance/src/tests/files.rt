//! The files of a session: the wear and the log of collections, written whole, in pieces, or not at all.
use super::session::{Ended, play};
use std::test::Fail;

// The device of two LUNs, with four blocks, and both files.
const BOTH: &str =
    "--luns=2 --blocks=4 --pages=2 --words=1 --sectors=3 --endurance=10 --wear wear.csv --collections=log.csv";

const TRACE: &[u8] =
    b"0,write,0,01\n0,write,1,02\n0,write,1,03\n0,write,2,04\n0,write,2,05\n0,write,2,06\n0,write,1,07\n";

const ANSWERS: &str =
    "1,write,0,empty\n2,write,1,empty\n3,write,1,written\n4,write,2,empty\n5,write,2,written\n6,write,2,written\n7,write,1,written\nend,7,1,1\n";

const WEAR: &str = "wear.csv\nblock,erases,live,retired\n0,1,0,0\n1,0,0,0\n2,0,1,0\n3,0,2,0\n";

const LOG: &str = "log.csv\nline,victim,copied,copybacks,erases,outcome\n7,0,1,0,1,freed\n";

// Whether the files hold these texts.
fn hold(ended: &Ended, wear: &str, collections: &str) -> bool {
    ended.wear.holds(wear) && ended.collections.holds(collections)
}

#[test]
fn files_are_written_whole_in_pieces_of_any_size(rt: HostRuntime) -> Result<(), Fail> {
    for most in [1, 2, 3, 7, 30, 1000] {
        let ended = play(&rt, BOTH, TRACE, most)?;
        assert!(rt; ended.is(0, ANSWERS, ""), "{most:?}");
        assert!(rt; hold(&ended, WEAR, LOG), "{most:?}");
    }
    Ok(())
}

// Arguments of files that take no byte or can't be opened; the status, the output, what is reported, and what the files hold.
const REFUSED: [(&str, u8, &str, &str, &str, &str); 9] = [
    (
        "--wear=wear.csv",
        1,
        "end,0,0,0\n",
        "wear: failed\n",
        "wear.csv\n",
        "",
    ),
    (
        "--collections=log.csv",
        1,
        "end,0,0,0\n",
        "collections: failed\n",
        "",
        "log.csv\n",
    ),
    ("--wear=refused", 1, "", "wear: not opened\n", "", ""),
    (
        "--collections=refused",
        1,
        "",
        "collections: not opened\n",
        "",
        "",
    ),
    (
        "--wear=wear.csv --collections=refused",
        1,
        "",
        "collections: not opened\n",
        "wear.csv\n",
        "",
    ),
    (
        "--wear=in-use --collections=log.csv",
        2,
        "",
        "wear: not a file of its own\n",
        "",
        "",
    ),
    (
        "--wear=wear.csv --collections=in-use",
        2,
        "",
        "collections: not a file of its own\n",
        "wear.csv\n",
        "",
    ),
    (
        "--workers=1 --wear=wear.csv --collections=log.csv",
        2,
        "",
        "wear: not with workers\n",
        "",
        "",
    ),
    (
        "--workers=1 --collections=log.csv",
        1,
        "end\n",
        "collections: failed\n",
        "",
        "log.csv\n",
    ),
];

#[test]
fn a_file_that_is_not_written_is_reported(rt: HostRuntime) -> Result<(), Fail> {
    for (arguments, status, output, errors, wear, collections) in REFUSED {
        let ended = play(&rt, arguments, b"", 0)?;
        assert!(rt; ended.is(status, output, errors), "{arguments:?}");
        assert!(rt; hold(&ended, wear, collections), "{arguments:?}");
    }
    Ok(())
}
