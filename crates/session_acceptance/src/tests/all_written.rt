//! Sessions in which writes may be refused: with `--all-written` they end with a status of their own, and say how many.
use super::session::play;
use std::test::Fail;

// Two sectors are written in turn, and each block is erased at most once.
const WORN: &str =
    "0,write,0,01\n0,write,1,02\n0,write,0,03\n0,write,1,04\n0,write,2,05\n0,write,0,06\n0,write,1,07\n0,new,1,\n0,write,1,08\n";

// Three blocks of two pages have room for six writes, and nobody collects. The second worker writes after the first.
const FULL: &str =
    "0,write,0,01\n0,write,0,01\n0,write,0,01\n0,write,0,01\n0,write,0,01\n0,write,0,01\n0,write,0,01\n0,meet,0,\n1,new,1,02\n";

// The arguments, the trace, the status, the output, and the line on standard error.
const ROWS: [(&str, &str, u8, &str, &str); 5] = [
    (
        "--blocks=3 --pages=2 --words=1 --sectors=3 --endurance=1 --quiet",
        WORN,
        0,
        "end,6,0,1\n",
        "",
    ),
    (
        "--blocks=3 --pages=2 --words=1 --sectors=3 --endurance=1 --quiet --all-written",
        WORN,
        5,
        "end,6,0,1\n",
        "writes refused: 2 worn\n",
    ),
    (
        "--blocks=3 --pages=2 --words=1 --sectors=3 --all-written",
        "0,write,0,41\n0,new,0,42\n",
        0,
        "1,write,0,empty\n2,new,0,written\nend,1,0,0\n",
        "",
    ),
    (
        "--workers=2 --blocks=3 --pages=2 --words=1 --sectors=2 --patience=3 --quiet --all-written",
        FULL,
        5,
        "end\n",
        "writes refused: 2 full\n",
    ),
    (
        "--workers=2 --blocks=5 --pages=2 --words=1 --sectors=2 --all-written",
        "0,write,0,41\n0,new,0,42\n",
        0,
        "1,write,0,empty\n2,new,0,written\nend\n",
        "",
    ),
];

#[test]
fn refused_writes_are_counted_if_all_have_to_be_done(rt: HostRuntime) -> Result<(), Fail> {
    for (arguments, trace, status, output, errors) in ROWS {
        let ended = play(&rt, arguments, trace.as_bytes(), 0)?;
        assert!(rt; ended.is(status, output, errors), "{arguments:?}");
    }
    Ok(())
}
