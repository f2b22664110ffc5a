//! Sessions by one thread: an argument and a trace, with the status, the output and the line on standard error. The device is a small one
//! with three sectors: one LUN and three blocks of two pages of one word, unless the row's arguments say otherwise.
use super::session::play;
use std::test::Fail;

// The arguments of the small device.
const SMALL: &str = "--blocks=3 --pages=2 --words=1 --sectors=3 --endurance=10";

// The same with each block erased at most once.
const ONCE: &str = "--blocks=3 --pages=2 --words=1 --sectors=3 --endurance=1";

// The same with four blocks.
const FOUR: &str = "--blocks=4 --pages=2 --words=1 --sectors=3 --endurance=10";

// The same with four blocks in two LUNs.
const TWO_LUNS: &str = "--luns=2 --blocks=4 --pages=2 --words=1 --sectors=3 --endurance=10";

// The same with four sectors, for which it has too few blocks.
const TOO_MANY_SECTORS: &str = "--blocks=3 --pages=2 --words=1 --sectors=4 --endurance=10";

const PLAYED: [(&str, &str, &str); 15] = [
    (SMALL, "", "end,0,0,0\n"),
    (SMALL, "0,read,2,\n", "1,read,2,empty\nend,0,0,0\n"),
    (
        SMALL,
        "0,write,0,41\n0,read,0,\n",
        "1,write,0,empty\n2,read,0,4100000000000000\nend,1,0,0\n",
    ),
    (
        SMALL,
        "0,write,0,\n0,write,1,\n0,write,0,\n0,write,1,\n0,write,2,\n",
        "1,write,0,empty\n2,write,1,empty\n3,write,0,written\n4,write,1,written\n5,write,2,empty\nend,5,0,1\n",
    ),
    (
        SMALL,
        "0,write,0,01\n0,write,1,02\n0,write,2,03\n0,write,0,04\n0,write,2,05\n0,read,1,\n",
        "1,write,0,empty\n2,write,1,empty\n3,write,2,empty\n4,write,0,written\n5,write,2,written\n6,read,1,0200000000000000\nend,5,1,1\n",
    ),
    (
        SMALL,
        "0,write,0,41\n0,trim,0,\n0,trim,0,\n0,read,0,\n",
        "1,write,0,empty\n2,trim,0,written\n3,trim,0,empty\n4,read,0,empty\nend,1,0,0\n",
    ),
    (
        SMALL,
        "0,write,0,\n0,read,0,\n",
        "1,write,0,empty\n2,read,0,0000000000000000\nend,1,0,0\n",
    ),
    (
        SMALL,
        "0,write,0,0102030405060708\n",
        "1,write,0,empty\nend,1,0,0\n",
    ),
    (
        SMALL,
        "0,new,0,41\n0,new,0,42\n0,meet,0,\n0,read,0,\n",
        "1,new,0,empty\n2,new,0,written\n3,meet,0,met\n4,read,0,4100000000000000\nend,1,0,0\n",
    ),
    (
        ONCE,
        "0,write,0,01\n0,write,1,02\n0,write,0,03\n0,write,1,04\n0,write,2,05\n0,write,0,06\n0,write,1,07\n0,read,1,\n",
        "1,write,0,empty\n2,write,1,empty\n3,write,0,written\n4,write,1,written\n5,write,2,empty\n6,write,0,written\n7,write,1,worn\n\
         8,read,1,0400000000000000\nend,6,0,1\n",
    ),
    (
        FOUR,
        "0,write,0,\n0,write,1,\n0,write,2,\n0,write,2,\n0,write,2,\n0,write,2,\n0,write,0,\n",
        "1,write,0,empty\n2,write,1,empty\n3,write,2,empty\n4,write,2,written\n5,write,2,written\n6,write,2,written\n7,write,0,written\nend,7,0,1\n",
    ),
    (
        TWO_LUNS,
        "0,write,0,01\n0,write,1,02\n0,write,1,03\n0,write,2,04\n0,write,2,05\n0,write,2,06\n0,write,1,07\n0,read,0,\n0,read,1,\n0,read,2,\n",
        "1,write,0,empty\n2,write,1,empty\n3,write,1,written\n4,write,2,empty\n5,write,2,written\n6,write,2,written\n7,write,1,written\n\
         8,read,0,0100000000000000\n9,read,1,0700000000000000\n10,read,2,0600000000000000\nend,7,1,1\n",
    ),
    (
        SMALL,
        "0,write,0,01\n0,write,1,02\n0,write,2,03\n0,write,0,04\n0,write,2,05\n0,meet,0,\n0,read,1,\n0,trim,1,\n0,read,1,\n",
        "1,write,0,empty\n2,write,1,empty\n3,write,2,empty\n4,write,0,written\n5,write,2,written\n6,meet,0,met\n7,read,1,0200000000000000\n\
         8,trim,1,written\n9,read,1,empty\nend,5,1,1\n",
    ),
    (SMALL, "007,\"read\",002,", "1,read,2,empty\nend,0,0,0\n"),
    (
        SMALL,
        "0,write,0,aBcD\n0,read,0,",
        "1,write,0,empty\n2,read,0,abcd000000000000\nend,1,0,0\n",
    ),
];

const STOPPED: [(&str, &str, u8, &str); 17] = [
    (SMALL, "0,write,0,41\n0,read,3,\n", 3, "line 2: Sector\n"),
    (SMALL, "0,write,0,010203040506070\n", 3, "line 1: Hex\n"),
    (SMALL, "0,read,2", 3, "line 1: Fields\n"),
    (SMALL, "0,read,2,,", 3, "line 1: Fields\n"),
    (SMALL, "500,read,0,", 3, "line 1: Worker\n"),
    (SMALL, "x,read,0,", 3, "line 1: Worker\n"),
    (SMALL, " 0,read,0,", 3, "line 1: Worker\n"),
    (SMALL, "0,READ,0,", 3, "line 1: Op\n"),
    (SMALL, "0,read,-1,", 3, "line 1: Sector\n"),
    (SMALL, "0,read,3,", 3, "line 1: Sector\n"),
    (SMALL, "0,write,0,4", 3, "line 1: Hex\n"),
    (SMALL, "0,write,0,4g", 3, "line 1: Hex\n"),
    (
        SMALL,
        "0,write,0,010203040506070809",
        3,
        "line 1: TooLong\n",
    ),
    (SMALL, "0,read,0,41", 3, "line 1: Unused\n"),
    (SMALL, "1,meet,0,", 3, "line 1: Unused\n"),
    (SMALL, "0,meet,1,", 3, "line 1: Unused\n"),
    (TOO_MANY_SECTORS, "no trace", 2, "geometry: TooFewBlocks\n"),
];

#[test]
fn a_trace_is_answered_as_the_rows_say(rt: HostRuntime) -> Result<(), Fail> {
    for (arguments, trace, output) in PLAYED {
        let ended = play(&rt, arguments, trace.as_bytes(), 0)?;
        assert!(rt; ended.is(0, output, ""), "{trace:?}");
    }
    for (arguments, trace, status, errors) in STOPPED {
        let ended = play(&rt, arguments, trace.as_bytes(), 0)?;
        assert!(rt; ended.is(status, "", errors), "{errors:?}");
    }
    Ok(())
}
