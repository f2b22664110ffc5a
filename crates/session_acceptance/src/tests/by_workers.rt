//! Sessions by workers, with the same answers in every schedule.
use super::session::play;
use std::process::Abort;
use std::sync::Wait;
use std::test::Fail;
use std::thread::Threads;
use std::time::Clock;

// Two workers write, meet, and read what the other one wrote; with a broom beside them and without one.
const MEETING: &str = "0,write,0,01\n1,write,1,02\n0,meet,0,\n0,read,1,\n1,read,0,\n";

const MET: &str =
    "1,write,0,empty\n2,write,1,empty\n3,meet,0,met\n4,read,1,0200000000000000\n5,read,0,0100000000000000\nend\n";

// Three blocks of two pages have room for six writes.
const FULL: &str =
    "0,write,0,01\n0,write,0,01\n0,write,0,01\n0,write,0,01\n0,write,0,01\n0,write,0,01\n0,write,0,01\n";

const FILLED: &str =
    "1,write,0,empty\n2,write,0,written\n3,write,0,written\n4,write,0,written\n5,write,0,written\n6,write,0,written\n7,write,0,full\nend\n";

// The arguments of a device, a trace, the output, and what the log of the brooms holds.
const ROWS: [(&str, &str, &str, &str); 5] = [
    (
        "--workers=2 --blocks=5 --pages=2 --words=1 --sectors=2",
        MEETING,
        MET,
        "",
    ),
    (
        "--workers=2 --brooms=1 --blocks=5 --pages=2 --words=1 --sectors=2",
        MEETING,
        MET,
        "",
    ),
    (
        "--workers=2 --blocks=3 --pages=2 --words=1 --sectors=2 --patience=3",
        FULL,
        FILLED,
        "",
    ),
    (
        "--workers=3 --blocks=5 --pages=2 --words=1 --sectors=2 --collections=log.csv",
        "2,read,1,\n",
        "1,read,1,empty\nend\n",
        "log.csv\nbroom,drained,moved,programmed,erased,kept,retired,lost,pinned,stale,idle\n",
    ),
    (
        "--workers=1 --brooms=2 --blocks=6 --pages=2 --words=1 --sectors=2 --collections=log.csv",
        "0,meet,0,\n0,meet,0,\n",
        "1,meet,0,met\n2,meet,0,met\nend\n",
        "log.csv\nbroom,drained,moved,programmed,erased,kept,retired,lost,pinned,stale,idle\n0,0,0,0,0,0,0,0,0,0,0\n1,0,0,0,0,0,0,0,0,0,0\n",
    ),
];

#[test]
fn workers_answer_as_the_rows_say(rt: HostRuntime) -> Result<(), Fail> {
    for (arguments, trace, output, log) in ROWS {
        let ended = play(&rt, arguments, trace.as_bytes(), 1000)?;
        let is_logged = ended.collections.holds(log);
        assert!(rt; ended.is(0, output, "") && is_logged, "{arguments:?}");
    }
    Ok(())
}

// A run of this many workers, each of which reads an empty sector, and one without a line. Neither may say that memory or a thread was refused.
fn check_number<R: Threads + Wait + Clock + Sync + Abort + AllocGlobal>(
    rt: &R,
    workers: u64,
    brooms: u64,
) -> Result<(), Fail> {
    let alloc = rt.alloc();
    let mut trace = String::new(alloc);
    let mut output = String::new(alloc);
    for worker in 0..workers {
        trace.push_str(format!(in alloc; "{worker},read,0,\n")?.as_str())?;
        output.push_str(format!(in alloc; "{},read,0,empty\n", worker + 1)?.as_str())?;
    }
    output.push_str("end\n")?;
    let blocks = workers
        .saturating_add(brooms.saturating_mul(2))
        .saturating_add(2);
    let arguments = format!(in alloc;
        "--workers={workers} --brooms={brooms} --blocks={blocks} --pages=2 --words=1 --sectors=2"
    )?;
    let played = play(rt, arguments.as_str(), trace.as_bytes(), 0)?;
    assert!(rt; played.is(0, output.as_str(), ""), "{arguments:?}");
    let empty = play(rt, arguments.as_str(), b"".as_slice(), 0)?;
    assert!(rt; empty.is(0, "end\n", ""), "{arguments:?}");
    Ok(())
}

#[test]
fn any_number_of_workers_plays_a_trace_and_an_empty_one(rt: HostRuntime) -> Result<(), Fail> {
    for brooms in [0, 1, 3] {
        for workers in 1..17 {
            check_number(&rt, workers, brooms)?;
        }
        for workers in [32, 33, 100, 256, 500] {
            check_number(&rt, workers, brooms)?;
        }
    }
    Ok(())
}
