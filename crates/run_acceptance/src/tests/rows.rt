//! Rows whose answers are the same in every schedule, and a trace whose answers are not.
use super::run::{answers_of, play_freely, small};
use super::shared_text::text_of;
use flash_table::NoGate;
use rounds::{Answer, Kind};
use std::test::Fail;

// Hosts, brooms, blocks, tries of a write; a trace, and the answers of its workers.
const ROWS: [(u32, u32, u32, u32, &str, &str); 9] = [
    (2, 1, 6, 1000000, "", "| | "),
    (
        1,
        0,
        5,
        9,
        "0,write,0,41\n0,read,0,\n0,trim,0,\n0,read,0,\n",
        "empty A written empty | ",
    ),
    (
        2,
        1,
        6,
        1000000,
        "0,write,0,41\n1,write,1,42\n0,meet,0,\n0,read,0,\n1,read,1,\n",
        "empty A | empty B | ",
    ),
    (
        2,
        0,
        5,
        9,
        "0,write,0,41\n0,meet,0,\n0,read,0,\n1,read,0,\n",
        "empty A | A | ",
    ),
    (
        3,
        1,
        6,
        1000000,
        "2,write,1,43\n0,read,0,\n2,new,1,44\n",
        "empty | | empty written | ",
    ),
    (
        2,
        1,
        6,
        1000000,
        "0,meet,0,\n0,write,0,41\n0,meet,0,\n0,meet,0,\n1,read,0,\n0,meet,0,\n",
        "empty | A | ",
    ),
    (
        2,
        32,
        67,
        1000000,
        "0,write,0,41\n1,write,1,42\n0,meet,0,\n1,read,0,\n0,read,1,\n",
        "empty B | empty A | ",
    ),
    (
        2,
        0,
        3,
        3,
        "0,write,0,41\n0,write,0,41\n0,write,0,41\n0,write,0,41\n0,write,0,41\n0,write,0,41\n0,write,0,41\n",
        "empty written written written written written full | | ",
    ),
    (
        2,
        1,
        6,
        1000000,
        "1,write,1,42\n1,write,1,43\n1,read,1,\n0,write,0,41\n0,meet,0,\n0,write,1,44\n1,read,0,\n0,meet,0,\n1,read,1,\n",
        "empty written | empty written C A D | ",
    ),
];

#[test]
fn workers_answer_as_one_thread_would(rt: HostRuntime) -> Result<(), Fail> {
    for (hosts, brooms, blocks, patience, trace, answers) in ROWS {
        let geometry = small(blocks, hosts, brooms)?;
        let text = answers_of(&rt, &geometry, trace.as_bytes(), patience)?;
        assert!(rt; text.as_str() == answers, "{trace:?}");
    }
    Ok(())
}

// Whether a read found the page of a write.
fn is_written(answer: &Answer) -> bool {
    match answer.kind {
        Kind::Page => answer.page.as_slice() == b"A\0\0\0\0\0\0\0".as_slice()
            || answer.page.as_slice() == b"B\0\0\0\0\0\0\0".as_slice(),
        _ => answer.page.is_empty(),
    }
}

// This text, repeated this many times.
fn repeated(rt: &impl AllocGlobal, lines: &str, times: u32) -> Result<String, Fail> {
    let mut trace = String::new(rt.alloc());
    for _ in 0..times {
        trace.push_str(lines)?;
    }
    Ok(trace)
}

// Both workers write and read the same sector in one round.
#[test]
fn each_read_finds_a_value_that_was_written(rt: HostRuntime) -> Result<(), Fail> {
    let lines = "0,write,0,41\n1,write,0,42\n0,read,0,\n1,read,0,\n";
    let trace = repeated(&rt, lines, 40)?;
    let rows = play_freely(&rt, &small(8, 2, 1)?, trace.as_bytes(), 1000000)?;
    for row in &rows {
        assert!(rt; row.len() == 80 && row.iter().all(is_written));
    }
    Ok(())
}

// The second of these three rounds isn't disjoint. The schedule decides which of its two writes is later, and all workers read that one in
// the third round.
#[test]
fn a_later_round_reads_what_an_earlier_one_left(rt: HostRuntime) -> Result<(), Fail> {
    let trace =
        b"0,write,0,41\n0,meet,0,\n0,write,0,42\n1,write,0,43\n0,meet,0,\n0,read,0,\n1,read,0,\n2,read,0,\n".as_slice();
    for _ in 0..40 {
        let answer_words = answers_of(&rt, &small(8, 3, 1)?, trace, 1000000)?;
        let first = answer_words.as_str() == "empty written C | written C | C | ";
        let second = answer_words.as_str() == "empty written B | written B | B | ";
        assert!(rt; first || second, "{answer_words:?}");
    }
    Ok(())
}

// There are ten pages, so a block was erased and used again if eleven lines or more were done.
#[test]
fn a_broom_frees_blocks_for_a_worker(rt: HostRuntime) -> Result<(), Fail> {
    let trace = repeated(&rt, "0,write,0,01\n", 100)?;
    let mut gates = [NoGate; 2];
    let text = text_of(&rt, 5, 1, 1, trace.as_bytes(), 10_000_000, &mut gates)?;
    let lines = text.as_slice().split(|byte| *byte == b'\n');
    let done = lines
        .filter(|line| line.ends_with(b",empty") || line.ends_with(b",written"))
        .count();
    assert!(rt; done >= 11, "{done:?}");
    Ok(())
}
