//! Plays a trace, and returns its answers as text.
use answers::read_commands;
use flash_table::{Gate, NoGate};
use geometry::Geometry;
use rounds::{Answer, Answers, Cursor, Kind};
use std::alloc::Global;
use std::process::Abort;
use std::sync::{Arc, Wait};
use std::test::Fail;
use std::thread::Threads;
use std::time::Clock;
use trace::Watched;
use workers::{RunEnd, Tally, play_commands};

// How many blocks a broom drains by one survey.
const DRAINS: u32 = 4;

/// A device of this many blocks of two pages of one word, with two sectors.
pub(crate) fn small(blocks: u32, hosts: u32, brooms: u32) -> Result<Geometry, Fail> {
    Ok(Geometry::new(1, blocks, 2, 1, 2, 1000, hosts, brooms)?)
}

// A row's answers, each with its page.
fn listed(alloc: Global, row: &Answers) -> Result<Vec<Answer>, Fail> {
    let mut cursor = Cursor::new();
    let mut answers = Vec::new(alloc);
    for _ in 0..row.len() {
        let (kind, found) = row.next(&mut cursor);
        let page = Vec::from_slice(alloc, found)?;
        answers.push(Answer { kind, page })?;
    }
    Ok(answers)
}

/// Plays a trace, with these gates.
fn play_all<R: Threads + Wait + Clock + Sync + Abort + AllocGlobal, G: Gate + Send>(
    rt: &R,
    geometry: &Geometry,
    trace: &[u8],
    patience: u32,
    gates: &mut [G],
) -> Result<RunEnd, Fail> {
    let commands = read_commands(rt.alloc(), &mut Watched::new(trace), geometry)?;
    let Ok(commands) = Arc::new(rt.alloc(), commands) else {
        panic!(rt; "memory")
    };
    assert!(rt; geometry.hosts() > 0);
    assert!(rt; gates.len() == geometry.hosts() as usize + geometry.brooms() as usize);
    let end = play_commands(rt, rt.alloc(), geometry, &commands, patience, DRAINS, gates)?;
    Ok(end)
}

/// The answers of the workers to a trace, with these gates.
fn play<R: Threads + Wait + Clock + Sync + Abort + AllocGlobal, G: Gate + Send>(
    rt: &R,
    geometry: &Geometry,
    trace: &[u8],
    patience: u32,
    gates: &mut [G],
) -> Result<Vec<Vec<Answer>>, Fail> {
    let RunEnd { rows, brooms: _ } = play_all(rt, geometry, trace, patience, gates)?;
    let mut answers = Vec::new(rt.alloc());
    for row in &rows {
        answers.push(listed(rt.alloc(), row)?)?;
    }
    Ok(answers)
}

/// What the first broom has done beside the workers of a trace, if there is one, with these gates.
pub(crate) fn tally_of<R: Threads + Wait + Clock + Sync + Abort + AllocGlobal, G: Gate + Send>(
    rt: &R,
    geometry: &Geometry,
    trace: &[u8],
    patience: u32,
    gates: &mut [G],
) -> Result<Option<Tally>, Fail> {
    let RunEnd { rows: _, brooms } = play_all(rt, geometry, trace, patience, gates)?;
    for broom in &brooms {
        return Ok(Some(broom.tally));
    }
    Ok(None)
}

/// Plays a trace with gates that do nothing.
pub(crate) fn play_freely<R: Threads + Wait + Clock + Sync + Abort + AllocGlobal>(
    rt: &R,
    geometry: &Geometry,
    trace: &[u8],
    patience: u32,
) -> Result<Vec<Vec<Answer>>, Fail> {
    let count = geometry.hosts() as usize + geometry.brooms() as usize;
    let mut gates = vec![in rt.alloc(); NoGate; count]?;
    play(rt, geometry, trace, patience, &mut gates)
}

// Adds a word for an answer: that of a page is its first byte, which is a letter.
fn push_word(text: &mut String, answer: &Answer) -> Result<(), Fail> {
    match answer.kind {
        Kind::Empty => text.push_str("empty ")?,
        Kind::Written => text.push_str("written ")?,
        Kind::Met => text.push_str("met ")?,
        Kind::Full => text.push_str("full ")?,
        Kind::Page => {
            for byte in answer.page.iter().take(1) {
                text.push(char::from(*byte))?;
            }
            text.push_str(" ")?;
        }
    }
    Ok(())
}

/// The answers of the workers: a word for each line, and a bar after each worker's.
pub(crate) fn answer_words(alloc: Global, rows: &[Vec<Answer>]) -> Result<String, Fail> {
    let mut text = String::new(alloc);
    for row in rows {
        for answer in row {
            push_word(&mut text, answer)?;
        }
        text.push_str("| ")?;
    }
    Ok(text)
}

/// The answers of the workers, with gates that do nothing.
pub(crate) fn answers_of<R: Threads + Wait + Clock + Sync + Abort + AllocGlobal>(
    rt: &R,
    geometry: &Geometry,
    trace: &[u8],
    patience: u32,
) -> Result<String, Fail> {
    let rows = play_freely(rt, geometry, trace, patience)?;
    answer_words(rt.alloc(), &rows)
}
