//! Workers run at the same time.
use super::shared_text::text_of;
use flash_table::{Gate, Point};
use std::sync::atomic::{AtomicBool, Ordering};
use std::test::Fail;

const TURNS: u32 = 200000000;

// At its first pin the worker sets its flag, and waits until it sees the other's, for at most this many turns. A broom pins nothing.
#[derive(Drop)]
struct Waiting<'a> {
    own: &'a AtomicBool,
    other: &'a AtomicBool,
    seen: bool,
}

impl Gate for Waiting<'_> {
    fn at(&mut self, point: Point) {
        if point != Point::AfterPin || self.seen {
            return;
        }
        self.own.store(true, Ordering::SeqCst);
        for _ in 0..TURNS {
            if self.other.load(Ordering::SeqCst) {
                self.seen = true;
                return;
            }
        }
    }
}

// The gate of a thread with these flags.
fn gate_with<'a>(own: &'a AtomicBool, other: &'a AtomicBool) -> Waiting<'a> {
    Waiting {
        own,
        other,
        seen: false,
    }
}

const TRACE: &str = "0,write,0,01\n1,write,1,02\n0,meet,0,\n0,read,0,\n1,read,1,\n";

const ANSWERS: &str =
    "1,write,0,empty\n2,write,1,empty\n3,meet,0,met\n4,read,0,0100000000000000\n5,read,1,0200000000000000\nend\n";

// Workers that run one after the other don't see each other's flags, with a broom or without one. Five blocks are the least for two workers and
// a broom.
#[test]
fn two_workers_wait_for_each_other(rt: HostRuntime) -> Result<(), Fail> {
    for (blocks, brooms) in [(5, 0), (5, 1), (6, 0), (6, 1)] {
        let first = AtomicBool::new(false);
        let second = AtomicBool::new(false);
        let third = AtomicBool::new(false);
        let mut gates = [
            gate_with(&first, &second),
            gate_with(&second, &first),
            gate_with(&third, &third),
        ];
        let (used, _) = gates.split_at_mut(2 + brooms as usize);
        let text = text_of(&rt, blocks, 2, brooms, TRACE.as_bytes(), 9, used)?;
        let seen = [gates[0].seen, gates[1].seen, gates[2].seen];
        assert!(rt; seen == [true, true, false], "{:?}", (blocks, brooms, seen));
        assert!(rt;
            text.as_slice() == ANSWERS.as_bytes(),
            "{blocks:?} {brooms:?}"
        );
    }
    Ok(())
}
