//! Each thread of a run asks the gate that has its number: first the workers, then the brooms.
use super::run::{small, tally_of};
use super::shared_text::text_of;
use super::visits::{NO_VISITS, Visits};
use std::test::Fail;
use workers::Tally;

// A write yields at each sixteenth of its tries, so even on a busy machine a broom runs long before the last one.
const PATIENCE: u32 = 10_000_000;

// The visits of the worker of this number: after a look, after a pin, before a place, and after an answer.
fn by_worker(number: usize, [looks, pins, places, answered]: [u64; 4]) -> Visits {
    Visits {
        number,
        looks,
        pins,
        places,
        answered,
        ..NO_VISITS
    }
}

// Three gates that nobody has asked.
fn unasked() -> [Visits; 3] {
    [
        NO_VISITS,
        Visits {
            number: 1,
            ..NO_VISITS
        },
        Visits {
            number: 2,
            ..NO_VISITS
        },
    ]
}

// A trace of three workers without brooms, what it answers, and the visits of each worker's gate.
const ROWS: [(&str, &str, [[u64; 4]; 3]); 4] = [
    ("", "end\n", [[0; 4]; 3]),
    (
        "0,meet,0,\n0,meet,0,\n",
        "1,meet,0,met\n2,meet,0,met\nend\n",
        [[0; 4]; 3],
    ),
    (
        "1,write,0,41\n1,write,0,42\n0,read,1,\n1,read,0,\n",
        "1,write,0,empty\n2,write,0,written\n3,read,1,empty\n4,read,0,4200000000000000\nend\n",
        [[1, 0, 0, 1], [1, 1, 2, 3], [0; 4]],
    ),
    (
        "2,new,0,41\n2,new,0,42\n1,trim,1,\n0,meet,0,\n0,read,0,\n1,read,0,\n1,read,1,\n",
        "1,new,0,empty\n2,new,0,written\n3,trim,1,empty\n4,meet,0,met\n5,read,0,4100000000000000\n6,read,0,4100000000000000\n7,read,1,empty\nend\n",
        [[1, 1, 0, 1], [2, 1, 0, 3], [0, 0, 2, 2]],
    ),
];

#[test]
fn each_worker_asks_its_own_gate(rt: HostRuntime) -> Result<(), Fail> {
    for (trace, answers, visits) in ROWS {
        let mut gates = unasked();
        let text = text_of(&rt, 6, 3, 0, trace.as_bytes(), 9, &mut gates)?;
        assert!(rt; text.as_slice() == answers.as_bytes(), "{trace:?}");
        let [first, second, third] = visits;
        let wanted = [
            by_worker(0, first),
            by_worker(1, second),
            by_worker(2, third),
        ];
        assert!(rt; gates == wanted, "{:?}", (trace, gates));
    }
    Ok(())
}

// Whether only a worker's points were reached, after so many answers.
fn is_by_worker(visits: &Visits, number: usize, answered: u64) -> bool {
    visits.number == number
        && visits.answered == answered
        && visits.claims == 0
        && visits.moves == 0
        && visits.erases == 0
}

// Whether only a broom's points were reached: those of a drain of a block without a page in use, and of its erase.
fn is_by_broom(visits: &Visits) -> bool {
    visits.number == 2
        && visits.claims > 0
        && visits.erases > 0
        && visits.places == 0
        && visits.pins == 0
        && visits.answered == 0
}

// The device has ten pages, so the writes behind the tenth wait for the broom's erase, however late the broom is. The second worker reads
// once.
#[test]
fn the_broom_asks_the_gate_behind_the_workers(rt: HostRuntime) -> Result<(), Fail> {
    let mut trace = String::new(rt.alloc());
    for _ in 0..13 {
        trace.push_str("0,write,0,41\n")?;
    }
    trace.push_str("1,read,1,\n")?;
    let mut gates = unasked();
    let text = text_of(&rt, 5, 2, 1, trace.as_bytes(), PATIENCE, &mut gates)?;
    let full = text
        .as_slice()
        .windows(4)
        .any(|word| word == b"full".as_slice());
    assert!(rt; !full, "{gates:?}");
    assert!(rt;
        is_by_worker(&gates[0], 0, 13) && gates[0].places >= 13,
        "{gates:?}"
    );
    assert!(rt;
        is_by_worker(&gates[1], 1, 1) && gates[1].looks >= 1 && gates[1].places == 0,
        "{gates:?}"
    );
    assert!(rt; is_by_broom(&gates[2]), "{gates:?}");
    Ok(())
}

// Whether a broom's gate was asked before each of its claims, each move and each erase.
fn is_asked_each_time(visits: &Visits, done: &Tally) -> bool {
    visits.claims == done.drained.wrapping_add(done.lost)
        && visits.moves >= done.moved
        && visits.erases >= done.erased
        && done.drained > 0
        && done.erased > 0
}

// The broom drains up to four blocks by one survey. Most blocks have no page in use when it looks at them.
#[test]
fn each_drain_of_a_run_asks_the_gate_of_its_broom(rt: HostRuntime) -> Result<(), Fail> {
    let mut trace = String::new(rt.alloc());
    for _ in 0..500 {
        trace.push_str("0,write,0,41\n")?;
    }
    let mut gates = [
        NO_VISITS,
        Visits {
            number: 1,
            ..NO_VISITS
        },
    ];
    let geometry = small(24, 1, 1)?;
    let done = tally_of(&rt, &geometry, trace.as_bytes(), PATIENCE, &mut gates)?;
    let done = done.ok_or("no broom")?;
    assert!(rt; is_asked_each_time(&gates[1], &done), "{:?}", (gates, done));
    Ok(())
}
