//! The text of each fault, as it is printed.
use ftl_one::{NewOneFault, WornOut};
use host::{NewFault, NoBlock};
use player::{GeometryFault, RunFault, TraceFault, TraceFaultKind};
use std::alloc::{AllocError, Global};
use std::fmt::Display;
use std::test::Fail;
use uses::NotStored;
use workers::RoundFault;

// Faults of a kind, each with its text.
macro_rules! texts {
    ($kind:ident: $($fault:ident prints $text:literal),* $(,)?) => {
        [$(($kind::$fault, $text)),*]
    };
}

const OF_GEOMETRY: [(GeometryFault, &str); 9] = texts![
    GeometryFault: Luns prints "Luns", Blocks prints "Blocks", Pages prints "Pages", Words prints "Words", Sectors prints "Sectors",
    Endurance prints "Endurance", Passes prints "Passes", TooManyWords prints "TooManyWords", TooFewBlocks prints "TooFewBlocks",
];

const OF_TRACES: [(TraceFaultKind, &str); 10] = texts![
    TraceFaultKind: Fields prints "Fields", Worker prints "Worker", Op prints "Op", Sector prints "Sector", Hex prints "Hex",
    TooLong prints "TooLong", Unused prints "Unused", Read prints "Read", Memory prints "Memory", Big prints "Big",
];

const OF_LINE_TWO: TraceFault = TraceFault {
    line: 2,
    kind: TraceFaultKind::Sector,
};

const OF_RUNS: [(RunFault, &str); 4] = [
    (RunFault::Trace(OF_LINE_TWO), "line 2: Sector"),
    (RunFault::Memory, "memory: refused"),
    (RunFault::Threads, "threads: refused"),
    (RunFault::Output, "output: failed"),
];

const OF_ROUNDS: [(RoundFault, &str); 2] = [
    (RoundFault::Memory, "memory: refused"),
    (RoundFault::Threads, "threads: refused"),
];

const OF_NEW: [(NewFault, &str); 2] = [
    (NewFault::NoBlock, "every block is taken"),
    (NewFault::Written, "the sector is written"),
];

const OF_NEW_ONE: [(NewOneFault, &str); 2] = [
    (NewOneFault::WornOut, "no page is left to write"),
    (NewOneFault::Written, "the sector is written"),
];

const OF_STORING: [(NotStored, &str); 2] = [
    (NotStored::Memory(AllocError), "out of memory"),
    (NotStored::WornOut(WornOut), "no page is left to write"),
];

// Whether each of these faults is printed as the text beside it.
fn print<F: Display>(alloc: Global, faults: &[(F, &str)]) -> Result<bool, Fail> {
    for (fault, text) in faults {
        if format!(in alloc; "{fault}")?.as_str() != *text {
            return Ok(false);
        }
    }
    Ok(true)
}

#[test]
fn each_fault_prints_its_text(rt: HostRuntime) -> Result<(), Fail> {
    let alloc = rt.alloc();
    assert!(rt; print(alloc, &OF_GEOMETRY)?, "geometry");
    assert!(rt; print(alloc, &OF_TRACES)?, "traces");
    assert!(rt;
        print(alloc, &[(OF_LINE_TWO, "line 2: Sector")])?,
        "a trace"
    );
    assert!(rt; print(alloc, &OF_RUNS)?, "runs");
    assert!(rt; print(alloc, &OF_ROUNDS)?, "rounds");
    assert!(rt; print(alloc, &OF_NEW)?, "writes of an empty sector");
    assert!(rt; print(alloc, &OF_NEW_ONE)?, "the same by one thread");
    assert!(rt; print(alloc, &OF_STORING)?, "storing");
    assert!(rt;
        print(alloc, &[(WornOut, "no page is left to write")])?,
        "writes by one thread"
    );
    assert!(rt;
        print(alloc, &[(NoBlock, "every block is taken")])?,
        "writes"
    );
    Ok(())
}
