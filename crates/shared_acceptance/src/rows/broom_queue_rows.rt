//! Brooms that put drained blocks into the queue and erase those that they take from it, while two hosts make calls.
use crate::actors::calls::{Call, Done, EMPTY, FULL, WRITTEN};
use crate::actors::idle_actors::Who;
use crate::rows::playing_rows::{Row, check_rows};
use crate::rows::row_calls::{ONCE, ONE_BROOM, TWICE, TWO_BROOMS, drained, erased, rows};
use crate::schedules::schedule::{ExpectedCall, Step};
use broom::{Drain, Erase};
use std::test::Fail;

const DRAINS_ZERO: ExpectedCall = drained!(Call::DrainOne, 0, 0);

const DRAINS_ONE: ExpectedCall = drained!(Call::DrainOne, 1, 0);

const DRAINS_TWO: ExpectedCall = drained!(Call::DrainOne, 2, 0);

const ERASES_ZERO: ExpectedCall = erased!(Call::EraseOne, 0, false);

const ERASES_ONE: ExpectedCall = erased!(Call::EraseOne, 1, false);

const ERASES_TWO: ExpectedCall = erased!(Call::EraseOne, 2, false);

const RETIRES_ZERO: ExpectedCall = (Call::EraseOne, Done::Erased(Erase::Retired { block: 0 }));

const RETIRES_ONE: ExpectedCall = (Call::EraseOne, Done::Erased(Erase::Retired { block: 1 }));

const RETIRES_TWO: ExpectedCall = (Call::EraseOne, Done::Erased(Erase::Retired { block: 2 }));

const NOTHING: ExpectedCall = (Call::DrainOne, Done::Drained(Drain::NothingToGain));

const PINNED: ExpectedCall = (Call::EraseOne, Done::Erased(Erase::Pinned));

const STALE: ExpectedCall = (Call::EraseOne, Done::Erased(Erase::Stale));

// A page of block 0 is held when the block is drained and can't be erased, and then these steps are made.
macro_rules! held_and_drained {
    ($($step:expr),* $(,)?) => {
        [
            Step::By(Who::A, (Call::Write(0, 1), EMPTY)),
            Step::By(Who::A, (Call::Write(1, 2), EMPTY)),
            Step::By(Who::B, (Call::Hold(0), Done::Holds(Some((0, 0))))),
            Step::By(Who::A, (Call::Write(0, 3), WRITTEN)),
            Step::By(Who::A, (Call::Write(1, 4), WRITTEN)),
            Step::By(Who::First, DRAINS_ZERO),
            Step::By(Who::First, PINNED),
            $($step),*
        ]
    };
}

// The block is put back until it is released. The broom makes a `stand` with the hold, and the last page that is held is this one.
macro_rules! released_and_erased {
    ($erases:expr, $page:expr) => {
        held_and_drained![
            Step::Meet(Who::B, Who::First),
            Step::By(Who::B, (Call::Look, Done::Looked(1))),
            Step::By(Who::B, (Call::Release, Done::Released)),
            Step::By(Who::First, $erases),
            Step::By(
                Who::First,
                (Call::EraseOne, Done::Erased(Erase::QueueEmpty)),
            ),
            Step::By(Who::A, (Call::Write(0, 5), WRITTEN)),
            Step::By(Who::A, (Call::Hold(0), Done::Holds(Some($page)))),
        ]
    };
}

const PUTS_A_HELD_BLOCK_BACK: [Step; 14] = released_and_erased!(ERASES_ZERO, (0, 1));

const RETIRES_A_HELD_BLOCK: [Step; 14] = released_and_erased!(RETIRES_ZERO, (2, 0));

// Block 0 isn't erased, and the others wear out: a host fills one with these two values, and the broom drains and erases another.
macro_rules! worn_beside_a_hold {
    ($(($first:literal, $second:literal, $drains:expr, $erases:expr)),*; $($step:expr),* $(,)?) => {
        held_and_drained![
            Step::By(Who::First, PINNED),
            Step::Meet(Who::B, Who::First),
            Step::By(Who::B, (Call::Look, Done::Looked(1))),
            $(
                Step::By(Who::A, (Call::Write(0, $first), WRITTEN)),
                Step::By(Who::A, (Call::Write(1, $second), WRITTEN)),
                Step::By(Who::First, $drains),
                Step::By(Who::First, PINNED),
                Step::By(Who::First, $erases),
                Step::Meet(Who::B, Who::First),
                Step::By(Who::B, (Call::Look, Done::Looked(1))),
            )*
            $($step),*
        ]
    };
}

const HOLDS_WHILE_OTHERS_WEAR_OUT: [Step; 46] = worn_beside_a_hold![
    (5, 6, DRAINS_ONE, ERASES_ONE),
    (7, 8, DRAINS_TWO, ERASES_TWO),
    (9, 10, DRAINS_ONE, RETIRES_ONE),
    (11, 12, DRAINS_TWO, RETIRES_TWO);
    Step::By(Who::A, (Call::Write(0, 13), FULL)),
    Step::By(Who::First, NOTHING),
    Step::By(Who::A, (Call::Read(0), Done::Read(Some(11), 1))),
    Step::By(Who::A, (Call::Read(1), Done::Read(Some(12), 1))),
    Step::By(Who::B, (Call::Look, Done::Looked(1))),
    Step::By(Who::B, (Call::Release, Done::Released)),
    Step::By(Who::First, ERASES_ZERO),
    Step::By(Who::A, (Call::Write(0, 13), WRITTEN)),
];

const FREES_ZERO: ExpectedCall = erased!(Call::Erase(0), 0, false);

const FREES_ONE: ExpectedCall = erased!(Call::Erase(1), 1, false);

// A host fills a block before each drain of the second broom, which then erases the block, and these steps are made.
macro_rules! filled_and_freed {
    ($(($drains:expr, $frees:expr)),*; $($step:expr),* $(,)?) => {
        [
            Step::By(Who::A, (Call::Write(0, 1), EMPTY)),
            Step::By(Who::A, (Call::Write(1, 2), EMPTY)),
            $(
                Step::By(Who::A, (Call::Write(0, 3), WRITTEN)),
                Step::By(Who::A, (Call::Write(1, 4), WRITTEN)),
                Step::By(Who::Second, $drains),
                Step::By(Who::Second, $frees),
            )*
            $($step),*
        ]
    };
}

// The second broom fills the queue, and erases the blocks that aren't in it.
const SETS_A_BLOCK_ASIDE: [Step; 38] = filled_and_freed![
    (DRAINS_ZERO, FREES_ZERO),
    (DRAINS_ONE, FREES_ONE),
    (DRAINS_ZERO, FREES_ZERO),
    (DRAINS_ONE, FREES_ONE),
    (DRAINS_ZERO, FREES_ZERO),
    (DRAINS_ONE, FREES_ONE),
    (DRAINS_ZERO, FREES_ZERO);
    Step::By(Who::A, (Call::Write(0, 5), WRITTEN)),
    Step::By(Who::A, (Call::Write(1, 6), WRITTEN)),
    Step::By(Who::First, DRAINS_ONE),
    Step::By(
        Who::First,
        (Call::DrainOne, Done::Drained(Drain::QueueFull)),
    ),
    Step::By(Who::First, ERASES_ONE),
    Step::By(Who::First, NOTHING),
    Step::By(Who::First, STALE),
    Step::By(Who::First, STALE),
];

#[test]
fn brooms_with_a_queue_answer_as_the_rows_say(rt: HostRuntime) -> Result<(), Fail> {
    let rows = rows! {
        "a held block is put back until it is released": ONE_BROOM PUTS_A_HELD_BLOCK_BACK beside [], leaves [5, 4];
        "a held block is retired once it is released": ONCE RETIRES_A_HELD_BLOCK beside [], leaves [5, 4];
        "a hold that is not released keeps its block while others wear out":
            TWICE HOLDS_WHILE_OTHERS_WEAR_OUT beside [], leaves [13, 12];
        "a block for which the queue has no room is set aside": TWO_BROOMS SETS_A_BLOCK_ASIDE beside [], leaves [5, 6];
    };
    check_rows(&rt, &rows)
}
