//! Brooms that drain again with their last survey, and brooms that have lost their spare, while two hosts make calls.
use crate::actors::calls::{Call, Done, EMPTY, FULL, TRIMMED, WRITTEN};
use crate::actors::idle_actors::Who;
use crate::rows::playing_rows::{Row, check_rows};
use crate::rows::row_calls::{ONCE, ONE_BROOM, TWICE, TWO_BROOMS, drained, erased, rows};
use crate::schedules::schedule::{ExpectedCall, Step};
use broom::{Drain, Erase};
use flash_table::Point;
use std::test::Fail;

const DRAINS_ONE: ExpectedCall = drained!(Call::Drain, 1, 0);

const DRAINS_NEXT_ZERO_BY_MOVES: ExpectedCall = drained!(Call::DrainNext, 0, 1);

const NO_SPARE_FOR_NEXT: ExpectedCall = (Call::DrainNext, Done::Drained(Drain::NoSpare));

const DRAINS_NEXT_ZERO: ExpectedCall = drained!(Call::DrainNext, 0, 0);

const DRAINS_NEXT_TWO_BY_MOVES: ExpectedCall = drained!(Call::DrainNext, 2, 1);

const KEEPS_ZERO: ExpectedCall = erased!(Call::Erase(0), 0, true);

const DRAINS_NEXT_TWO: ExpectedCall = drained!(Call::DrainNext, 2, 0);

const DRAINS_ZERO_BY_MOVES: ExpectedCall = drained!(Call::Drain, 0, 1);

const LOSES_NEXT: ExpectedCall = (Call::DrainNext, Done::Drained(Drain::Lost));

const FREES_ZERO: ExpectedCall = erased!(Call::Erase(0), 0, false);

const FREES_ONE: ExpectedCall = erased!(Call::Erase(1), 1, false);

const NOTHING_NEXT: ExpectedCall = (Call::DrainNext, Done::Drained(Drain::NothingToGain));

const NOTHING: ExpectedCall = (Call::Drain, Done::Drained(Drain::NothingToGain));

const HAS_SPARE: ExpectedCall = (Call::Restock, Done::Restocked(true));

const RETIRES_ZERO: ExpectedCall = (Call::Erase(0), Done::Erased(Erase::Retired { block: 0 }));

const NO_SPARE: ExpectedCall = (Call::Drain, Done::Drained(Drain::NoSpare));

const DRAINS_ONE_BY_MOVES: ExpectedCall = drained!(Call::Drain, 1, 1);

const RETIRES_ONE: ExpectedCall = (Call::Erase(1), Done::Erased(Erase::Retired { block: 1 }));

const DRAINS_THREE_BY_MOVES: ExpectedCall = drained!(Call::Drain, 3, 1);

const RETIRES_THREE: ExpectedCall = (Call::Erase(3), Done::Erased(Erase::Retired { block: 3 }));

const FINDS_NO_SPARE: ExpectedCall = (Call::Restock, Done::Restocked(false));

const DRAINS_TWO_BY_MOVES: ExpectedCall = drained!(Call::Drain, 2, 1);

const KEEPS_TWO: ExpectedCall = erased!(Call::Erase(2), 2, true);

const DRAINS_FOUR_BY_MOVES: ExpectedCall = drained!(Call::Drain, 4, 1);

const FREES_FOUR: ExpectedCall = erased!(Call::Erase(4), 4, false);

const RETIRES_TWO: ExpectedCall = (Call::Erase(2), Done::Erased(Erase::Retired { block: 2 }));

const NOTHING_DEAD: ExpectedCall = (Call::DrainDead, Done::Drained(Drain::NothingToGain));

const FINDS_A_LIVE_PAGE: ExpectedCall = (Call::DrainDead, Done::Drained(Drain::NoSpare));

const DRAINS_DEAD_ONE: ExpectedCall = drained!(Call::DrainDead, 1, 0);

const DRAINS_DEAD_TWO: ExpectedCall = drained!(Call::DrainDead, 2, 0);

const NO_SPARE_FOR_ONE: ExpectedCall = (Call::DrainOne, Done::Drained(Drain::NoSpare));

const NOTHING_TO_ERASE: ExpectedCall = (Call::EraseOne, Done::Erased(Erase::QueueEmpty));

const QUEUES_DEAD_TWO: ExpectedCall = drained!(Call::DrainDeadOne, 2, 0);

const KEEPS_TWO_OF_QUEUE: ExpectedCall = erased!(Call::EraseOne, 2, true);

const QUEUES_THREE: ExpectedCall = drained!(Call::DrainOne, 3, 0);

const FREES_THREE_OF_QUEUE: ExpectedCall = erased!(Call::EraseOne, 3, false);

// A host fills blocks 0, 1 and 2, and then these steps are made. In block 0 the page of sector 1 is live, in block 1 none, and in block 2
// that of sector 0.
macro_rules! three_filled {
    ($($step:expr),* $(,)?) => {
        [
            Step::By(Who::A, (Call::Write(0, 1), EMPTY)),
            Step::By(Who::A, (Call::Write(1, 2), EMPTY)),
            Step::By(Who::A, (Call::Write(0, 3), WRITTEN)),
            Step::By(Who::A, (Call::Write(0, 4), WRITTEN)),
            Step::By(Who::A, (Call::Write(0, 5), WRITTEN)),
            Step::By(Who::A, (Call::Write(0, 6), WRITTEN)),
            $($step),*
        ]
    };
}

const GOES_ON: [Step; 9] = three_filled![
    Step::By(Who::First, DRAINS_ONE),
    Step::By(Who::First, DRAINS_NEXT_ZERO_BY_MOVES),
    Step::By(Who::First, NO_SPARE_FOR_NEXT),
];

const GOES_ON_PAST_A_TRIM: [Step; 10] = three_filled![
    Step::By(Who::First, DRAINS_ONE),
    Step::By(Who::A, (Call::Trim(1), TRIMMED)),
    Step::By(Who::First, DRAINS_NEXT_ZERO),
    Step::By(Who::First, DRAINS_NEXT_TWO_BY_MOVES),
];

const GOES_ON_PAST_A_WRITE: [Step; 12] = three_filled![
    Step::By(Who::First, DRAINS_ONE),
    Step::By(Who::A, (Call::Write(0, 7), WRITTEN)),
    Step::By(Who::First, DRAINS_NEXT_ZERO_BY_MOVES),
    Step::By(Who::A, (Call::Write(1, 8), WRITTEN)),
    Step::By(Who::First, KEEPS_ZERO),
    Step::By(Who::First, DRAINS_NEXT_TWO),
];

const LOSES_A_BLOCK: [Step; 11] = three_filled![
    Step::By(Who::First, DRAINS_ONE),
    Step::By(Who::Second, DRAINS_ZERO_BY_MOVES),
    Step::By(Who::First, LOSES_NEXT),
    Step::By(Who::First, DRAINS_NEXT_TWO_BY_MOVES),
    Step::Meet(Who::First, Who::Second),
];

// The second broom drains a block that the first one has marked, and the first one erases it.
const ERASES_BETWEEN: [Step; 10] = three_filled![
    Step::By(Who::First, DRAINS_ONE),
    Step::By(Who::Second, DRAINS_ZERO_BY_MOVES),
    Step::By(Who::First, FREES_ZERO),
    Step::By(Who::First, DRAINS_NEXT_TWO_BY_MOVES),
];

const ERASES_ITS_OWN: [Step; 12] = three_filled![
    Step::By(Who::First, DRAINS_ONE),
    Step::By(Who::First, FREES_ONE),
    Step::By(Who::A, (Call::Write(0, 7), WRITTEN)),
    Step::By(Who::A, (Call::Write(0, 8), WRITTEN)),
    Step::By(Who::First, DRAINS_NEXT_ZERO_BY_MOVES),
    Step::By(Who::First, NO_SPARE_FOR_NEXT),
];

const HAS_NO_SURVEY: [Step; 14] = three_filled![
    Step::By(Who::First, NOTHING_NEXT),
    Step::By(Who::First, DRAINS_ONE),
    Step::By(Who::A, (Call::Trim(0), TRIMMED)),
    Step::By(Who::A, (Call::Trim(1), TRIMMED)),
    Step::By(Who::First, DRAINS_NEXT_ZERO),
    Step::By(Who::First, DRAINS_NEXT_TWO),
    Step::By(Who::First, NOTHING_NEXT),
    Step::By(Who::First, NOTHING),
];

// The host has taken every block, and the broom has copied to its spare. Each sector is trimmed.
const LIVES_ON: [Step; 19] = three_filled![
    Step::By(Who::First, DRAINS_ONE),
    Step::By(Who::First, DRAINS_NEXT_ZERO_BY_MOVES),
    Step::By(Who::A, (Call::Write(1, 7), WRITTEN)),
    Step::By(Who::A, (Call::Write(1, 8), WRITTEN)),
    Step::By(Who::A, (Call::Write(0, 9), FULL)),
    Step::By(Who::First, NO_SPARE),
    Step::By(Who::First, FINDS_NO_SPARE),
    Step::By(Who::First, FINDS_A_LIVE_PAGE),
    Step::By(Who::A, (Call::Trim(0), TRIMMED)),
    Step::By(Who::A, (Call::Trim(1), TRIMMED)),
    Step::By(Who::First, NO_SPARE),
    Step::By(Who::First, DRAINS_DEAD_TWO),
    Step::By(Who::First, KEEPS_TWO),
];

// The same by turns. The spare is block 2 then, so block 3 comes free, and the host can write again.
const LIVES_ON_BY_TURNS: [Step; 21] = three_filled![
    Step::By(Who::First, DRAINS_ONE),
    Step::By(Who::First, DRAINS_NEXT_ZERO_BY_MOVES),
    Step::By(Who::A, (Call::Write(1, 7), WRITTEN)),
    Step::By(Who::A, (Call::Write(1, 8), WRITTEN)),
    Step::By(Who::A, (Call::Write(0, 9), FULL)),
    Step::By(Who::A, (Call::Trim(0), TRIMMED)),
    Step::By(Who::A, (Call::Trim(1), TRIMMED)),
    Step::By(Who::First, NO_SPARE_FOR_ONE),
    Step::By(Who::First, NOTHING_TO_ERASE),
    Step::By(Who::First, FINDS_NO_SPARE),
    Step::By(Who::First, QUEUES_DEAD_TWO),
    Step::By(Who::First, KEEPS_TWO_OF_QUEUE),
    Step::By(Who::First, QUEUES_THREE),
    Step::By(Who::First, FREES_THREE_OF_QUEUE),
    Step::By(Who::A, (Call::Write(0, 10), EMPTY)),
];

// The second broom drains the block at the gate of the first one.
const LOSES_DEAD: [Step; 7] = three_filled![Step::During(
    Who::First,
    (Call::DrainDead, Done::Drained(Drain::Lost)),
    Point::BeforeClaim,
    1
)];

// With a spare a block without live pages is drained as well. Its erase frees it.
const HAS_A_SPARE: [Step; 9] = three_filled![
    Step::By(Who::First, DRAINS_DEAD_ONE),
    Step::By(Who::First, FREES_ONE),
    Step::By(Who::First, FINDS_A_LIVE_PAGE),
];

const SWEEPS_NOTHING: [Step; 3] = [
    Step::By(Who::First, NOTHING_DEAD),
    Step::By(Who::A, (Call::Write(0, 1), EMPTY)),
    Step::By(Who::First, NOTHING_DEAD),
];

// The spare is block 4, then block 2; then no block is free.
const RESTOCKS_ONCE: [Step; 22] = [
    Step::By(Who::A, (Call::Write(0, 1), EMPTY)),
    Step::By(Who::A, (Call::Write(1, 2), EMPTY)),
    Step::By(Who::A, (Call::Write(0, 3), WRITTEN)),
    Step::By(Who::First, HAS_SPARE),
    Step::By(Who::First, DRAINS_ZERO_BY_MOVES),
    Step::By(Who::First, RETIRES_ZERO),
    Step::By(Who::First, NO_SPARE),
    Step::By(Who::First, NO_SPARE_FOR_NEXT),
    Step::By(Who::First, HAS_SPARE),
    Step::By(Who::First, HAS_SPARE),
    Step::By(Who::A, (Call::Write(1, 4), WRITTEN)),
    Step::By(Who::First, NOTHING),
    Step::By(Who::A, (Call::Write(0, 5), WRITTEN)),
    Step::By(Who::First, DRAINS_ONE_BY_MOVES),
    Step::By(Who::First, RETIRES_ONE),
    Step::By(Who::A, (Call::Write(0, 6), WRITTEN)),
    Step::By(Who::First, DRAINS_THREE_BY_MOVES),
    Step::By(Who::First, RETIRES_THREE),
    Step::By(Who::First, NO_SPARE),
    Step::By(Who::First, FINDS_NO_SPARE),
    Step::By(Who::A, (Call::Write(0, 7), FULL)),
    Step::By(Who::First, FINDS_NO_SPARE),
];

const RESTOCKS_TWICE: [Step; 30] = [
    Step::By(Who::A, (Call::Write(0, 1), EMPTY)),
    Step::By(Who::A, (Call::Write(1, 2), EMPTY)),
    Step::By(Who::A, (Call::Write(0, 3), WRITTEN)),
    Step::By(Who::First, DRAINS_ZERO_BY_MOVES),
    Step::By(Who::First, KEEPS_ZERO),
    Step::By(Who::A, (Call::Write(1, 4), WRITTEN)),
    Step::By(Who::A, (Call::Write(0, 5), WRITTEN)),
    Step::By(Who::First, DRAINS_ONE_BY_MOVES),
    Step::By(Who::First, FREES_ONE),
    Step::By(Who::A, (Call::Write(0, 6), WRITTEN)),
    Step::By(Who::First, DRAINS_TWO_BY_MOVES),
    Step::By(Who::First, KEEPS_TWO),
    Step::By(Who::A, (Call::Write(0, 7), WRITTEN)),
    Step::By(Who::First, DRAINS_FOUR_BY_MOVES),
    Step::By(Who::First, FREES_FOUR),
    Step::By(Who::A, (Call::Write(0, 8), WRITTEN)),
    Step::By(Who::First, DRAINS_ZERO_BY_MOVES),
    Step::By(Who::First, RETIRES_ZERO),
    Step::By(Who::First, NO_SPARE),
    Step::By(Who::First, HAS_SPARE),
    Step::By(Who::First, DRAINS_ONE_BY_MOVES),
    Step::By(Who::First, RETIRES_ONE),
    Step::By(Who::First, NOTHING),
    Step::By(Who::A, (Call::Write(0, 9), WRITTEN)),
    Step::By(Who::First, DRAINS_TWO_BY_MOVES),
    Step::By(Who::First, RETIRES_TWO),
    Step::By(Who::First, FINDS_NO_SPARE),
    Step::By(Who::A, (Call::Write(1, 10), WRITTEN)),
    Step::By(Who::A, (Call::Write(0, 11), FULL)),
    Step::By(Who::First, NO_SPARE),
];

#[test]
fn drains_by_the_last_survey_answer_as_the_rows_say(rt: HostRuntime) -> Result<(), Fail> {
    let rows = rows! {
        "after a survey the drains go on in the order of its counts": ONE_BROOM GOES_ON beside [], leaves [6, 2];
        "a page that was trimmed since is not moved": ONE_BROOM GOES_ON_PAST_A_TRIM beside [], leaves [6, 0];
        "a page that was overwritten since is not moved, and the order stays":
            ONE_BROOM GOES_ON_PAST_A_WRITE beside [], leaves [7, 8];
        "a block that another broom has drained is lost, and the next one is not":
            TWO_BROOMS LOSES_A_BLOCK beside [], leaves [6, 2];
        "a block that the broom erased is not marked any more": TWO_BROOMS ERASES_BETWEEN beside [], leaves [6, 2];
        "a block that was erased and filled again is not drained by the old survey":
            ONE_BROOM ERASES_ITS_OWN beside [], leaves [8, 2];
        "before a survey nothing is gained, nor once no mark is left": ONE_BROOM HAS_NO_SURVEY beside [], leaves [0, 0];
    };
    check_rows(&rt, &rows)
}

#[test]
fn brooms_without_a_spare_answer_as_the_rows_say(rt: HostRuntime) -> Result<(), Fail> {
    let rows = rows! {
        "a broom is restocked until no block is left": ONCE RESTOCKS_ONCE beside [], leaves [6, 4];
        "and so where each block may be erased twice": TWICE RESTOCKS_TWICE beside [], leaves [9, 10];
    };
    check_rows(&rt, &rows)
}

#[test]
fn drains_of_dead_blocks_answer_as_the_rows_say(rt: HostRuntime) -> Result<(), Fail> {
    let rows = rows! {
        "a broom without a spare drains a block without live pages, and keeps it":
            ONE_BROOM LIVES_ON beside [], leaves [0, 0];
        "by turns too, and a host can write again": ONE_BROOM LIVES_ON_BY_TURNS beside [], leaves [10, 0];
        "and so does a broom that has one": ONE_BROOM HAS_A_SPARE beside [], leaves [6, 2];
        "there is nothing to gain of blocks that are not closed": ONE_BROOM SWEEPS_NOTHING beside [], leaves [1, 0];
        "a block that another broom drains meanwhile is lost":
            TWO_BROOMS LOSES_DEAD beside [(Who::Second, DRAINS_ONE)], leaves [6, 2];
    };
    check_rows(&rt, &rows)
}
