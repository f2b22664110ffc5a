//! Brooms that drain and erase blocks while two hosts make calls.
use crate::actors::calls::{Call, Done, EMPTY, WRITTEN};
use crate::actors::idle_actors::Who;
use crate::rows::playing_rows::{Row, check_rows};
use crate::rows::row_calls::{ONE_BROOM, TWO_BROOMS, drained, erased, rows};
use crate::schedules::schedule::{ExpectedCall, Step};
use broom::{Drain, Erase};
use flash_table::Point;
use std::test::Fail;

// A drain of the first block that moved no page.
const DRAINED: ExpectedCall = drained!(Call::Drain, 0, 0);

// A drain that moved a page.
const MOVED: ExpectedCall = drained!(Call::Drain, 0, 1);

const ERASED: ExpectedCall = erased!(Call::Erase(0), 0, false);

// The first block is erased by a broom that has copied into its spare, and is the next spare.
const KEPT: ExpectedCall = erased!(Call::Erase(0), 0, true);

const PINNED: ExpectedCall = (Call::Erase(0), Done::Erased(Erase::Pinned));

const NOTHING: ExpectedCall = (Call::Drain, Done::Drained(Drain::NothingToGain));

const WRITES_BEFORE_A_MOVE: [Step; 7] = [
    Step::By(Who::A, (Call::Write(0, 1), EMPTY)),
    Step::By(Who::A, (Call::Write(1, 2), EMPTY)),
    Step::By(Who::A, (Call::Write(0, 3), WRITTEN)),
    Step::During(Who::First, DRAINED, Point::BeforeMove, 1),
    Step::By(Who::A, (Call::Read(1), Done::Read(Some(5), 1))),
    Step::By(Who::First, (Call::Drain, Done::Drained(Drain::NoSpare))),
    Step::By(Who::First, KEPT),
];

const WRITES_BEFORE_A_MOVE_BESIDE: [(Who, ExpectedCall); 1] = [(
    Who::A,
    (Call::Write(1, 5), WRITTEN),
)];

const GAINS_NOTHING: [Step; 4] = [
    Step::By(Who::First, NOTHING),
    Step::By(Who::A, (Call::Write(0, 1), EMPTY)),
    Step::By(Who::A, (Call::Write(1, 2), EMPTY)),
    Step::By(Who::First, NOTHING),
];

const DRAINS_A_LEFT_BLOCK: [Step; 5] = [
    Step::By(Who::A, (Call::Write(0, 1), EMPTY)),
    Step::Leave(Who::A),
    Step::By(Who::First, MOVED),
    Step::By(Who::B, (Call::Read(0), Done::Read(Some(1), 1))),
    Step::By(Who::First, KEPT),
];

const LOSES_A_BLOCK_THAT_IS_READ: [Step; 10] = [
    Step::By(Who::A, (Call::Write(0, 1), EMPTY)),
    Step::By(Who::A, (Call::Write(1, 2), EMPTY)),
    Step::By(Who::A, (Call::Write(0, 3), WRITTEN)),
    Step::During(
        Who::First,
        (Call::Drain, Done::Drained(Drain::Lost)),
        Point::BeforeClaim,
        1,
    ),
    Step::By(Who::First, MOVED),
    Step::By(Who::A, (Call::Read(1), Done::Read(Some(2), 1))),
    Step::By(Who::B, (Call::Look, Done::Looked(2))),
    Step::By(Who::First, PINNED),
    Step::By(Who::B, (Call::Release, Done::Released)),
    Step::By(Who::First, KEPT),
];

const LOSES_A_BLOCK_THAT_IS_READ_BESIDE: [(Who, ExpectedCall); 1] = [(
    Who::B,
    (Call::Hold(1), Done::Holds(Some((0, 0)))),
)];

const DRAINS_A_PINNED_BLOCK: [Step; 4] = [
    Step::By(Who::A, (Call::Write(0, 1), EMPTY)),
    Step::By(Who::A, (Call::Write(1, 2), EMPTY)),
    Step::During(
        Who::B,
        (Call::Read(0), Done::Read(Some(1), 1)),
        Point::AfterPin,
        4,
    ),
    Step::By(Who::B, (Call::Read(0), Done::Read(Some(3), 1))),
];

const DRAINS_A_PINNED_BLOCK_BESIDE: [(Who, ExpectedCall); 4] = [
    (Who::A, (Call::Write(0, 3), WRITTEN)),
    (Who::A, (Call::Write(1, 4), WRITTEN)),
    (Who::First, DRAINED),
    (Who::First, PINNED),
];

// A read of sector 0 at whose look others act, with the byte that it finds and how often it has looked.
macro_rules! read_beside {
    ($found:literal, $looks:literal) => {
        [
            Step::By(Who::A, (Call::Write(0, 1), EMPTY)),
            Step::By(Who::A, (Call::Write(1, 2), EMPTY)),
            Step::During(
                Who::B,
                (Call::Read(0), Done::Read(Some($found), $looks)),
                Point::AfterLook,
                4,
            ),
        ]
    };
}

// At the first look both sectors are written, and the block that had them is drained and erased. Then these calls are made.
macro_rules! written_and_erased {
    ($($call:expr),* $(,)?) => {
        [
            (Who::A, (Call::Write(0, 3), WRITTEN)),
            (Who::A, (Call::Write(1, 4), WRITTEN)),
            (Who::First, DRAINED),
            (Who::First, ERASED),
            $($call),*
        ]
    };
}

const LOOKS_TWICE: [Step; 3] = read_beside!(3, 2);

const LOOKS_TWICE_BESIDE: [(Who, ExpectedCall); 4] = written_and_erased![];

// The same at the second look.
const LOOKS_THREE_TIMES: [Step; 3] = read_beside!(5, 3);

const LOOKS_THREE_TIMES_BESIDE: [(Who, ExpectedCall); 8] = written_and_erased![
    (Who::A, (Call::Write(0, 5), WRITTEN)),
    (Who::A, (Call::Write(1, 6), WRITTEN)),
    (Who::First, drained!(Call::Drain, 1, 0)),
    (Who::First, erased!(Call::Erase(1), 1, false)),
];

const DRAINS_BY_TWO: [Step; 6] = [
    Step::By(Who::A, (Call::Write(0, 1), EMPTY)),
    Step::By(Who::A, (Call::Write(1, 2), EMPTY)),
    Step::By(Who::A, (Call::Write(0, 3), WRITTEN)),
    Step::By(Who::A, (Call::Write(0, 4), WRITTEN)),
    Step::During(Who::First, MOVED, Point::BeforeMove, 1),
    Step::Meet(Who::First, Who::Second),
];

const DRAINS_BY_TWO_BESIDE: [(Who, ExpectedCall); 1] = [(Who::Second, drained!(Call::Drain, 1, 1))];

const ERASES_BY_TWO: [Step; 8] = [
    Step::By(Who::A, (Call::Write(1, 1), EMPTY)),
    Step::By(Who::A, (Call::Write(0, 2), EMPTY)),
    Step::By(Who::A, (Call::Write(1, 3), WRITTEN)),
    Step::By(Who::A, (Call::Write(0, 4), WRITTEN)),
    Step::By(Who::First, DRAINED),
    Step::During(Who::First, PINNED, Point::BeforeErase, 1),
    Step::By(Who::First, (Call::Erase(0), Done::Erased(Erase::Stale))),
    Step::By(Who::A, (Call::Read(0), Done::Read(Some(4), 1))),
];

const ERASES_BY_TWO_BESIDE: [(Who, ExpectedCall); 1] = [(Who::Second, ERASED)];

#[test]
fn brooms_answer_as_the_rows_say(rt: HostRuntime) -> Result<(), Fail> {
    let rows = rows! {
        "a write before the exchange stays":
            ONE_BROOM WRITES_BEFORE_A_MOVE beside WRITES_BEFORE_A_MOVE_BESIDE, leaves [3, 5];
        "nothing is gained while each closed block is all live": ONE_BROOM GAINS_NOTHING beside [], leaves [1, 2];
        "a block whose host is gone is drained": ONE_BROOM DRAINS_A_LEFT_BLOCK beside [], leaves [1, 0];
        "a block that is read is lost, and then drained under its reader":
            ONE_BROOM LOSES_A_BLOCK_THAT_IS_READ beside LOSES_A_BLOCK_THAT_IS_READ_BESIDE, leaves [3, 2];
        "a pinned block is drained and not erased":
            ONE_BROOM DRAINS_A_PINNED_BLOCK beside DRAINS_A_PINNED_BLOCK_BESIDE, leaves [3, 4];
        "a read looks again where its block was erased": ONE_BROOM LOOKS_TWICE beside LOOKS_TWICE_BESIDE, leaves [3, 4];
        "a read looks three times where its block was erased twice":
            ONE_BROOM LOOKS_THREE_TIMES beside LOOKS_THREE_TIMES_BESIDE, leaves [5, 6];
        "two brooms drain a block each, and no sector changes":
            TWO_BROOMS DRAINS_BY_TWO beside DRAINS_BY_TWO_BESIDE, leaves [4, 2];
        "a block that another broom erased is not erased again":
            TWO_BROOMS ERASES_BY_TWO beside ERASES_BY_TWO_BESIDE, leaves [4, 3];
    };
    check_rows(&rt, &rows)
}
