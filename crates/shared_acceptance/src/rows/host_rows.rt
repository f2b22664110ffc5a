//! Two hosts at a device, without a broom or with one that does nothing.
use crate::actors::calls::{Call, Done, EMPTY, FULL, TRIMMED, WRITTEN};
use crate::actors::idle_actors::Who;
use crate::rows::playing_rows::{Row, check_rows};
use crate::rows::row_calls::{NO_BROOM, ONE_BROOM, rows};
use crate::schedules::schedule::{ExpectedCall, Step};
use flash_table::Point;
use std::test::Fail;

const READS_THE_OTHERS: [Step; 2] = [
    Step::By(Who::A, (Call::Write(0, 1), EMPTY)),
    Step::By(Who::B, (Call::Read(0), Done::Read(Some(1), 1))),
];

// A host fills blocks 0 to 3, and then these steps are made.
macro_rules! four_filled {
    ($($step:expr),* $(,)?) => {
        [
            Step::By(Who::A, (Call::Write(1, 1), EMPTY)),
            Step::By(Who::A, (Call::Write(0, 2), EMPTY)),
            Step::By(Who::A, (Call::Write(1, 3), WRITTEN)),
            Step::By(Who::A, (Call::Write(0, 4), WRITTEN)),
            Step::By(Who::A, (Call::Write(1, 5), WRITTEN)),
            Step::By(Who::A, (Call::Write(0, 6), WRITTEN)),
            Step::By(Who::A, (Call::Write(1, 7), WRITTEN)),
            Step::By(Who::A, (Call::Write(0, 8), WRITTEN)),
            $($step),*
        ]
    };
}

const FILLS_ALL: [Step; 15] = four_filled![
    Step::By(Who::A, (Call::Write(1, 9), WRITTEN)),
    Step::By(Who::A, (Call::Write(0, 10), WRITTEN)),
    Step::By(Who::A, (Call::Write(0, 11), FULL)),
    Step::By(Who::A, (Call::Read(0), Done::Read(Some(10), 1))),
    Step::By(Who::A, (Call::Read(1), Done::Read(Some(9), 1))),
    Step::By(Who::A, (Call::Trim(0), TRIMMED)),
    Step::By(Who::A, (Call::Read(0), Done::Read(None, 1))),
];

const LEAVES_THE_SPARE: [Step; 12] = four_filled![
    Step::By(Who::A, (Call::Write(0, 9), FULL)),
    Step::By(Who::A, (Call::Read(0), Done::Read(Some(8), 1))),
    Step::By(Who::A, (Call::Read(1), Done::Read(Some(7), 1))),
    Step::By(Who::A, (Call::Trim(0), TRIMMED)),
];

const MEET: [Step; 4] = [
    Step::By(Who::A, (Call::Write(0, 1), EMPTY)),
    Step::By(Who::B, (Call::Write(1, 2), EMPTY)),
    Step::Meet(Who::A, Who::B),
    Step::By(Who::A, (Call::Read(1), Done::Read(Some(2), 1))),
];

const TRIMS_BEFORE_A_SWAP: [Step; 3] = [
    Step::By(Who::A, (Call::Write(0, 1), EMPTY)),
    Step::During(Who::A, (Call::Write(0, 2), EMPTY), Point::BeforePlace, 1),
    Step::By(Who::A, (Call::Read(0), Done::Read(Some(2), 1))),
];

const TRIMS_BEFORE_A_SWAP_BESIDE: [(Who, ExpectedCall); 1] = [(Who::B, (Call::Trim(0), TRIMMED))];

const HOLDS: [Step; 11] = [
    Step::By(Who::B, (Call::Hold(0), Done::Holds(None))),
    Step::By(Who::A, (Call::Write(0, 1), EMPTY)),
    Step::By(Who::B, (Call::Hold(0), Done::Holds(Some((0, 0))))),
    Step::By(Who::B, (Call::Opened, Done::Opened(false))),
    Step::By(Who::B, (Call::Look, Done::Looked(1))),
    Step::By(Who::A, (Call::Write(0, 3), WRITTEN)),
    Step::By(Who::B, (Call::Look, Done::Looked(1))),
    Step::By(Who::A, (Call::Trim(0), TRIMMED)),
    Step::By(Who::A, (Call::Write(0, 3), EMPTY)),
    Step::By(Who::B, (Call::Release, Done::Released)),
    Step::By(Who::B, (Call::Read(0), Done::Read(Some(3), 1))),
];

// In both orders the page doesn't change, nor does what the other host finds.
const MEETS_WHILE_IT_HOLDS: [Step; 11] = [
    Step::By(Who::A, (Call::Write(0, 1), EMPTY)),
    Step::By(Who::B, (Call::Hold(0), Done::Holds(Some((0, 0))))),
    Step::By(Who::A, (Call::Write(0, 2), WRITTEN)),
    Step::Meet(Who::B, Who::A),
    Step::By(Who::B, (Call::Look, Done::Looked(1))),
    Step::By(Who::A, (Call::Write(1, 3), EMPTY)),
    Step::Meet(Who::A, Who::B),
    Step::By(Who::B, (Call::Look, Done::Looked(1))),
    Step::By(Who::A, (Call::Read(0), Done::Read(Some(2), 1))),
    Step::By(Who::B, (Call::Release, Done::Released)),
    Step::By(Who::B, (Call::Read(0), Done::Read(Some(2), 1))),
];

// A host that is retired keeps no block.
const LEAVES: [Step; 12] = [
    Step::By(Who::A, (Call::Write(0, 1), EMPTY)),
    Step::Leave(Who::A),
    Step::By(Who::B, (Call::Write(0, 2), WRITTEN)),
    Step::By(Who::B, (Call::Write(0, 3), WRITTEN)),
    Step::By(Who::B, (Call::Write(0, 4), WRITTEN)),
    Step::By(Who::B, (Call::Write(0, 5), WRITTEN)),
    Step::By(Who::B, (Call::Write(0, 6), WRITTEN)),
    Step::By(Who::B, (Call::Write(0, 7), WRITTEN)),
    Step::By(Who::B, (Call::Write(0, 8), WRITTEN)),
    Step::By(Who::B, (Call::Write(0, 9), WRITTEN)),
    Step::By(Who::B, (Call::Write(1, 10), FULL)),
    Step::By(Who::B, (Call::Read(0), Done::Read(Some(9), 1))),
];

const WRITES_ANEW: [Step; 6] = [
    Step::By(Who::A, (Call::New(0, 1), EMPTY)),
    Step::By(Who::B, (Call::New(0, 2), WRITTEN)),
    Step::By(Who::B, (Call::Read(0), Done::Read(Some(1), 1))),
    Step::By(Who::A, (Call::Trim(0), TRIMMED)),
    Step::By(Who::B, (Call::New(0, 3), EMPTY)),
    Step::By(Who::A, (Call::Read(0), Done::Read(Some(3), 1))),
];

const WINS_BY_THE_FIRST_EXCHANGE: [Step; 2] = [
    Step::During(Who::A, (Call::New(0, 1), WRITTEN), Point::BeforePlace, 1),
    Step::By(Who::A, (Call::Read(0), Done::Read(Some(2), 1))),
];

const WINS_BY_THE_FIRST_EXCHANGE_BESIDE: [(Who, ExpectedCall); 1] = [(
    Who::B,
    (Call::New(0, 2), EMPTY),
)];

#[test]
fn hosts_answer_as_the_rows_say(rt: HostRuntime) -> Result<(), Fail> {
    let rows = rows! {
        "what one host writes another reads without a meeting": ONE_BROOM READS_THE_OTHERS beside [], leaves [1, 0];
        "ten writes fill five blocks, and nothing is lost": NO_BROOM FILLS_ALL beside [], leaves [0, 9];
        "hosts leave a broom's spare alone": ONE_BROOM LEAVES_THE_SPARE beside [], leaves [0, 7];
        "hosts that met close with what both wrote": NO_BROOM MEET beside [], leaves [1, 2];
        "a trim before the swap is the earlier call":
            NO_BROOM TRIMS_BEFORE_A_SWAP beside TRIMS_BEFORE_A_SWAP_BESIDE, leaves [2, 0];
        "a hold keeps its value until it is released": NO_BROOM HOLDS beside [], leaves [3, 0];
        "a host that holds a page meets another one, and the page stays":
            NO_BROOM MEETS_WHILE_IT_HOLDS beside [], leaves [2, 3];
        "a host that is given up keeps no block": NO_BROOM LEAVES beside [], leaves [9, 0];
        "a written sector is not written anew until it is trimmed": NO_BROOM WRITES_ANEW beside [], leaves [3, 0];
        "the first exchange wins, and not the first call":
            NO_BROOM WINS_BY_THE_FIRST_EXCHANGE beside WINS_BY_THE_FIRST_EXCHANGE_BESIDE, leaves [2, 0];
    };
    check_rows(&rt, &rows)
}
