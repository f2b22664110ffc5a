//! The calls of a schedule, drawn from a seed.
ghost use Rattle.std.specs.Prelude.{◌<◌};

use crate::actors::calls::Call;
use crate::actors::idle_actors::Who;
use crate::models::broom_model::CallStart;

/// Who takes part, as a number.
pub(crate) const ACTORS: u32 = 5;

/// The kind of an erase of the block that is drawn.
pub(crate) const ERASE: u32 = 19;

/// The actor with this number: three hosts have the numbers 0 to 2, and two brooms 3 and 4.
pub(crate) fn actor_of(k: u32) -> Who {
    match k {
        0 => Who::A,
        1 => Who::B,
        2 => Who::C,
        3 => Who::First,
        _ => Who::Second,
    }
}

/// What is drawn for a call: which of twenty it is, its sector or block, and the number that a write writes.
#[derive(Clone, Copy)]
pub(crate) struct Drawn {
    pub kind: u32,
    pub sector: u32,
    pub block: u32,
    pub number: u64,
    ghost sector_below: { sector < 3 },
    ghost block_below: { block < 10 },
}

impl Drawn {
    /// The call if a host makes it.
    pub(crate) fn of_host(self) -> Call {
        match self.kind {
            0..8 => Call::Write(self.sector, self.number),
            8..10 => Call::New(self.sector, self.number),
            10..12 => Call::Trim(self.sector),
            12..16 => Call::Read(self.sector),
            16 => Call::Ask(self.sector),
            _ => Call::Hold(self.sector),
        }
    }

    /// The call if a broom makes it.
    pub(crate) fn of_broom(self) -> Call {
        match self.kind {
            0..5 => Call::DrainOne,
            5..7 => Call::DrainNextOne,
            7 => Call::DrainDeadOne,
            8 => Call::Drain,
            9 => Call::DrainNext,
            10..16 => Call::EraseOne,
            16 => Call::Restock,
            17 => Call::DrainDead,
            _ => Call::Erase(self.block),
        }
    }
}

/// A call that has begun: who makes it, what was drawn for it, the state in which it began, and its number among all calls.
#[derive(Clone, Copy)]
pub(crate) struct Begun {
    pub k: u32,
    pub drawn: Drawn,
    pub call: Call,
    pub start: CallStart,
    pub calls: u64,
    ghost below: { k < 5 },
}
