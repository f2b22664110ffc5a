//! The rule of the shared table: what every seat knows, and what holds of the words and all seats between any two steps.
#![tactic(auto)]

mod broom_plays;
mod carried;
mod facts;
mod forced;
mod plays;
mod rule;
mod view;

pub use broom_plays::{
    BroomLook, Claim, Condemn, Drain, FreeBlock, GetSource, GetStamp, InspectSector, KeepBlock,
    LoadState, MoveTo, RetireBlock, Wipe,
};
pub use carried::Carried;
pub use facts::{Cycle, Inspection, Name, Owned, Pin, Role, Source, Work};
pub use forced::pin_words_are_forced;
pub use plays::{
    AddReader, Close, ComeHome, Count, DealBroom, DealPass, GetWord, GiveBack, Lend, Look,
    PlaceNew, PlaceTrim, PlaceWrite, PutWord, RemoveReader, Take, TakeIn, Test,
};
pub use rule::Device;
pub use view::View;
