//! What the rows of several files have in common: the devices on which they are played, and the expected calls of brooms.
use crate::rows::playing_rows::Device;

// A device with so many blocks and brooms, whose blocks may be erased so often.
macro_rules! device {
    (blocks $blocks:literal, endurance $endurance:literal, brooms $brooms:literal) => {
        Device {
            blocks: $blocks,
            endurance: $endurance,
            brooms: $brooms,
        }
    };
}

pub(crate) const NO_BROOM: Device = device!(blocks 5, endurance 10, brooms 0);

pub(crate) const ONE_BROOM: Device = device!(blocks 5, endurance 10, brooms 1);

pub(crate) const TWO_BROOMS: Device = device!(blocks 7, endurance 10, brooms 2);

// Each block may be erased once.
pub(crate) const ONCE: Device = device!(blocks 5, endurance 1, brooms 1);

// Each block may be erased twice.
pub(crate) const TWICE: Device = device!(blocks 5, endurance 2, brooms 1);

// A call that drains this block, and copies so many of its pages.
macro_rules! drained {
    ($call:expr, $block:literal, $copied:literal) => {
        (
            $call,
            Done::Drained(Drain::Drained {
                block: $block,
                copied: $copied,
            }),
        )
    };
}

// A call that erases this block, and whether the broom keeps it.
macro_rules! erased {
    ($call:expr, $block:literal, $kept:literal) => {
        (
            $call,
            Done::Erased(Erase::Erased {
                block: $block,
                kept: $kept,
            }),
        )
    };
}

// Rows: what each shows, its device, its steps, what others do at the gate of a call, and what the sectors hold at the end.
macro_rules! rows {
    ($($name:literal: $device:ident $steps:ident beside $meanwhile:expr, leaves $sectors:expr;)*) => {
        [$(Row {
            name: $name,
            device: $device,
            steps: &$steps,
            meanwhile: &$meanwhile,
            sectors: $sectors,
        }),*]
    };
}

pub(crate) use drained;
pub(crate) use erased;
pub(crate) use rows;
