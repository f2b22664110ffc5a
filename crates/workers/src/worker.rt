//! A worker: its pass, all lines that are its own, and their answers so far.
ghost use Rattle.std.specs.Prelude.{◌≡◌};
ghost use Rattle.std.specs.Arc.{arc_value};
ghost use Rattle.workers.specs.Able.{IsAble, IsAble-prop};

pub(crate) mod meetings;
pub(crate) mod playing;
pub(crate) mod plays;
pub(crate) mod round_limits;
pub(crate) mod share;
pub(crate) mod tasks;

use flash_table::Pass;
use rounds::Answers;
use std::alloc::Global;
use std::sync::Arc;
use trace::Commands;
use volume::Volume;

/// What a worker needs for a run: its pass, the indices of its lines in the trace, their answers so far with room for the others, and a buffer of
/// one page. In a round it plays the lines before the round's end that have no answer yet. If a worker is dropped, its pass is retired.
pub struct Worker {
    pub volume: Arc<Volume, Global>,
    pub commands: Arc<Commands, Global>,
    pub pass: Pass,
    pub places: Vec<usize>,
    pub answers: Answers,
    pub buffer: Vec<u8>,
    pub ghost able: { IsAble (arc_value volume) (arc_value commands)
        pass places.items answers buffer.items } by { IsAble-prop (arc_value volume) (arc_value commands) pass places.items answers buffer.items },
}

impl Drop for Worker {
    fn drop(self) {
        let Worker {
            volume,
            commands: _,
            pass,
            places: _,
            answers: _,
            buffer: _,
        } = self;
        volume.retire(pass);
    }
}

impl Worker {
    // The answers. The pass is retired.
    pub(crate) fn into_answers(self) -> Answers
        ensures { result ≡ self.answers }
    {
        let Worker {
            volume,
            commands: _,
            pass,
            places: _,
            answers,
            buffer: _,
        } = self;
        volume.retire(pass);
        answers
    }
}
