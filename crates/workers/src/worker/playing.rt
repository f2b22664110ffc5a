//! A worker's lines of a round.
ghost use Rattle.std.specs.Prelude.{◌≡◌, false, true};
ghost use Rattle.workers.specs.Workers.{HasPlayed, IsIdle};

use crate::worker::Worker;
use crate::worker::plays::play_at;
use crate::worker::round_limits::RoundLimits;
use flash_table::Gate;
use rounds::past;

impl Worker {
    // Whether the worker has a line in the round with this end.
    pub(crate) fn has_line_before(&self, end: usize) -> bool
        ensures some { result ≡ true → ¬ (IsIdle end self.now) }
        ensures none { result ≡ false → IsIdle end self.now }
    {
        let next = self.answers.len();
        next < self.places.len() && self.places[next] < end
    }

    // Plays the worker's lines of a round.
    pub(crate) fn play_before<G: Gate>(self, limits: RoundLimits, gate: &mut G) -> Worker
        ensures { HasPlayed limits self result }
    {
        let mut worker = self;
        let p = &mut worker;
        let answered = p.answers.len();
        let to = past(&p.places, answered, limits.end);
        play_at(
            &p.volume,
            &mut p.pass,
            &p.commands,
            &p.places[answered..to],
            limits.patience,
            gate,
            &mut p.buffer,
            &mut p.answers,
        );
        worker
    }
}
