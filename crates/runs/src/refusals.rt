//! How many writes a run by workers refused.
ghost use Rattle.std.specs.{Prelude.◌≡◌, Prelude.false, Prelude.length, Prelude.option_map, Prelude.replicate, Option.option_map_or};
ghost use Rattle.rounds.specs.{Answers.first_place, Lines.Said, Lines.is_full, Merging.HaveAnswers, Merging.answers_by};
ghost use Rattle.runs.specs.{ByWorkers.IsAnswered, ByWorkers.answers_played, ByWorkers.commands_played, Texts.said_as, Playing.refused_by_workers};

use crate::delivering::next_answer;
use crate::played_by_workers::PlayedByWorkers;
use geometry::MAX_HOSTS;
use rounds::{Answers, Cursor, Kind};
use trace::Commands;

impl PlayedByWorkers {
    /// How many writes were refused, since they found no block.
    pub fn refused(&self) -> u64
        requires { IsAnswered self.now }
        ensures { result ≡ refused_by_workers (commands_played self.now) (answers_played self.now) }
    {
        let rows = &self.end.rows;
        let mut next = [Cursor::new(); MAX_HOSTS as usize];
        count_refused(&self.commands, rows, &mut next[..rows.len()])
    }
}

// How many of the commands were refused, by the answers of each worker.
fn count_refused(commands: &Commands, rows: &[Answers], next: &mut [Cursor]) -> u64
    requires workers { length next.old ≡ length rows.now }
    requires first { next.old ≡ replicate (length next.old) first_place }
    requires answers { HaveAnswers (answers_by rows.now) commands.now }
    ensures { result ≡ refused_by_workers commands.now (answers_by rows.now) }
{
    let mut refused = 0;
    for i in 0..commands.len() {
        let command = commands.command(i);
        let answer = next_answer(&command, rows, next);
        refused += u64::from(is_refusal(answer));
    }
    refused
}

// Whether a command's answer refuses it.
fn is_refusal(answer: Option<(Kind, &[u8])>) -> bool
    ensures { result ≡ option_map_or
        (λ (a : Said). is_full a.kind) (option_map said_as answer.entry) false }
{
    match answer {
        Some((Kind::Full, _)) => true,
        _ => false,
    }
}
