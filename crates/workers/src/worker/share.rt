//! A worker's share of a trace.
ghost use Rattle.std.specs.Prelude.{◌≡◌, ◌<◌, ◌*◌, ℕ, All, IfOk, length, map};
ghost use Rattle.std.specs.Arc.{arc_value};
ghost use Rattle.rounds.specs.Answers.{space_of};
ghost use Rattle.workers.specs.Playable.{lines_at};
ghost use Rattle.rounds.specs.Plans.{items_of};
ghost use Rattle.workers.specs.Dealing.{AreDoable, IsFit, HasFitShare, work_in, with_commands};

use geometry::Geometry;
use rounds::Answers;
use std::alloc::{AllocError, Global};
use std::collections::VecDeque;
use std::sync::Arc;
use trace::{Commands, Op};

/// What a worker plays: the indexes of its lines among the commands of a trace, room for their answers, and a buffer of a page.
#[derive(Drop)]
pub(crate) struct Share {
    pub commands: Arc<Commands, Global>,
    pub places: Vec<usize>,
    pub answers: Answers,
    pub buffer: Vec<u8>,
}

// How many of the lines at these places are reads.
fn count_reads(commands: &Commands, places: &[usize]) -> usize
    requires { All (λ p. p < length commands.now) places.now }
    ensures { (n : ℕ) → space_of n (lines_at commands.now places.now) ≡ n * result }
{
    let mut reads = 0;
    for place in places {
        if let Op::Read = commands.command(*place).op {
            reads += 1;
        }
    }
    reads
}

// The share with the lines at these places.
fn make_share(
    alloc: Global,
    geometry: &Geometry,
    commands: &Arc<Commands, Global>,
    places: Vec<usize>,
) -> Result<Share, AllocError>
    requires { AreDoable geometry.now (arc_value commands.now) places.items }
    ensures fit { IfOk result (HasFitShare geometry.now) }
    ensures work { IfOk result (λ share. work_in share ≡ (arc_value commands.now, places.items)) }
{
    let reads = count_reads(commands, &places);
    let answers = Answers::with_room(alloc, geometry.page_bytes(), places.len(), reads)?;
    Ok(Share {
        commands: Arc::try_clone(commands)?,
        places,
        answers,
        buffer: vec![in alloc; 0; geometry.page_bytes()]?,
    })
}

// A share for each row of places, in their order.
pub(crate) fn make_shares(
    alloc: Global,
    geometry: &Geometry,
    commands: &Arc<Commands, Global>,
    places: Vec<Vec<usize>>,
) -> Result<Vec<Share>, AllocError>
    requires { All (λ row. AreDoable geometry.now
        (arc_value commands.now) (items_of row)) places.items }
    ensures fit { IfOk result (λ shares. All (HasFitShare geometry.now) shares.items) }
    ensures work { IfOk result
        (λ shares. map work_in shares.items
        ≡ map (with_commands (arc_value commands.now)) places.items) }
{
    let mut shares = Vec::with_capacity(alloc, places.len())?;
    let mut places = VecDeque::from_vec(places);
    while let Some(row) = places.pop_front() {
        shares.push_reserved(make_share(alloc, geometry, commands, row)?);
    }
    Ok(shares)
}
