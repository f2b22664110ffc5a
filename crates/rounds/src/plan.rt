ghost use Rattle.std.specs.Prelude.{◌≡◌, ℕ, ◌<◌, ◌≤◌, All, map, [], length, replicate, slice_index, IfOk};
ghost use Rattle.std.specs.List.{range_with_len};
ghost use Rattle.rounds.specs.Plans.{ends_of, items_of, places_for};

use std::alloc::{AllocError, Global};
use trace::{Commands, Op};

/// Which worker does which lines of a trace, and where its rounds end.
#[derive(Drop)]
pub struct Plan {
    /// For each worker the indices of its lines among the commands, in order.
    pub places: Vec<Vec<usize>>,
    /// The indices of the meetings, and then the number of all commands.
    pub ends: Vec<usize>,
}

impl Plan {
    /// Which lines of a trace each worker has, and where its rounds end.
    pub fn new(alloc: Global, commands: &Commands, hosts: u32) -> Result<Plan, AllocError>
        requires { All (λ c. c.worker < hosts) commands.now }
        ensures places { IfOk result
            (λ plan. map items_of plan.places.items ≡ map
            (λ t. places_for t commands.now) (range_with_len 0 hosts)) }
        ensures ends { IfOk result (λ plan. plan.ends.items ≡ ends_of commands.now) }
    {
        let mut places = empty_rows(alloc, hosts)?;
        let mut ends = Vec::new(alloc);
        for i in 0..commands.len() {
            let command = commands.command(i);
            match command.op {
                Op::Meet => ends.push(i)?,
                _ => places[command.worker as usize].push(i)?,
            }
        }
        ends.push(commands.len())?;
        Ok(Plan { places, ends })
    }
}

// A row for each worker, with no place in it.
fn empty_rows(alloc: Global, hosts: u32) -> Result<Vec<Vec<usize>>, AllocError>
    ensures { IfOk result (λ rows. map items_of rows.items ≡ replicate hosts []) }
{
    let mut rows = Vec::with_capacity(alloc, hosts as usize)?;
    for _ in 0..hosts {
        rows.push_reserved(Vec::new(alloc));
    }
    Ok(rows)
}

/// The index of the first line of a worker's row, from index `from` on, that doesn't come before `end`.
pub fn past(row: &[usize], from: usize, end: usize) -> usize
    requires { from ≤ length row.now }
    ensures later { from ≤ result }
    ensures within { result ≤ length row.now }
    ensures before { (k : ℕ) → from ≤ k → k < result → slice_index row.now k < end }
    ensures behind { result < length row.now → end ≤ slice_index row.now result }
{
    let mut to = from;
    while to < row.len() && row[to] < end {
        to += 1;
    }
    to
}
