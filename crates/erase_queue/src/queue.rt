ghost use Rattle.std.specs.Prelude.{◌≡◌, ◌<◌, IfOk, IfSome, All, length, MatchBool, MatchOption};
ghost use Rattle.crossbeam_queue.specs.Passes.{view, IsPassOf as IsPortOf};
ghost use Rattle.erase_queue.specs.{Moves.DidPut, Moves.FoundFull, Rule.dealer, Rule.counter};
ghost use Rattle.erase_queue.specs.Queue.{limit_of, sight_of, IsPassOf, IsNewPass, WasPut, WasFull, WasTaken, WasEmpty};

use crate::pass::QueuePass;
use crate::rule::{Begin, CountUp, Deal, Numbers, Put, Take};
use crate::sight::Sight;
use crossbeam_queue::Pass;
use std::alloc::{AllocError, Global};
use std::sync::Wait;

/// The numbers of blocks that are drained and not yet erased, shared by all brooms.
#[derive(Drop)]
pub struct EraseQueue {
    numbers: Numbers,
}

// Fixes what the numbers are below.
fn fix_limit(numbers: &Numbers, first: &mut Pass<usize, Sight>, limit: usize)
    requires port { IsPortOf numbers.now first.old }
    requires view { view first.old ≡ counter 0 }
    ensures port { IsPortOf numbers.now first.new }
    ensures view { view first.new ≡ dealer (counter limit) }
{
    for _ in 0..limit {
        numbers.another::<CountUp>(first);
    }
    numbers.another::<Begin>(first);
}

impl EraseQueue {
    /// A queue with room for `limit` numbers, all below the limit, and a pass for each broom. No other call takes memory.
    #[tactic(auto, using(crate::proofs::Course::begins))]
    pub fn new(
        alloc: Global,
        limit: usize,
        brooms: usize,
    ) -> Result<(EraseQueue, Vec<QueuePass>), AllocError>
        requires { 0 < limit }
        ensures limit { IfOk result (λ made. limit_of made.0 ≡ limit) }
        ensures count { IfOk result (λ made. length made.1.items ≡ brooms) }
        ensures passes { IfOk result (λ made. All (IsNewPass made.0) made.1.items) }
    {
        let mut passes = Vec::with_capacity(alloc, brooms)?;
        let (numbers, mut first) = Numbers::ruled(alloc, limit)?;
        fix_limit(&numbers, &mut first, limit);
        for _ in 0..brooms {
            passes.push_reserved(QueuePass::new(numbers.another::<Deal>(&mut first)));
        }
        Ok((EraseQueue { numbers }, passes))
    }

    /// All numbers are below it, and there is room for as many.
    pub fn limit(&self) -> usize
        ensures { result ≡ limit_of self.now }
    {
        self.numbers.capacity()
    }

    /// Puts a number after all others. Returns false if there was no room for it.
    pub fn put(&self, rt: &impl Wait, pass: &mut QueuePass, block: usize) -> bool
        requires block { block < limit_of self.now }
        requires pass { IsPassOf self.now pass.old }
        ensures put { MatchBool result (WasPut pass.old block pass.new)
            (WasFull (limit_of self.now) pass.old pass.new) }
        ensures pass { IsPassOf self.now pass.new }
    {
        let stands = self.push(rt, pass, block);
        if !stands {
            pass.count_full();
        }
        stands
    }

    // The same, and no refusal is counted.
    fn push(&self, rt: &impl Wait, pass: &mut QueuePass, block: usize) -> bool
        requires block { block < limit_of self.now }
        requires pass { IsPassOf self.now pass.old }
        ensures pushed { MatchBool result (DidPut (sight_of pass.old) block (sight_of pass.new))
            (FoundFull (sight_of pass.old) (limit_of self.now) (sight_of pass.new)) }
        ensures pass { IsPassOf self.now pass.new }
        ensures counts { pass.new ≡ record pass.old { port = pass.new.port } }
    {
        let pushed = self.numbers.push_as::<Put, _>(rt, &mut pass.port, block);
        pushed.is_ok()
    }

    /// Takes the number that was put first.
    #[tactic(auto, using(crate::proofs::Course::puts, crate::proofs::Course::takes, crate::proofs::Course::learns))]
    pub fn take(&self, rt: &impl Wait, pass: &mut QueuePass) -> Option<usize>
        requires { IsPassOf self.now pass.old }
        ensures taken { MatchOption result (WasEmpty pass.old pass.new)
            (λ block. WasTaken pass.old block pass.new) }
        ensures block { IfSome result (λ block. block < limit_of self.now) }
        ensures pass { IsPassOf self.now pass.new }
    {
        let taken = self.numbers.pop_as::<Take, _>(rt, &mut pass.port);
        if taken.is_none() {
            pass.count_empty();
        }
        taken
    }
}
