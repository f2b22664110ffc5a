//! How a broom passes its drained blocks on: by its place in the queue, or set aside if the queue is full.
ghost use Rattle.std.specs.Prelude.{◌≡◌, ◌≢◌, ℕ, ◌<◌, ◌≤◌, ◌^◌, None, IfSome, MatchBool, MatchOption};
ghost use Rattle.erase_queue.specs.Queue.{limit_of};
ghost use Rattle.broom.specs.Handing.{IsBelow, IsQueued, HandedOn, Relieved, Stuck, Fetched, FoundNone, IsElse, aside_of};
ghost use Rattle.broom.specs.declared.answer.Drain.TheVariants as drain;

use crate::answer::Drain;
use crate::broom::Broom;
use erase_queue::EraseQueue;
use std::sync::Wait;

// Puts a block's number into the queue, or sets it aside if the queue is full.
pub(crate) fn hand_on(queue: &EraseQueue, rt: &impl Wait, broom: &mut Broom, block: u32)
    requires queued { IsQueued queue.now broom.old }
    requires aside { aside_of broom.old ≡ None }
    requires block { block < limit_of queue.now }
    ensures handed { HandedOn (limit_of queue.now) broom.old block broom.new }
    ensures rest { IsElse broom.old broom.new }
    ensures queued { IsQueued queue.now broom.new }
{
    if !queue.put(rt, &mut broom.place, block as usize) {
        broom.aside = Some(block);
    }
}

// Hands on the block that a drain gave, if it gave one.
pub(crate) fn pass_on(queue: &EraseQueue, rt: &impl Wait, broom: &mut Broom, answer: Drain)
    requires queued { IsQueued queue.now broom.old }
    requires aside { aside_of broom.old ≡ None }
    requires block { IsBelow (limit_of queue.now) answer }
    ensures drained { (block copied : ℕ) → answer ≡ drain.Drained block copied
        → HandedOn (limit_of queue.now) broom.old block broom.new }
    ensures none { ((block copied : ℕ) → answer ≢ drain.Drained block copied)
        → broom.new ≡ broom.old }
    ensures rest { IsElse broom.old broom.new }
    ensures queued { IsQueued queue.now broom.new }
{
    if let Drain::Drained { block, .. } = answer {
        hand_on(queue, rt, broom, block);
    }
}

// Puts what is set aside into the queue. Returns false if the queue is full.
pub(crate) fn relieve(queue: &EraseQueue, rt: &impl Wait, broom: &mut Broom) -> bool
    requires { IsQueued queue.now broom.old }
    ensures relieved { MatchBool result (Relieved broom.old broom.new)
        (Stuck (limit_of queue.now) broom.old broom.new) }
    ensures rest { IsElse broom.old broom.new }
    ensures queued { IsQueued queue.now broom.new }
{
    let Some(block) = broom.aside else {
        return true;
    };
    if !queue.put(rt, &mut broom.place, block as usize) {
        return false;
    }
    broom.aside = None;
    true
}

// Takes what is set aside, or else the queue's first number.
pub(crate) fn fetch(queue: &EraseQueue, rt: &impl Wait, broom: &mut Broom) -> Option<u32>
    requires queued { IsQueued queue.now broom.old }
    requires limit { limit_of queue.now ≤ 2 ^ 32 }
    ensures fetched { MatchOption result (FoundNone broom.old broom.new)
        (λ block. Fetched broom.old block broom.new) }
    ensures block { IfSome result (λ block. block < limit_of queue.now) }
    ensures rest { IsElse broom.old broom.new }
    ensures queued { IsQueued queue.now broom.new }
{
    if let Some(block) = broom.aside {
        broom.aside = None;
        return Some(block);
    }
    let Some(block) = queue.take(rt, &mut broom.place) else {
        return None;
    };
    Some(block as u32)
}
