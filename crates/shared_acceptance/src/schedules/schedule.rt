//! Makes the steps of a row one after another, and at the points of a gate.
use crate::actors::calls::{Call, Done};
use crate::actors::idle_actors::{IdleActors, Who};
use crate::actors::{Home, drop_actor};
use flash_table::{Gate, NoGate, Point};
use std::sync::Wait;

/// A call, with the answer that it has to return.
pub(crate) type ExpectedCall = (Call, Done);

/// A step of a row.
#[derive(Clone, Copy)]
pub(crate) enum Step {
    /// A call during which nobody else acts.
    By(Who, ExpectedCall),
    /// A call, and the row's calls of others at a point of its gate: this many at each visit.
    During(Who, ExpectedCall, Point, usize),
    /// Two hosts, one of which may hold a page; two brooms; or a holder of a page and a broom.
    Meet(Who, Who),
    /// An actor that makes no more calls.
    Leave(Who),
}

/// The actors, what to do at a gate, and whether each call so far returned its expected answer.
#[derive(Drop)]
pub(crate) struct Schedule<'a, 's, R: Wait, H: Home> {
    pub rt: &'a R,
    pub idle: IdleActors<'a, H>,
    pub point: Point,
    pub calls: &'s [(Who, ExpectedCall)],
    pub each: usize,
    pub right: bool,
}

impl<'s, R: Wait, H: Home> Schedule<'_, 's, R, H> {
    fn expect(&mut self, holds: bool) {
        self.right = self.right && holds;
    }

    fn call(&mut self, who: Who, expected: ExpectedCall) {
        let Some(actor) = self.idle.take(who) else {
            return self.expect(false);
        };
        let (actor, done) = actor.perform(self.rt, expected.0, &mut NoGate);
        let is_back = self.idle.put(who, actor);
        self.expect(is_back && done == expected.1);
    }

    // A call that is gated by the schedule. Afterwards everything to do at its gate has been done.
    fn call_gated(&mut self, who: Who, expected: ExpectedCall) {
        let Some(actor) = self.idle.take(who) else {
            return self.expect(false);
        };
        let rt = self.rt;
        let (actor, done) = actor.perform(rt, expected.0, self);
        let all = self.calls.is_empty();
        let is_back = self.idle.put(who, actor);
        self.expect(is_back && all && done == expected.1);
    }

    /// One step.
    pub(crate) fn step(&mut self, step: Step) {
        match step {
            Step::By(who, expected) => self.call(who, expected),
            Step::During(who, expected, point, each) => {
                self.point = point;
                self.each = each;
                self.call_gated(who, expected);
            }
            Step::Meet(first, second) => {
                let have_met = self.idle.meet(first, second) == Some(true);
                self.expect(have_met);
            }
            Step::Leave(who) => {
                drop_actor(self.idle.take(who));
            }
        }
    }
}

impl<R: Wait, H: Home> Gate for Schedule<'_, '_, R, H> {
    fn at(&mut self, point: Point) {
        if point != self.point || self.each > self.calls.len() {
            return;
        }
        let (now, later) = self.calls.split_at(self.each);
        self.calls = later;
        for (who, expected) in now {
            self.call(*who, *expected);
        }
    }
}
