//! The actors of a schedule, and the gates at which they make calls while others are in a call: at `OuterGate` an actor makes a call that is
//! gated by `InnerGate`, and at `InnerGate` one that is not gated.
use crate::actors::calls::{Call, Done};
use crate::actors::idle_actors::{IdleActors, Who};
use crate::actors::{Actor, Home, Role};
use crate::models::oracle::{Looks, Next, Oracle};
use crate::schedules::drawn::{Begun, actor_of};
use flash_table::{Gate, NoGate, Point};
use std::sync::Wait;

/// The actors that aren't in a call, the oracle, and what the innermost gated call has looked at.
pub(crate) struct InnerGate<'a, R: Wait, H: Home> {
    pub rt: &'a R,
    pub idle: IdleActors<'a, H>,
    pub oracle: Oracle,
    pub looks: Looks,
}

impl<'a, R: Wait, H: Home> InnerGate<'a, R, H> {
    // An actor that begins a call, unless it is in one, and the call.
    fn begin(&mut self) -> Option<(Actor<'a, H>, Begun)> {
        let k = self.oracle.draw_actor();
        let actor = self.idle.take(actor_of(k))?;
        let begun = self.oracle.begin(k, actor.role());
        Some((actor, begun))
    }

    // An actor ends its call. Its place is empty, since nobody else takes it.
    fn put(&mut self, who: Who, actor: Actor<'a, H>) {
        let was_empty = self.idle.put(who, actor);
        self.oracle.array.expect(was_empty);
    }

    // How many sectors have their page in each block, if an idle host can look.
    fn count_live(&mut self) -> Option<[u32; 10]> {
        for k in 0..3 {
            let who = actor_of(k);
            let Some(actor) = self.idle.take(who) else {
                continue;
            };
            let can_look = matches!(actor.role(), Role::Host);
            let (actor, live) = actor.count_live(self.rt);
            self.put(who, actor);
            if can_look {
                return Some(live);
            }
        }
        None
    }

    // A drain found nothing to gain. This is checked if the other broom isn't in a call.
    fn check_no_gain(&mut self, begun: Begun) {
        if self.idle.has_other_broom(actor_of(begun.k))
            && let Some(live) = self.count_live()
        {
            self.oracle.check_no_gain(&live);
        }
    }

    // What remains to be done after a call has returned.
    fn follow(&mut self, next: Next, begun: Begun, actor: Actor<'a, H>) -> Actor<'a, H> {
        match next {
            Next::Nothing => actor,
            Next::Find => {
                let (actor, found) = actor.find(self.rt, begun.drawn.sector);
                self.oracle.array.fill(found);
                actor
            }
            Next::Look => {
                let (actor, done) = actor.perform(self.rt, Call::Look, &mut NoGate);
                self.oracle.check_held(begun, done);
                actor
            }
            Next::Release => {
                self.oracle.release(begun);
                actor.perform(self.rt, Call::Release, &mut NoGate).0
            }
            Next::Count => {
                self.check_no_gain(begun);
                actor
            }
        }
    }

    // A call with these looks has returned this. The actor ends its call.
    fn finish(&mut self, begun: Begun, actor: Actor<'a, H>, done: Done, looks: Looks) {
        let are_idle = self.idle.has_hosts();
        let next = self.oracle.check(begun, done, &looks, are_idle);
        let actor = self.follow(next, begun, actor);
        self.put(actor_of(begun.k), actor);
    }

    // One ungated call of an idle actor.
    fn step_alone(&mut self) {
        let Some((actor, begun)) = self.begin() else {
            return;
        };
        let numbers = self.oracle.array.numbers;
        let (actor, done) = actor.perform(self.rt, begun.call, &mut NoGate);
        self.finish(begun, actor, done, Looks::alone(numbers, done));
    }

    // Two idle actors meet: two hosts, two brooms, or a holder of a page and a host or a broom.
    fn meet(&mut self) {
        let first = self.oracle.draw_actor();
        let second = self.oracle.draw_actor();
        let met = self.idle.meet(actor_of(first), actor_of(second));
        self.oracle.tally.hosts.note_meeting(met.is_some());
    }
}

impl<R: Wait, H: Home> Gate for InnerGate<'_, R, H> {
    fn at(&mut self, point: Point) {
        let numbers = self.oracle.array.numbers;
        self.looks.note(point, &numbers);
        for _ in 0..self.oracle.draw_burst(point) {
            self.step_alone();
        }
        if self.oracle.draw_meeting() {
            self.meet();
        }
    }
}

/// The inner gate, while an actor is in a call, with what this call has looked at.
pub(crate) struct OuterGate<'a, R: Wait, H: Home> {
    pub inner: InnerGate<'a, R, H>,
    pub looks: Looks,
}

impl<'a, R: Wait, H: Home> OuterGate<'a, R, H> {
    // One call that is gated by the inner gate.
    fn step_gated(&mut self) {
        let Some((actor, begun)) = self.inner.begin() else {
            return;
        };
        let rt = self.inner.rt;
        self.inner.looks = Looks::none();
        let (actor, done) = actor.perform(rt, begun.call, &mut self.inner);
        let looks = self.inner.looks;
        self.inner.finish(begun, actor, done, looks);
    }

    /// One call that is gated by all of this.
    pub(crate) fn step(&mut self) {
        let Some((actor, begun)) = self.inner.begin() else {
            return;
        };
        let rt = self.inner.rt;
        self.looks = Looks::none();
        let (actor, done) = actor.perform(rt, begun.call, self);
        let looks = self.looks;
        self.inner.finish(begun, actor, done, looks);
    }
}

impl<R: Wait, H: Home> Gate for OuterGate<'_, R, H> {
    fn at(&mut self, point: Point) {
        let numbers = self.inner.oracle.array.numbers;
        self.looks.note(point, &numbers);
        for _ in 0..self.inner.oracle.draw_burst(point) {
            self.step_gated();
        }
    }
}
