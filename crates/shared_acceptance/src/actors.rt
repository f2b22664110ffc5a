//! Hosts, holders of pages and brooms at one small device, whose calls return their answers.
ghost use Rattle.std.specs.Prelude.{◌<◌, Option, None};
ghost use Rattle.volume.specs.declared.volume.Volume.{Volume};
ghost use Rattle.volume.specs.Volume.{flash_of, IsBroomReady, IsBroomReady-prop, sectors};
ghost use Rattle.host.specs.Ready.{IsReady};
ghost use Rattle.host.specs.Holding.{Holds};
ghost use Rattle.shared_acceptance.specs.Kept.{IsHome, held_value, Holds-prop};

pub(crate) mod actor_setup;
pub(crate) mod calls;
pub(crate) mod idle_actors;
pub(crate) mod nested_calls;

use crate::actors::calls::{BYTES, Call, Done, number_of, page, read_done};
use broom::{Broom, Erase};
use flash_table::{Gate, NoGate, Pass};
use geometry::Was;
use host::{Held, Holding, NewFault};
use std::marker::{Brand, PhantomData};
use std::sync::Wait;
use volume::Volume;

/// Which device it is.
pub(crate) trait Home {
    ghost home: { Option Volume };
}

impl Home for Brand {
    ghost home = { None };
}

/// A host between two calls.
pub(crate) struct Host<'a, H: Home> {
    pub volume: &'a Volume,
    pub pass: Pass,
    pub of: PhantomData<H>,
    ghost home: { IsHome H.home volume.now },
    ghost ready: { IsReady (flash_of volume.now) pass },
}

impl<H: Home> Drop for Host<'_, H> {
    fn drop(self) {
        let Host {
            volume,
            pass,
            of: _,
        } = self;
        volume.retire(pass);
    }
}

impl<'a, H: Home> Host<'a, H> {
    /// The pass of a host that makes no more calls.
    pub(crate) fn into_pass(self, volume: &Volume) -> Pass
        requires { IsHome H.home volume.now }
        ensures { IsReady (flash_of volume.now) result }
    {
        let Host {
            volume: _,
            pass,
            of: _,
        } = self;
        pass
    }

    fn write<G: Gate>(&mut self, sector: u32, number: u64, gate: &mut G) -> Done
        requires { sector < sectors self.old.volume.now }
    {
        let answer = self
            .volume
            .write_gated(&mut self.pass, sector, &page(number), gate);
        Done::Wrote(answer.ok())
    }

    fn write_new<G: Gate>(&mut self, sector: u32, number: u64, gate: &mut G) -> Done
        requires { sector < sectors self.old.volume.now }
    {
        match self
            .volume
            .write_new_gated(&mut self.pass, sector, &page(number), gate)
        {
            Ok(()) => Done::Wrote(Some(Was::Empty)),
            Err(NewFault::Written) => Done::Wrote(Some(Was::Written)),
            Err(NewFault::NoBlock) => Done::Wrote(None),
        }
    }

    fn trim(&mut self, sector: u32) -> Done
        requires { sector < sectors self.old.volume.now }
    {
        Done::Trimmed(self.volume.trim(&mut self.pass, sector))
    }

    fn read<G: Gate>(&mut self, sector: u32, gate: &mut G) -> Done
        requires { sector < sectors self.old.volume.now }
    {
        let mut out = [99; BYTES];
        let done = self
            .volume
            .read_gated(&mut self.pass, sector, &mut out, gate);
        read_done(done.got, &out, done.tries)
    }

    fn ask(&mut self, sector: u32) -> Done
        requires { sector < sectors self.old.volume.now }
    {
        Done::Asked(self.volume.look(&mut self.pass, sector))
    }

    // Holds the page of a sector.
    fn hold(self, sector: u32) -> (Actor<'a, H>, Done)
        requires { sector < sectors self.volume.now }
    {
        let Host { volume, pass, of } = self;
        match volume.hold(pass, sector) {
            Holding::Held(held) => {
                let place = (held.block(), held.generation());
                let holder = Holder { volume, held, of };
                (Actor::Holder(holder), Done::Holds(Some(place)))
            }
            Holding::Empty(pass) => (Actor::Host(Host { volume, pass, of }), Done::Holds(None)),
        }
    }

    // The answer of a call by which nothing is held.
    fn answer<G: Gate>(&mut self, call: Call, gate: &mut G) -> Done {
        let sectors = self.volume.geometry().sectors();
        match call {
            Call::Write(sector, number) if sector < sectors => self.write(sector, number, gate),
            Call::New(sector, number) if sector < sectors => self.write_new(sector, number, gate),
            Call::Trim(sector) if sector < sectors => self.trim(sector),
            Call::Read(sector) if sector < sectors => self.read(sector, gate),
            Call::Ask(sector) if sector < sectors => self.ask(sector),
            _ => Done::Nothing,
        }
    }

    fn perform<G: Gate>(self, call: Call, gate: &mut G) -> (Actor<'a, H>, Done) {
        let mut host = self;
        let done = match call {
            Call::Hold(sector) if sector < host.volume.geometry().sectors() => {
                return host.hold(sector);
            }
            _ => host.answer(call, gate),
        };
        (Actor::Host(host), done)
    }

    fn meet(&mut self, other: &mut Host<'a, H>) {
        self.volume.meet(&mut self.pass, &mut other.pass)
    }

    // Meets another host, which may hold a page.
    fn meet_one(self, other: Actor<'a, H>) -> (Actor<'a, H>, Actor<'a, H>, bool) {
        let mut host = self;
        match other {
            Actor::Host(second) => {
                let mut second = second;
                host.meet(&mut second);
                (Actor::Host(host), Actor::Host(second), true)
            }
            Actor::Holder(holder) => {
                let holder = holder.meet_host(&mut host);
                (Actor::Host(host), Actor::Holder(holder), true)
            }
            other => (Actor::Host(host), other, false),
        }
    }
}

/// A host that holds a page.
pub(crate) struct Holder<'a, H: Home> {
    pub volume: &'a Volume,
    pub held: Held,
    pub of: PhantomData<H>,
    ghost home: { IsHome H.home volume.now },
    ghost holds: { Holds (flash_of volume.now) held (held_value held) } by { Prim.hlevel Holds-prop },
}

impl<H: Home> Drop for Holder<'_, H> {
    fn drop(self) {
        self.release();
    }
}

impl<'a, H: Home> Holder<'a, H> {
    // The number of the page that is held.
    fn number(&mut self) -> Option<u64> {
        let mut out = [99; BYTES];
        self.volume.copy_into(&mut self.held, &mut out);
        number_of(&out)
    }

    fn word(&mut self) -> u64 {
        self.volume.word(&mut self.held, 0)
    }

    // Looks at the page by its bytes, and by its first word.
    fn look(&mut self) -> Done {
        let number = self.number();
        let word = self.word();
        if number == Some(word) {
            Done::Looked(word)
        } else {
            Done::Torn
        }
    }

    pub(crate) fn release(self) -> Host<'a, H> {
        let Holder { volume, held, of } = self;
        let pass = volume.release(held);
        Host { volume, pass, of }
    }

    fn perform(self, call: Call) -> (Actor<'a, H>, Done) {
        let mut holder = self;
        let done = match call {
            Call::Look => holder.look(),
            Call::Opened => Done::Opened(holder.held.pass().opened().is_some()),
            Call::Release => return (Actor::Host(holder.release()), Done::Released),
            _ => Done::Nothing,
        };
        (Actor::Holder(holder), done)
    }

    // A broom makes a `stand` with the hold.
    fn stand(self, collector: &mut Collector<'a, H>) -> Holder<'a, H> {
        let Holder { volume, held, of } = self;
        let held = volume.stand(held, &mut collector.broom);
        Holder { volume, held, of }
    }

    // Meets another host, and keeps the page.
    fn meet_host(self, host: &mut Host<'a, H>) -> Holder<'a, H> {
        let Holder { volume, held, of } = self;
        let held = volume.meet_holding(held, &mut host.pass);
        Holder { volume, held, of }
    }

    // Meets a host that holds no page, or a broom.
    fn meet_one(self, other: Actor<'a, H>) -> (Actor<'a, H>, Actor<'a, H>, bool) {
        match other {
            Actor::Host(host) => {
                let mut host = host;
                let holder = self.meet_host(&mut host);
                (Actor::Holder(holder), Actor::Host(host), true)
            }
            Actor::Collector(collector) => {
                let mut collector = collector;
                let holder = self.stand(&mut collector);
                (Actor::Holder(holder), Actor::Collector(collector), true)
            }
            other => (Actor::Holder(self), other, false),
        }
    }
}

/// A broom between two calls.
pub(crate) struct Collector<'a, H: Home> {
    pub volume: &'a Volume,
    pub broom: Broom,
    pub of: PhantomData<H>,
    ghost home: { IsHome H.home volume.now },
    ghost ready: { IsBroomReady volume.now broom } by { Prim.hlevel IsBroomReady-prop },
}

impl<H: Home> Drop for Collector<'_, H> {
    fn drop(self) {
        let Collector {
            volume,
            broom,
            of: _,
        } = self;
        volume.retire_broom(broom);
    }
}

impl<'a, H: Home> Collector<'a, H> {
    /// Folds a broom.
    pub(crate) fn fold(self, rt: &impl Wait) {
        let Collector {
            volume,
            broom,
            of: _,
        } = self;
        volume.fold(rt, broom);
    }

    // The result of erasing a block of the device; any other number names no drained block.
    fn erase<G: Gate>(&mut self, block: u32, gate: &mut G) -> Erase {
        if block >= self.volume.geometry().blocks() {
            return Erase::Stale;
        }
        self.volume.erase(&mut self.broom, block, gate)
    }

    fn answer<G: Gate>(&mut self, rt: &impl Wait, call: Call, gate: &mut G) -> Done {
        match call {
            Call::Drain => Done::Drained(self.volume.drain(&mut self.broom, gate)),
            Call::Erase(block) => Done::Erased(self.erase(block, gate)),
            Call::DrainOne => Done::Drained(self.volume.drain_one(rt, &mut self.broom, gate)),
            Call::EraseOne => Done::Erased(self.volume.erase_one(rt, &mut self.broom, gate)),
            Call::DrainNext => Done::Drained(self.volume.drain_next(&mut self.broom, gate)),
            Call::DrainNextOne => {
                Done::Drained(self.volume.drain_next_one(rt, &mut self.broom, gate))
            }
            Call::DrainDead => Done::Drained(self.volume.drain_dead(&mut self.broom, gate)),
            Call::DrainDeadOne => {
                Done::Drained(self.volume.drain_dead_one(rt, &mut self.broom, gate))
            }
            Call::Restock => Done::Restocked(self.volume.restock(&mut self.broom)),
            _ => Done::Nothing,
        }
    }

    fn meet(&mut self, other: &mut Collector<'a, H>) {
        self.volume.meet_brooms(&mut self.broom, &mut other.broom)
    }

    // Meets another broom.
    fn meet_one(self, other: Actor<'a, H>) -> (Actor<'a, H>, Actor<'a, H>, bool) {
        let mut collector = self;
        match other {
            Actor::Collector(second) => {
                let mut second = second;
                collector.meet(&mut second);
                (Actor::Collector(collector), Actor::Collector(second), true)
            }
            other => (Actor::Collector(collector), other, false),
        }
    }
}

/// What an actor is between two calls.
#[derive(Clone, Copy)]
pub(crate) enum Role {
    Host,
    Holder,
    Broom,
}

/// Who takes part.
#[derive(Drop)]
pub(crate) enum Actor<'a, H: Home> {
    Host(Host<'a, H>),
    Holder(Holder<'a, H>),
    Collector(Collector<'a, H>),
}

impl<'a, H: Home> Actor<'a, H> {
    /// A call, with its answer.
    pub(crate) fn perform<G: Gate>(
        self,
        rt: &impl Wait,
        call: Call,
        gate: &mut G,
    ) -> (Actor<'a, H>, Done) {
        match self {
            Actor::Host(host) => host.perform(call, gate),
            Actor::Holder(holder) => holder.perform(call),
            Actor::Collector(collector) => {
                let mut collector = collector;
                let done = collector.answer(rt, call, gate);
                (Actor::Collector(collector), done)
            }
        }
    }

    /// Two hosts, one of which may hold a page; two brooms; or a holder of a page and a broom. Returns false for other pairs, which
    /// don't meet.
    pub(crate) fn meet(self, other: Actor<'a, H>) -> (Actor<'a, H>, Actor<'a, H>, bool) {
        match self {
            Actor::Host(host) => host.meet_one(other),
            Actor::Holder(holder) => holder.meet_one(other),
            Actor::Collector(collector) => collector.meet_one(other),
        }
    }

    pub(crate) fn role(&self) -> Role {
        match self {
            Actor::Host(_) => Role::Host,
            Actor::Holder(_) => Role::Holder,
            Actor::Collector(_) => Role::Broom,
        }
    }

    /// The block of a sector's page, or nothing for an empty sector. A host holds the page only for a moment.
    pub(crate) fn find(self, rt: &impl Wait, sector: u32) -> (Actor<'a, H>, Option<u32>) {
        let (actor, done) = self.perform(rt, Call::Hold(sector), &mut NoGate);
        let Done::Holds(Some((block, _))) = done else {
            return (actor, None);
        };
        let (actor, _) = actor.perform(rt, Call::Release, &mut NoGate);
        (actor, Some(block))
    }

    /// How many sectors have their page in each block, found by a host.
    pub(crate) fn count_live(self, rt: &impl Wait) -> (Actor<'a, H>, [u32; 10]) {
        let mut actor = self;
        let mut counts = [0u32; 10];
        for sector in 0..3 {
            let (same, found) = actor.find(rt, sector);
            actor = same;
            if let Some(block) = found
                && let Some(count) = counts.get_mut(block as usize)
            {
                *count = count.wrapping_add(1);
            }
        }
        (actor, counts)
    }
}

/// Drops an actor, if there is one. Returns whether there was.
pub(crate) fn drop_actor<H: Home>(actor: Option<Actor<'_, H>>) -> bool {
    actor.is_some()
}

/// A call of the actor at a place, which is empty only during the call.
pub(crate) fn call_at<H: Home>(
    place: &mut Option<Actor<'_, H>>,
    rt: &impl Wait,
    call: Call,
) -> Done {
    gated_call_at(place, rt, call, &mut NoGate)
}

/// The same with a gate.
pub(crate) fn gated_call_at<H: Home, G: Gate>(
    place: &mut Option<Actor<'_, H>>,
    rt: &impl Wait,
    call: Call,
    gate: &mut G,
) -> Done {
    let Some(actor) = place.take() else {
        return Done::Nothing;
    };
    let (actor, done) = actor.perform(rt, call, gate);
    drop_actor(place.replace(actor));
    done
}
