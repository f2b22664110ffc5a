//! The actors that aren't in a call.
use crate::actors::{Actor, Home, drop_actor};

/// Three hosts and two brooms.
#[derive(Clone, Copy)]
pub(crate) enum Who {
    A,
    B,
    C,
    First,
    Second,
}

/// The place of an actor that is in a call is empty, and so is that of an actor that doesn't exist.
#[derive(Drop)]
pub(crate) struct IdleActors<'a, H: Home> {
    pub a: Option<Actor<'a, H>>,
    pub b: Option<Actor<'a, H>>,
    pub c: Option<Actor<'a, H>>,
    pub first: Option<Actor<'a, H>>,
    pub second: Option<Actor<'a, H>>,
}

impl<'a, H: Home> IdleActors<'a, H> {
    fn place(&mut self, who: Who) -> &mut Option<Actor<'a, H>> {
        match who {
            Who::A => &mut self.a,
            Who::B => &mut self.b,
            Who::C => &mut self.c,
            Who::First => &mut self.first,
            Who::Second => &mut self.second,
        }
    }

    /// An actor begins a call, or makes no more calls.
    pub(crate) fn take(&mut self, who: Who) -> Option<Actor<'a, H>> {
        self.place(who).take()
    }

    /// An actor ends its call. Returns whether its place was empty.
    pub(crate) fn put(&mut self, who: Who, actor: Actor<'a, H>) -> bool {
        !drop_actor(self.place(who).replace(actor))
    }

    /// Whether no host is in a call.
    pub(crate) fn has_hosts(&self) -> bool {
        self.a.is_some() && self.b.is_some() && self.c.is_some()
    }

    /// Whether no broom except this one is in a call.
    pub(crate) fn has_other_broom(&self, broom: Who) -> bool {
        match broom {
            Who::First => self.second.is_some(),
            _ => self.first.is_some(),
        }
    }

    /// Two hosts, one of which may hold a page, two brooms, or a holder of a page and a broom meet, and end their calls. Returns nothing
    /// if one of them isn't there, and false for other pairs, which don't meet.
    pub(crate) fn meet(&mut self, first: Who, second: Who) -> Option<bool> {
        let a = self.take(first)?;
        let Some(b) = self.take(second) else {
            self.put(first, a);
            return None;
        };
        let (a, b, have_met) = a.meet(b);
        self.put(first, a);
        self.put(second, b);
        Some(have_met)
    }
}
