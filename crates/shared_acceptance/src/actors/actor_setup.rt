//! Makes actors from the passes and brooms of a device, and takes them apart again.
ghost use Rattle.std.specs.Prelude.{◌≡◌, ◌-◌, All, length};
ghost use Rattle.host.specs.Ready.{IsReady};
ghost use Rattle.volume.specs.Volume.{IsBroomReady, flash_of};
ghost use Rattle.shared_acceptance.specs.Kept.{IsHome};

use crate::actors::idle_actors::IdleActors;
use crate::actors::{Actor, Collector, Home, Host, drop_actor};
use broom::Broom;
use flash_table::Pass;
use std::marker::PhantomData;
use std::sync::Wait;
use volume::Volume;

/// The host of the last pass, if there is one.
pub(crate) fn next_host<'a, H: Home>(
    volume: &'a Volume,
    passes: &mut Vec<Pass>,
) -> Option<Actor<'a, H>>
    requires home { IsHome H.home volume.now }
    requires ready { All (IsReady (flash_of volume.now)) passes.old.items }
    ensures { All (IsReady (flash_of volume.now)) passes.new.items }
{
    let pass = passes.pop()?;
    Some(Actor::Host(Host {
        volume,
        pass,
        of: PhantomData,
    }))
}

/// The last broom, if there is one.
pub(crate) fn next_broom<'a, H: Home>(
    volume: &'a Volume,
    brooms: &mut Vec<Broom>,
) -> Option<Actor<'a, H>>
    requires home { IsHome H.home volume.now }
    requires ready { All (IsBroomReady volume.now) brooms.old.items }
    ensures count { length brooms.new.items ≡ length brooms.old.items - 1 }
    ensures ready { All (IsBroomReady volume.now) brooms.new.items }
{
    let broom = brooms.pop()?;
    Some(Actor::Collector(Collector {
        volume,
        broom,
        of: PhantomData,
    }))
}

/// Returns a host's pass if there is room for it, and otherwise retires it.
pub(crate) fn give_back<H: Home>(
    volume: &Volume,
    actor: Option<Actor<'_, H>>,
    passes: &mut Vec<Pass>,
)
    requires home { IsHome H.home volume.now }
    requires ready { All (IsReady (flash_of volume.now)) passes.old.items }
    ensures { All (IsReady (flash_of volume.now)) passes.new.items }
{
    let Some(actor) = actor else {
        return;
    };
    let host = match actor {
        Actor::Host(host) => host,
        Actor::Holder(holder) => holder.release(),
        other => {
            drop_actor(Some(other));
            return;
        }
    };
    if passes.len() < passes.capacity() {
        passes.push_reserved(host.into_pass(volume));
    }
}

/// Folds a broom.
pub(crate) fn fold<H: Home>(rt: &impl Wait, actor: Option<Actor<'_, H>>) {
    let Some(actor) = actor else {
        return;
    };
    match actor {
        Actor::Collector(collector) => collector.fold(rt),
        other => {
            drop_actor(Some(other));
        }
    }
}

/// Ends all actors: the brooms are folded, and the hosts' passes are returned.
pub(crate) fn end_all<H: Home>(
    rt: &impl Wait,
    volume: &Volume,
    idle: IdleActors<'_, H>,
    passes: &mut Vec<Pass>,
)
    requires home { IsHome H.home volume.now }
    requires ready { All (IsReady (flash_of volume.now)) passes.old.items }
    ensures { All (IsReady (flash_of volume.now)) passes.new.items }
{
    let IdleActors {
        a,
        b,
        c,
        first,
        second,
    } = idle;
    fold(rt, first);
    fold(rt, second);
    give_back(volume, a, passes);
    give_back(volume, b, passes);
    give_back(volume, c, passes);
}
