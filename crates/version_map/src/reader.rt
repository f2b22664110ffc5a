ghost use Rattle.std.specs.Prelude.{◌≡◌, [], true, false};

use crate::sighting::Sighting;
use atomic_table::Seat;

/// What a thread reads by. It can be moved to another thread, and dropped at any time.
#[derive(Drop)]
pub struct Reader {
    pub(crate) seat: Seat<(), Sighting>,
    ghost bare: { seat.me.1 ≡ [] },
    ghost reads: { seat.me.0.publishes ≡ false },
}

/// The right to change the map.
#[derive(Drop)]
pub struct Publisher {
    pub(crate) seat: Seat<(), Sighting>,
    ghost bare: { seat.me.1 ≡ [] },
    ghost publishes: { seat.me.0.publishes ≡ true },
}
