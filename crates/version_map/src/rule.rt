//! The rule that the map's table is made with.
use crate::shape::MapShape;
use crate::sighting::Sighting;
use atomic_table::TableRule;

/// One seat publishes, and all others have seen a part of what it has published.
pub struct OnePublisher;

impl TableRule<(), Sighting, MapShape> for OnePublisher {
    ghost use Rattle.std.specs.Prelude.{true, []};
    ghost use Rattle.version_map.specs.Rule.{FollowsHistory};

    ghost holds = { FollowsHistory };

    ghost first = { λ shape. record { seen = []; told = []; looks = 0; publishes = true; pages = shape.pages } };
}
