//! The rule that a table of this crate's seats is made with.
use crate::view::View;
use atomic_table::TableRule;
use geometry::Geometry;

/// The rule of a shared device.
pub struct Device;

impl TableRule<(), View, Geometry> for Device {
    ghost use Rattle.geometry.specs.Geometry.{numbers_of};
    ghost use Rattle.flash_rule.specs.Seats.{Ruled, dealer};

    ghost holds = { λ geometry. Ruled (numbers_of geometry) };

    ghost first = { λ geometry. dealer (numbers_of geometry) };
}
