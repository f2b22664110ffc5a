//! Calls that interleave at each point of a gate.
pub(crate) mod drawn;
pub(crate) mod draws;
pub(crate) mod erase_beside_a_read;
pub(crate) mod host_races;
pub(crate) mod random_schedules;
pub(crate) mod schedule;
pub(crate) mod sizes;
