//! What an open handle has.
use crate::keeper::Keeper;
use crate::seeker::Seeker;

/// The right to change a map, or a reader of it.
#[derive(Drop)]
pub enum Seat {
    Keeper(Keeper),
    Seeker(Seeker),
}
