//! What an open handle has.
use crate::layer::Layer;
use durable::Mount;
use nand::Driver;

/// A mount under way, the layer once it is mounted, or the driver over it.
#[derive(Drop)]
pub enum Seat {
    Mounting(Mount),
    Mounted(Layer),
    Driving(Driver),
}
