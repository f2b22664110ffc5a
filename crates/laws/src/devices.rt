//! Laws of dies, of their numbers, and of a device for one thread.
pub(crate) mod dies;
pub(crate) mod limits;
pub(crate) mod refusals;
pub(crate) mod stocks;
pub(crate) mod stores;
