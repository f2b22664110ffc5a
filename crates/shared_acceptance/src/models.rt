//! Plain models of the device, and what each call has to do.
pub(crate) mod array_model;
pub(crate) mod broom_model;
pub(crate) mod oracle;
pub(crate) mod tally;
pub(crate) mod words;
