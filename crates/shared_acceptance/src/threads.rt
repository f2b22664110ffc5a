//! Many threads at the same time.
pub(crate) mod many_threads;
pub(crate) mod queue_threads;
pub(crate) mod queue_users;
pub(crate) mod thread_notes;
pub(crate) mod thread_values;
