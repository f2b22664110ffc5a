//! Rows of calls with their answers.
pub(crate) mod broom_queue_rows;
pub(crate) mod broom_rows;
pub(crate) mod drain_next_rows;
pub(crate) mod full_queue;
pub(crate) mod host_rows;
pub(crate) mod playing_rows;
pub(crate) mod queue_rows;
pub(crate) mod refusals;
pub(crate) mod row_calls;
