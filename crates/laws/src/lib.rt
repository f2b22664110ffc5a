//! Laws of the definitions that contracts rest on. Each function has no code: its clauses say where a definition holds and where it doesn't, so that
//! none of them may say more or less than its sentence.
#![tactic(auto)]

mod arrays;
mod brooms;
mod devices;
mod hosts;
mod plays;
mod tables;
mod traces;

pub use arrays::an_array_after_calls;
pub use arrays::histories::{beginnings_of_histories, calls_of_hosts, lists_of_players};
pub use arrays::steps::{calls_of_brooms, holds_and_erases, steps_of_an_array};
pub use brooms::broom_results::{
    drains_by_a_survey, drains_of_dead_blocks, results_of_a_drain, results_of_an_erase,
    turns_with_a_queue,
};
pub use brooms::broom_turns::{brooms_of_a_run, turns_of_a_broom};
pub use brooms::{a_drain_and_its_survey, a_survey_and_its_victim, marks_of_a_survey};
pub use devices::dies::{a_die_after_a_command, bytes_of_a_die, pages_of_a_block};
pub use devices::limits::{
    faults_of_numbers, numbers_within_limits, pages_and_states_of_devices, words_of_tables,
};
pub use devices::refusals::refused_writes;
pub use devices::stocks::{
    calls_of_a_stock, collections_of_a_stock, counts_of_a_stock, pages_left_in_a_stock,
    roles_of_blocks,
};
pub use devices::stores::{
    commands_on_a_store, counts_of_a_layer, maps_of_a_store, rooms_of_a_store,
};
pub use hosts::host_results::records_of_hosts;
pub use hosts::{meetings_of_players, writes_of_hosts};
pub use plays::played_rounds::runs_of_workers;
pub use plays::players::{lines_and_answers_of_workers, workers_of_a_round};
pub use plays::tallies::{counts_of_calls, what_a_broom_has_done};
pub use plays::turns::{
    a_run_by_workers, brooms_of_a_round, calls_behind_a_drain, outputs_by_workers,
};
pub use plays::{moves_of_brooms, steps_of_brooms, steps_of_passes};
pub use tables::queues::{numbers_in_a_queue, numbers_put_and_taken};
pub use tables::rules::{sights_of_a_queue, views_of_a_table};
pub use tables::volumes::{brooms_between_calls, closes_of_a_volume, holds_of_pages};
pub use tables::{
    blocks_of_a_seat, erases_of_a_seat, pins_and_victims_of_a_seat, seats_of_a_device,
    words_of_an_open_block,
};
pub use traces::deliveries::{
    commands_and_faults_of_a_trace, ends_of_a_file, lines_of_reports, texts_sent_to_a_writer,
    words_of_a_command_line,
};
pub use traces::lines::{
    answers_of_rounds, answers_of_sectors, rounds_of_a_trace, tries_of_a_write,
};
pub use traces::reports::{names_of_faults, stops_of_a_run, texts_of_a_stock};
pub use traces::sessions::{
    ends_of_a_session, files_left_by_a_session, files_of_a_session, options_of_a_session,
    refusals_of_files,
};
pub use traces::texts::{logs_of_a_trace, texts_of_a_trace};
pub use traces::{
    answers_of_commands, faults_of_a_run, faults_of_a_trace, loads_of_a_trace, records_of_a_trace,
};
