//! Which states the core can be in, and what each event does: definitions, in
//! `specs/`, and their laws.
#![tactic(auto)]

mod event;
mod laws;
mod laws_of_answers;
mod laws_of_attached;
mod laws_of_batches;
mod laws_of_carried;
mod laws_of_filters;
mod laws_of_folding;
mod laws_of_hands;
mod laws_of_order;
mod laws_of_parts;
mod laws_of_points;
mod laws_of_queries;
mod laws_of_replies;
mod laws_of_rows;
mod laws_of_runs;
mod laws_of_slots;
mod laws_of_statements;
mod laws_of_tables;
mod laws_of_taken;
mod laws_of_the_log;
mod laws_of_the_scan;
mod laws_of_the_whole;
mod settings;
mod story;

pub use event::Event;
pub use laws::an_empty_core_is_sound;
pub use laws_of_answers::{a_reply_that_may_be_taken_is_right, later_steps_change_no_answer};
pub use laws_of_attached::{
    a_distributor_follows_the_core, a_new_distributor_is_that_of_an_empty_core,
    other_events_leave_a_distributor,
};
pub use laws_of_batches::{
    a_carried_batch_keeps_a_core_sound, a_distributed_batch_keeps_a_core_sound,
    a_given_batch_keeps_a_core_sound, a_taken_batch_keeps_a_core_sound,
};
pub use laws_of_carried::{a_carried_batch_passes_every_filter, a_later_core_folds_the_same_rows};
pub use laws_of_filters::{a_build_keeps_a_core_sound, a_clearing_keeps_a_core_sound};
pub use laws_of_folding::{
    a_distributor_folds_what_the_core_folds, folded_rows_are_few, spoiled_slots_are_spoiled_queries,
};
pub use laws_of_hands::{
    versions_in_a_hand_pass_as_the_present_ones, what_a_worker_took_stays_right,
};
pub use laws_of_order::a_new_order_keeps_a_core_sound;
pub use laws_of_parts::{
    a_new_scan_is_that_of_an_empty_core, a_scan_cuts_what_the_core_cuts,
    a_scan_may_cut_where_the_core_may, a_scan_starts_what_the_core_starts,
    a_scan_stops_what_the_core_stops, other_events_leave_a_scan,
};
pub use laws_of_points::{a_beginning_of_what_was_sent_stands_alone, points_rise};
pub use laws_of_queries::{
    a_query_without_memory_keeps_a_core_sound, a_taken_reply_keeps_a_core_sound,
    an_abandoned_query_keeps_a_core_sound,
};
pub use laws_of_replies::{
    a_statement_is_told_at_its_submission, a_step_leaves_what_is_told,
    replies_come_in_the_order_of_statements, the_reply_to_a_statement_is_that_of_its_effect,
};
pub use laws_of_rows::{
    a_row_tells_the_reply, a_statement_and_a_reply_move_the_row_of_their_seat,
    a_step_moves_one_row, a_work_stays_right, other_events_leave_what_seats_see,
    rows_past_the_seats_are_empty, the_course_of_a_seat_goes_on,
};
pub use laws_of_runs::{every_core_is_sound, every_step_keeps_a_core_sound};
pub use laws_of_slots::{
    a_finish_keeps_a_core_sound, a_release_keeps_a_core_sound, a_reservation_keeps_a_core_sound,
    a_start_keeps_a_core_sound,
};
pub use laws_of_statements::{a_declaration_keeps_what_is_kept, a_statement_keeps_a_core_sound};
pub use laws_of_tables::a_change_of_rows_keeps_what_is_kept;
pub use laws_of_taken::a_seat_alone_has_the_queries_of_the_core;
pub use laws_of_the_log::{
    changes_follow_from_the_tables, deletes_name_ascending_positions,
    every_history_follows_from_its_tables,
};
pub use laws_of_the_scan::a_cut_keeps_a_core_sound;
pub use laws_of_the_whole::{
    no_core_has_lost_a_statement, no_step_changes_what_is_asked, no_step_loses_a_statement,
    no_step_takes_a_statement_back, only_abandon_abandons,
};
pub use settings::RunSettings;
pub use story::{
    a_carried_batch_keeps_its_order, a_filter_clears_the_bits_of_one_query,
    a_hand_keeps_the_versions_of_its_carry, batches_are_carried,
    carried_batches_count_as_taken_ones, each_query_is_answered_behind_its_last_batch,
    two_filters_are_carried, two_queries_share_a_scan,
};
