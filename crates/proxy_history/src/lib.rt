//! The definition of a legal history of the proxy: the list of all its steps, each an event with its answer.
//!
//! `specs/` defines what a history determines, such as each event's answer or refusal. The rules are this project's
//! own profile of Envoy's pages "Redis" and "Outlier detection". A host's replies come in the order of its
//! requests, as RESP2 says. It stands on `splitter`, `ketama`, `ejector` and `journal_core`. Begin with `event.rt`,
//! then `specs/Legal.antt`.
#![tactic(auto)]

mod answer;
mod connections;
mod event;
mod laws;
mod own_laws;
mod refusal;

pub use answer::Answer;
pub use connections::connections_are_limited;
pub use ejector::{Field, Settings, Trip};
pub use event::{Event, Kind};
pub use journal_core::Step;
pub use laws::{
    answers_fit, beginnings_are_legal, closed_gets_nothing, commands_have_their_parts,
    each_taken_sends, ejections_choose_hosts_alone, epochs_are_present, epochs_end_by_faults,
    faults_raise_epochs, few_are_out, finishing_takes_nothing, handed_is_its_outcome, limits_hold,
    none_is_sent_twice, not_ready_means, nothing_else_is_sent, openings_come_first,
    outcomes_are_as_planned, outcomes_stay, owners_stay, parts_have_arrived, refusals_mean,
    replies_are_in_order, replies_go_out_once, replies_were_asked, sent_parts_arrived,
    unopened_have_no_steps, unsent_parts_wait, upstream_is_what_was_sent, values_are_own,
    waiting_is_in_order,
};
pub use own_laws::{
    connection_steps_tell_all, host_steps_tell_all, orders_hold_the_same, others_leave_connections,
    others_leave_hosts, seen_beginnings_are_legal, seen_is_read_in_order, seen_steps_follow,
};
pub use refusal::Refusal;
pub use splitter::{Local, Request};
