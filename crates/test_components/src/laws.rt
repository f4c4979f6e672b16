//! Calls each law once. A law is the contract of a function that does nothing.

#[test]
fn laws_of_texts() {
    resp_core::no_text_begins_another();
    resp_core::text_is_read();
    resp_core::spelling_is_shortest();
    resp_core::read_values_are_plain();
    resp_core::commands_are_plain();
    resp_core::text_is_read_back();
    resp_core::members_are_limited();
    resp_core::kept_memory_is_limited();
}

#[test]
fn laws_of_streams() {
    resp_core::one_reading();
    resp_core::each_stream_holds();
    resp_core::one_holding();
    resp_core::one_refusal();
    resp_core::refusal_stays();
    resp_core::values_stay();
}

#[test]
fn laws_of_the_table() {
    command_table::names_are_distinct();
    command_table::names_are_lower_case();
    command_table::each_row_is_found();
    command_table::found_stands_in_table();
}

#[test]
fn laws_of_the_ring() {
    ketama::laws::owner_is_one();
    ketama::laws::others_keep_their_points();
    ketama::laws::first_choice_stands();
    ketama::laws::owners_go_by_members();
    ketama::laws::equal_weights_give_forty();
    ketama::laws::digests_are_few();
    ketama::laws::heaviest_has_forty();
}

#[test]
fn laws_of_outlier_detection() {
    rate_core::spread_is_variance();
    rate_core::far_below_is_by_deviation();
    rate_core::hosts_are_limited();
    ejector::opening_comes_first();
    ejector::openings_stay();
    ejector::state_goes_on();
    ejector::few_are_out();
    ejector::state_decides_next();
    ejector::out_until_time_is_over();
    ejector::back_once_time_is_over();
    ejector::good_ends_streak();
    ejector::others_change_nothing();
    ejector::others_matter_by_limit_and_rates();
}

#[test]
fn laws_of_plans() {
    splitter::parts_are_commands();
    splitter::parts_keep_limits();
    splitter::parts_are_of_commands();
    splitter::commands_keep_limits();
    splitter::parts_are_read_back();
    splitter::plan_texts_are_plain();
    splitter::streams_ask_one_list();
    splitter::joins_of_plain_values_are_plain();
}

#[test]
fn laws_of_the_queue() {
    reply_queue::one_part_changes();
    reply_queue::indices_stay();
    reply_queue::commands_are_limited();
}

#[test]
fn laws_of_the_host_in_memory() {
    stub_server::a_set_key_has_its_value();
    stub_server::a_removed_key_has_no_value();
    stub_server::keys_stay_distinct();
    stub_server::a_number_has_one_spelling();
}

#[test]
fn laws_of_limits() {
    upstream_pipe::waiting_is_limited();
    journal_core::steps_and_bytes_are_limited();
    proxy_history::connections_are_limited();
}

#[test]
fn laws_of_histories() {
    proxy_history::answers_fit();
    proxy_history::beginnings_are_legal();
    proxy_history::closed_gets_nothing();
    proxy_history::commands_have_their_parts();
    proxy_history::each_taken_sends();
    proxy_history::ejections_choose_hosts_alone();
    proxy_history::epochs_end_by_faults();
    proxy_history::faults_raise_epochs();
    proxy_history::few_are_out();
    proxy_history::finishing_takes_nothing();
    proxy_history::handed_is_its_outcome();
    proxy_history::limits_hold();
    proxy_history::none_is_sent_twice();
    proxy_history::not_ready_means();
    proxy_history::nothing_else_is_sent();
    proxy_history::openings_come_first();
    proxy_history::outcomes_are_as_planned();
    proxy_history::outcomes_stay();
    proxy_history::owners_stay();
    proxy_history::parts_have_arrived();
    proxy_history::replies_are_in_order();
    proxy_history::replies_go_out_once();
    proxy_history::replies_were_asked();
    proxy_history::sent_parts_arrived();
    proxy_history::unopened_have_no_steps();
    proxy_history::unsent_parts_wait();
    proxy_history::upstream_is_what_was_sent();
    proxy_history::values_are_own();
    proxy_history::waiting_is_in_order();
}

#[test]
fn laws_of_own_steps() {
    proxy_history::connection_steps_tell_all();
    proxy_history::host_steps_tell_all();
    proxy_history::orders_hold_the_same();
    proxy_history::others_leave_connections();
    proxy_history::others_leave_hosts();
    proxy_history::seen_beginnings_are_legal();
    proxy_history::seen_is_read_in_order();
    proxy_history::seen_steps_follow();
}

#[test]
fn laws_of_engines() {
    proxy_engines::accepted_are_first();
    proxy_engines::ended_is_whole();
    proxy_engines::engines_leave_others();
    proxy_engines::others_leave_engines();
    proxy_engines::reads_are_limited();
}
