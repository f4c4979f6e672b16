//! The tests of library crates that can't be rows. It stands on the core, its parts, the engines, the gate,
//! `sweeper`, `stub_server`, `proxy_notices`, `proxy_stats` and `test_total`. Begin with `acts.rt` and `rig.rt`.
#![tactic(auto)]

#[cfg(test)]
mod acts;
#[cfg(test)]
mod client_lies;
#[cfg(test)]
mod core_at_gate;
#[cfg(test)]
mod counting_journals;
#[cfg(test)]
mod fake_devices;
#[cfg(test)]
mod gate;
#[cfg(test)]
mod gate_limits;
#[cfg(test)]
mod host_lies;
#[cfg(test)]
mod journal;
#[cfg(test)]
mod laws;
#[cfg(test)]
mod link_tests;
#[cfg(test)]
mod next_replies;
#[cfg(test)]
mod notices;
#[cfg(test)]
mod payload_texts;
#[cfg(test)]
mod refusal_tests;
#[cfg(test)]
mod refused_names;
#[cfg(test)]
mod rig;
#[cfg(test)]
mod spelled_commands;
#[cfg(test)]
mod stage;
#[cfg(test)]
mod sweeps;
#[cfg(test)]
mod texts;
#[cfg(test)]
mod told_turns;
#[cfg(test)]
mod turns;
#[cfg(test)]
mod works;
