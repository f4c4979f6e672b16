//! Plans a request: its parts, and how their values are joined to one reply.
//!
//! The names, meanings and texts of commands are those of Redis. The plans, the proxy's own answers and the joins
//! are this project's own profile. It stands on `resp_core` and `command_table`. Begin with `plans.rt`, then
//! `planning.rt`.
#![tactic(auto)]

mod error;
mod joining;
mod laws;
mod local;
mod parts;
mod planning;
mod plans;
mod request;

pub use error::SplitError;
pub use joining::join;
pub use laws::{
    commands_keep_limits, joins_of_plain_values_are_plain, parts_are_commands,
    parts_are_of_commands, parts_are_read_back, parts_keep_limits, plan_texts_are_plain,
    requests_go_on, streams_ask_one_list,
};
pub use planning::{plan, plan_with};
pub use plans::{Join, Local, PartPlan, PartPlans, Plan, Planned};
pub use request::Request;
