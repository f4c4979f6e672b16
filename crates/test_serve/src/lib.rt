//! Tests of `serve` with marks of their own and all ends in one process, and of the operator's page. It stands on
//! `proxy_serve`. Begin with `rig.rt`.
#![tactic(auto)]

#[cfg(test)]
mod host_tests;
#[cfg(test)]
mod page_tests;
#[cfg(test)]
mod rig;
#[cfg(test)]
mod serving_tests;
