//! The parts of commands, as they were placed at their arrival.

use bytes::Bytes;
use std::alloc::AllocError;

/// Why a part got a value at its arrival.
#[derive(Clone, Copy, Drop)]
pub(crate) enum AtOnce {
    /// No usable host owns its key.
    NoHost,
    /// As many parts as may wait for its host already did.
    Busy,
}

#[derive(Drop)]
pub(crate) struct Part {
    pub conn: u64,
    pub command: u64,
    pub number: u64,
    pub text: Bytes,
    pub host: Option<usize>,
    // The host's epoch at the part's arrival, 0 without a host.
    pub epoch: u64,
    pub local: Option<AtOnce>,
}
