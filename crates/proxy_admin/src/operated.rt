use proxy_pages::{Order, Snapshot};
use std::io::Error;
use std::rt::Clock;
use std::sync::Wait;

/// A running server, as its operator sees it.
pub trait Operated {
    /// Whether it goes on.
    fn runs(&self) -> bool;

    /// The clock's milliseconds.
    fn moment<R: Clock>(&self, rt: &R) -> u64;

    /// Its numbers at this moment.
    fn snapshot<R: Wait>(&self, rt: &R, moment: u64) -> Snapshot;

    /// Carries out an order that came at this moment.
    fn obey<R: Wait + Eprint>(&self, rt: &R, order: Order, moment: u64);

    /// The operator's poll failed: nothing is answered at its address any more.
    fn log_silence<R: Eprint>(&self, rt: &R, error: Error);
}
