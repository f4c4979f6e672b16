//! A sum of bytes that threads change without a lock. It stands on std alone.
#![tactic(auto)]

mod byte_sum;

pub use byte_sum::ByteSum;
