//! The ring of libketama: which host owns a key.
//!
//! A host has points on a ring of 32-bit numbers, and a key has one. Its host is that of the first point at or
//! above it; past the last, that of the first. With equal weights, owners are those of any other client of
//! libketama that uses MD5 (RFC 1321). It stands on `md5` and `limits`. Begin with `ring.rt`.
//!
//! ```text
//! let names = [HostName::read(alloc, b"127.0.0.1:7001")?, HostName::read(alloc, b"127.0.0.1:7002")?];
//! let ring = Ring::build(alloc, &names, &[1, 2])?;
//! let owner = ring.owner(point_of_key(b"user:1", false), &[true, true]);
//! ```
#![tactic(auto)]

pub use error::RingError;
pub use key::point_of_key;
pub use name::HostName;
pub use ring::Ring;
pub use share::DIGESTS_OF_HOST;

mod error;
mod key;
pub mod laws;
mod name;
mod owner;
mod point;
mod ring;
mod share;
mod short;
