//! The two halves of a socket, for an engine: one reads, the other gathers what is to be written into large pieces.
//! It stands on `limits` and `proxy_devices`. Begin with `socket_reader.rt`, then `socket_writer.rt`.
#![tactic(auto)]

mod laws;
mod read_end;
mod socket_reader;
mod socket_writer;
mod write_buffer;

pub use laws::{accepted_goes_out, buffered_is_limited, delivered_is_received, passed_is_first};
pub use read_end::{Discarded, ReadEnd};
pub use socket_reader::SocketReader;
pub use socket_writer::SocketWriter;
pub use write_buffer::WriteBuffer;
