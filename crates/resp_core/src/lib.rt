//! RESP2, the Redis serialization protocol, read and written.
//!
//! `Reader` reads the values of a stream that comes in any pieces. `put_text` writes a value in its one spelling.
//! Reading accepts signs of integers, and leading zeros. The protocol's specification is the source; limits, and
//! offsets and numbers of refusals, are this project's own. It stands on `bytes`. Begin with `value.rt`, then
//! `reader.rt`.
#![tactic(auto)]

mod begun;
mod command;
mod digits;
mod error;
mod head;
mod laws;
mod parse;
mod partial_value;
mod payload;
mod pending;
mod reader;
mod sink;
mod spelled_command;
mod text;
mod text_block;
mod texts;
mod value;

pub use error::RespError;
pub use laws::{
    commands_are_plain, each_stream_holds, kept_memory_is_limited, members_are_limited,
    no_text_begins_another, one_holding, one_reading, one_refusal, read_values_are_plain,
    refusal_stays, shortest_text_is_spelling, spelling_is_shortest, text_is_read,
    text_is_read_back, values_go_on, values_stay,
};
pub use payload::Payload;
pub use reader::{Limits, Reader};
pub use spelled_command::SpelledCommand;
pub use text::{bulk_len, put_bulk, put_bulk_behind, put_text};
pub use texts::Texts;
pub use value::{Value, Values};
