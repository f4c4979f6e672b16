ghost use Rattle.std.specs.Prelude.{◌≡◌};
ghost use Rattle.resp_core.specs.Stream.{told_offset};

use resp_core::{SpelledCommand, Value};

/// A request of a client's stream.
#[derive(Drop)]
pub enum Request {
    /// A value, which may be a command.
    Read(Value),
    /// A short command in its one spelling.
    Spelled(SpelledCommand),
    /// The reader refused the input.
    Broken,
}

impl Request {
    ghost use Rattle.splitter.specs.Request.{length_of};

    /// The length of the value's one spelling, or the greatest `u64`; 0 for `Broken`.
    pub fn text_len(&self) -> u64
        ensures { result ≡ told_offset (length_of self.now) }
    {
        match self {
            Request::Read(value) => value.text_len(),
            Request::Spelled(command) => command.text().len() as u64,
            Request::Broken => 0,
        }
    }
}
