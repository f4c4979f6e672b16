use bytes::Bytes;

/// The owner of a part. Commands and parts are numbered from 0.
#[derive(Clone, Copy, Debug, PartialEq, Eq, Hash)]
pub struct Owner {
    /// The connection's number.
    pub conn: u64,
    /// The command's number in its connection.
    pub command: u64,
    /// The part's number in its command.
    pub part: u32,
}

/// A part of a command.
#[derive(Drop)]
pub struct Part {
    /// The command whose part it is.
    pub owner: Owner,
    /// The text for its host.
    pub text: Bytes,
}
