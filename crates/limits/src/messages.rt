/// The most members of a client's array.
pub const MAX_CLIENT_MEMBERS: u32 = 1_024;

/// The most members of a host's array.
pub const MAX_HOST_MEMBERS: u32 = 65_536;

/// The most bytes of a bulk string.
pub const MAX_BULK: u64 = 1_048_576;

/// The most bytes of a line, without type and end.
pub const MAX_LINE: usize = 65_536;

/// The most bytes of a command's or reply's text.
pub const MAX_TEXT: usize = 8_388_608;

/// The most arrays nested in each other.
pub const MAX_DEPTH: u32 = 8;

/// The bytes shown of an unknown command name.
pub const MAX_SHOWN: usize = 64;
