/// The most hosts.
pub const MAX_HOSTS: usize = 64;

/// The longest host's name, in bytes.
pub const MAX_NAME_LEN: usize = 255;

/// The greatest weight of a host.
pub const MAX_WEIGHT: u32 = 100;
