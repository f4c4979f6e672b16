/// The most open clients' sockets of all generations.
pub const MAX_SOCKETS: u64 = 4_096;

/// The most open connections of one generation.
pub const MAX_CONNECTIONS: usize = 4_096;

/// The most commands of a connection that are accepted and not handed out.
pub const MAX_COMMANDS: usize = 1_024;

/// The most parts that wait for a host.
pub const MAX_WAITING: usize = 1_024;
