/// The most bytes that one read takes.
pub const READ_SIZE: usize = 16_384;
