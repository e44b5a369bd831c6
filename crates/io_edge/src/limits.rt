//! The lengths that a reader of an input keeps to, in bytes.

/// The greatest length of a line, without its newline.
pub const LINE_LIMIT: usize = 1_048_576;

/// The greatest length of an input.
pub const INPUT_LIMIT: usize = 67_108_864;

/// How much is asked of a source at once.
pub const READ_LIMIT: usize = 4_096;
