//! The statuses of a call that runs no command. Those of a command are 0 to 4, and each status that fits a byte is left
//! to commands.

/// The arguments or the names are not UTF-8.
pub const ARGUMENT: u32 = 256;

/// An allocation failed before the command began.
pub const MEMORY: u32 = 257;
