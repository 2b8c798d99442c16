//! The statuses that a run ends with.

/// All was written.
pub const OK: u8 = 0;

/// The arguments are refused.
pub const USAGE: u8 = 1;

/// A file could not be read.
pub const READ_FAULT: u8 = 2;

/// A file is no document, or the stylesheet is refused.
pub const REFUSED: u8 = 3;

/// The evaluation ended in a fault.
pub const RUN_FAULT: u8 = 4;

/// A write failed.
pub const WRITE_FAULT: u8 = 5;

/// There was no memory.
pub const NO_MEMORY: u8 = 6;

// The numbers that the caller of the program sees.
const _: () = prove!(OK == 0 && USAGE == 1 && READ_FAULT == 2 && REFUSED == 3);

const _: () = prove!(RUN_FAULT == 4 && WRITE_FAULT == 5 && NO_MEMORY == 6);
