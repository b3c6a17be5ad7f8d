//! The limits of scripts and of what is shown of collections, beside `imm_base::LIMIT`.

/// The most bytes of a script.
pub const INPUT_LIMIT: usize = 1_048_576;

/// The most cells of a script.
pub const CELLS_LIMIT: usize = 16;

/// The most parts of a script, and so the most workers.
pub const PARTS_LIMIT: usize = 8;

/// The most commands of a part.
pub const COMMANDS_LIMIT: usize = 4_096;

/// The most local names of a part.
pub const NAMES_LIMIT: usize = 32;

/// The most commands of a part that publish.
pub const PUBLISHES_LIMIT: u32 = 128;

/// The most elements of a collection that is published, and of an array that is exchanged.
pub const PUBLISH_LIMIT: u32 = 1_024;

/// The most elements that are shown of a collection.
pub const SHOWN_LIMIT: u32 = 16;

/// In a script of version 1, the most numbers of a `seq`, and the most elements of the first
/// contents of a cell.
pub const SEQ_LIMIT: u32 = 16_384;
