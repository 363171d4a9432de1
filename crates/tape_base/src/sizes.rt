// The sizes and limits that more than one crate goes by.

/// The bytes of a block.
pub const BLOCK: usize = 512;

/// The bytes of a document's header.
pub const HEADER: usize = 128;

/// What the numbers of puts, and places, stay below.
pub const LIMIT: u64 = 1 << 62;

/// How many puts may be written at once.
pub const MAX_WRITERS: u32 = 64;
