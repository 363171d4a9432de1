// Where the fields of a document stand.
pub use tape_base::{BLOCK, HEADER};

pub const MAGIC: [u8; 8] = *b"TSCDOCM1";

pub const VERSION: u32 = 1;

pub const VERSION_AT: usize = 8;

pub const LENGTH_AT: usize = 12;

pub const KEY_AT: usize = 16;

pub const PUT_AT: usize = 32;

pub const INDEX_AT: usize = 40;

pub const BLOCKS_AT: usize = 44;

pub const PLACE_AT: usize = 48;

pub const GENERATION_AT: usize = 56;

pub const PIN_AT: usize = 64;

pub const START_AT: usize = 72;

pub const DIGEST_AT: usize = 80;

pub const CHECK_AT: usize = 112;
