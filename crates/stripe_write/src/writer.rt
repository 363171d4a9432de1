// What is at hand of a put while it is written.
ghost use Rattle.std.specs.Prelude.{◌≡◌};

use alternate_vector::Fields;
use fragment_table::FragTable;
use tape_base::Key;

/// Writes a put: the bytes that are in no fragment yet, and the fragments that were cut.
#[derive(Debug, Drop)]
pub struct Writer {
    pub(crate) put: u64,
    pub(crate) key: Key,
    pub(crate) request: Fields,
    pub(crate) response: Fields,
    pub(crate) pin: u64,
    pub(crate) gathered: Vec<u8>,
    pub(crate) table: FragTable,
    /// It was closed in vain, and takes no more bytes.
    pub(crate) sealed: bool,
}

impl Writer {
    /// The number of its put.
    pub fn put(&self) -> u64
        ensures { result ≡ self.now.put }
    {
        self.put
    }
}
