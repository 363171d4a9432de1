// What is at hand of a body while it is read.
use fragment_table::FragTable;
use tape_base::Key;

/// Reads a body: the put that it is of, and the fragment that it takes next.
#[derive(Debug, Drop)]
pub struct Reader {
    pub(crate) reader: u64,
    pub(crate) key: Key,
    pub(crate) put: u64,
    /// The fragments of the alternate that was hit; none where it follows a writer.
    pub(crate) table: Option<FragTable>,
    pub(crate) next: u32,
}
