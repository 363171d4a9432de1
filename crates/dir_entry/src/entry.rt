// An entry and its ten bytes.
/// Where a piece of an object stands, and what a lookup may know of it without reading it.
#[derive(Clone, Copy, Debug, PartialEq, Eq)]
pub struct Entry {
    /// In blocks, from 1; 0 is an empty entry.
    pub offset: u64,
    /// The unit of the approximate size: 512 bytes times 8 to this power.
    pub big: u8,
    /// The units of the approximate size, less one.
    pub size: u8,
    /// Twelve bits of the key.
    pub tag: u16,
    /// The parity of the lap in which the piece was written.
    pub phase: bool,
    /// It is the vector of an object.
    pub head: bool,
    /// The document is pinned.
    pub pinned: bool,
    /// Written 0.
    pub token: bool,
    /// The slot of the next entry of the chain or of the free list, 0 at its end.
    pub next: u16,
}
