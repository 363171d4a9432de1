// What a put answers.

/// The place of a piece that was put, or the blocks that are left where they are too few for it.
#[derive(Clone, Copy, Debug, PartialEq, Eq)]
pub enum PutAnswer {
    Placed(u64),
    NoRoom { left: u32 },
}
