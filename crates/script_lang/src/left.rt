// What is left of a line as its words are taken from the left.
ghost use Rattle.std.specs.Prelude.{◌<◌, length};
ghost use Rattle.std.specs.Option.{ForSome};

/// A word, and the column of its first byte, counted from 1.
#[derive(Clone, Copy)]
pub(crate) struct Word<'a> {
    pub column: u64,
    pub bytes: &'a [u8],
}

/// What is left of a line: nothing, or what stands behind the last space that was passed.
/// `end` is the column one past the line's end.
#[derive(Drop)]
pub(crate) struct Words<'a> {
    pub left: Option<&'a [u8]>,
    pub end: u64,
    ghost inside: { ForSome left (λ bytes. length bytes.now < end) },
}
