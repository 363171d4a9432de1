// What a line of a script turns out to be.
use crate::Step;
use thiserror::Error;

/// Why a word does not fit.
#[derive(Clone, Copy, Debug, PartialEq, Eq, Error)]
pub enum BadKind {
    #[error("the first word is no step's")]
    Verb,
    /// It is empty, has a byte outside 21 to 7E hex, or is none of the words for its place.
    #[error("the word is none that may stand there")]
    Word,
    #[error("words are missing, or there are more than the line takes")]
    Count,
    #[error("the word is no number that may stand there")]
    Number,
    #[error("the word is no body")]
    Body,
    #[error("the word is no field, or one that the line cannot take")]
    Field,
}

/// Where the first word that does not fit begins, in columns from 1, and why it does not fit.
/// Where words are missing the column is one past the line's end.
#[derive(Clone, Copy, Debug, PartialEq, Eq, Error)]
#[error("column {column}: {kind}")]
pub struct BadLine {
    pub column: u64,
    pub kind: BadKind,
}

#[derive(Debug, Drop)]
pub enum LineAnswer {
    Step(Step),
    /// An empty line, or a comment.
    Nothing,
    Bad(BadLine),
}
