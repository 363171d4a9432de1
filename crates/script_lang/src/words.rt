// The words of a line, taken one by one from the left.
ghost use Rattle.std.specs.Prelude.{◌≡◌, ◌+◌, ◌<◌, length, position, IfSome, IfOk, IfErr, IsTrue, false, if◌then◌else◌};
ghost use Rattle.std.specs.List.{list_all};
ghost use Rattle.std.specs.Option.{ForSome, option_copied};
ghost use Rattle.script_grammar.specs.Words.{is_space, is_word_byte, is_word, bad, take_end, has_more, words_from};
ghost use Rattle.script_lang.specs.Taken.{first_word, behind_word, seen_word, TakesWord, words_in};

use crate::left::{Word, Words};
use script_grammar::{BadKind, BadLine};

/// Where the first space stands.
fn space_at(bytes: &[u8]) -> Option<usize>
    ensures found { result ≡ position is_space bytes.now }
    ensures within { IfSome result (λ at. at < length bytes.now) }
{
    bytes.iter().position(|byte| *byte == b' ')
}

/// The first word of these bytes, and what stands behind the space that ends it.
fn cut(bytes: &[u8]) -> (&[u8], Option<&[u8]>)
    ensures word { result.0.now ≡ first_word bytes.now }
    ensures behind { option_copied result.1 ≡ behind_word bytes.now }
    ensures shorter { ForSome result.1 (λ rest. length rest.now < length bytes.now) }
{
    match space_at(bytes) {
        Some(at) => (&bytes[..at], Some(&bytes[at + 1..])),
        None => (bytes, None),
    }
}

/// Whether each byte is one from 21 to 7E hex.
fn is_printable(bytes: &[u8]) -> bool
    ensures { result ≡ list_all is_word_byte bytes.now }
{
    bytes.iter().all(|byte| *byte >= 0x21 && *byte <= 0x7e)
}

/// Whether the bytes are a word: one or more, each from 21 to 7E hex.
fn is_word(bytes: &[u8]) -> bool
    ensures { result ≡ is_word bytes.now }
{
    !bytes.is_empty() && is_printable(bytes)
}

impl<'a> Words<'a> {
    pub(crate) fn new(line: &'a [u8]) -> Words<'a>
        ensures words { words_in result ≡ words_from 1 line.now }
        ensures end { result.end ≡ length line.now + 1 }
    {
        Words {
            left: Some(line),
            end: line.len() as u64 + 1,
        }
    }

    /// The next word.
    #[tactic(auto, using(crate::proofs::Cut::words_cut))]
    pub(crate) fn word(&mut self) -> Result<Word<'a>, BadLine>
        ensures taken { TakesWord self.old.end (words_in self.old) result (words_in self.new) }
        ensures end { self.new.end ≡ self.old.end }
    {
        match self.left {
            None => Err(BadLine {
                column: self.end,
                kind: BadKind::Count,
            }),
            Some(bytes) => {
                let column = self.end - bytes.len() as u64;
                let (word, behind) = cut(bytes);
                self.left = behind;
                checked(column, word)
            }
        }
    }

    /// Whether a word follows.
    #[tactic(auto, using(crate::proofs::Cut::words_cut))]
    pub(crate) fn has_more(&self) -> bool
        ensures { result ≡ has_more (words_in self.now) }
    {
        self.left.is_some()
    }

    /// Tests that no word follows.
    #[tactic(auto, using(crate::proofs::Cut::words_cut))]
    pub(crate) fn end(&self) -> Result<(), BadLine>
        ensures { result ≡ take_end (words_in self.now) }
    {
        match self.left {
            None => Ok(()),
            Some(bytes) => Err(unexpected(self.end - bytes.len() as u64, cut(bytes).0)),
        }
    }
}

/// A word, if these bytes are one.
fn checked(column: u64, bytes: &[u8]) -> Result<Word<'_>, BadLine>
    ensures word { IfOk result (λ word. IsTrue (is_word bytes.now) × (seen_word word ≡ record { column = column; bytes = bytes.now })) }
    ensures none { IfErr result (λ fault. (is_word bytes.now ≡ false) × (fault ≡ bad column BadKind.Word)) }
{
    if is_word(bytes) {
        Ok(Word { column, bytes })
    } else {
        Err(BadLine {
            column,
            kind: BadKind::Word,
        })
    }
}

/// The fault of a word where none may stand.
fn unexpected(column: u64, bytes: &[u8]) -> BadLine
    ensures { result ≡ bad column (if is_word bytes.now then BadKind.Count else BadKind.Word) }
{
    if is_word(bytes) {
        BadLine {
            column,
            kind: BadKind::Count,
        }
    } else {
        BadLine {
            column,
            kind: BadKind::Word,
        }
    }
}
