// An entry as ten bytes and back.
ghost use Rattle.std.specs.Prelude.{◌≡◌, ◌<◌, ◌^◌};
ghost use Rattle.dir_entry.specs.Layout.{EntryFits, number_of_bytes, bytes_of_number, entry_of_word, word_of_entry, entry_of_bytes, bytes_of_entry};

use crate::bits::Bits;
use crate::entry::Entry;

type OffsetLow = Bits<0, 24>;

type Big = Bits<24, 2>;

type Size = Bits<26, 6>;

type Tag = Bits<32, 12>;

type Phase = Bits<44, 1>;

type Head = Bits<45, 1>;

type Pinned = Bits<46, 1>;

type Token = Bits<47, 1>;

type Next = Bits<48, 16>;

type OffsetHigh = Bits<64, 16>;

// Reads a field of a word as a number or a flag, or puts one in its place.
macro_rules! field {
    ($word:ident, $field:ty, bool) => {
        <$field>::get($word) == 1
    };
    ($word:ident, $field:ty, $number:ty) => {
        <$field>::get($word) as $number
    };
    ($word:ident, $field:ty = $value:expr) => {
        <$field>::set($word, $value)
    };
}

fn word_of(bytes: &[u8; 10]) -> u128
    ensures value { result ≡ number_of_bytes bytes.now }
    ensures small { result < 2 ^ 80 }
{
    let [a, b, c, d, e, f, g, h, i, j] = *bytes;
    u128::from_le_bytes([a, b, c, d, e, f, g, h, i, j, 0, 0, 0, 0, 0, 0])
}

fn bytes_of(word: u128) -> [u8; 10]
    ensures { result ≡ bytes_of_number 10 word }
{
    let [a, b, c, d, e, f, g, h, i, j, ..] = word.to_le_bytes();
    [a, b, c, d, e, f, g, h, i, j]
}

fn unpack(word: u128) -> Entry
    ensures { result ≡ entry_of_word word }
{
    Entry {
        offset: field!(word, OffsetLow, u64) + (field!(word, OffsetHigh, u64) << 24),
        big: field!(word, Big, u8),
        size: field!(word, Size, u8),
        tag: field!(word, Tag, u16),
        phase: field!(word, Phase, bool),
        head: field!(word, Head, bool),
        pinned: field!(word, Pinned, bool),
        token: field!(word, Token, bool),
        next: field!(word, Next, u16),
    }
}

fn pack(e: &Entry) -> u128
    requires entry { EntryFits e.now }
    ensures { result ≡ word_of_entry e.now }
{
    let word = 0;
    let word = field!(word, OffsetLow = e.offset % (1 << 24));
    let word = field!(word, Big = e.big as u64);
    let word = field!(word, Size = e.size as u64);
    let word = field!(word, Tag = e.tag as u64);
    let word = field!(word, Phase = e.phase as u64);
    let word = field!(word, Head = e.head as u64);
    let word = field!(word, Pinned = e.pinned as u64);
    let word = field!(word, Token = e.token as u64);
    let word = field!(word, Next = e.next as u64);
    field!(word, OffsetHigh = e.offset >> 24)
}

/// The ten bytes of an entry.
pub fn encode(e: &Entry) -> [u8; 10]
    requires entry { EntryFits e.now }
    ensures bytes { result ≡ bytes_of_entry e.now }
    ensures again { entry_of_bytes result ≡ e.now }
{
    bytes_of(pack(e))
}

/// The entry of ten bytes, whichever they are.
pub fn decode(bytes: &[u8; 10]) -> Entry
    ensures entry { result ≡ entry_of_bytes bytes.now }
    ensures fits { EntryFits result }
    ensures again { bytes_of_entry result ≡ bytes.now }
{
    unpack(word_of(bytes))
}
