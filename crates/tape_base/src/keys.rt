// Keys: 16 bytes that name an object or a fragment in a directory.
ghost use Rattle.std.specs.Prelude.{◌≡◌, ◌<◌, ◌^◌, ◌%◌, take};
ghost use Rattle.tape_base.specs.Key.{key_bytes, key_of_bytes, key_of_url, segment_of, bucket_of, tag_of};
ghost use Rattle.tape_base.specs.Piece.{key_of_piece, fragment_key, piece_bytes};

use crate::geometries::Geometry;
use crate::pieces::PieceId;
use sha_words::digest;

// How many values a word of 32 bits has.
const WORD: u128 = 1 << 32;

// How many tags there are.
const TAGS: u128 = 1 << 12;

/// A directory key: 16 bytes, read as one little-endian number.
#[derive(Clone, Copy, Debug, PartialEq, Eq, Hash)]
pub struct Key {
    number: u128,
}

impl Key {
    pub fn new(bytes: [u8; 16]) -> Key
        ensures made { result ≡ key_of_bytes bytes }
        ensures bytes { key_bytes result ≡ bytes }
    {
        Key {
            number: u128::from_le_bytes(bytes),
        }
    }

    pub fn of_url(url: &[u8]) -> Key
        ensures { result ≡ key_of_url url.now }
    {
        Key::new(front(&digest(url)))
    }

    /// The key under which a directory has a piece.
    pub fn of_piece(id: PieceId) -> Key
        ensures { result ≡ key_of_piece id }
    {
        if id.index == 0 {
            id.first
        } else {
            of_fragment(id)
        }
    }

    pub fn bytes(&self) -> [u8; 16]
        ensures bytes { result ≡ key_bytes self.now }
        ensures key { key_of_bytes result ≡ self.now }
    {
        self.number.to_le_bytes()
    }

    pub fn segment(&self, g: &Geometry) -> u32
        ensures value { result ≡ segment_of g.now self.now }
        ensures below { result < g.now.segments }
    {
        (self.number % WORD) as u32 % g.segments
    }

    pub fn bucket(&self, g: &Geometry) -> u32
        ensures value { result ≡ bucket_of g.now self.now }
        ensures below { result < g.now.buckets }
    {
        (self.number / WORD % WORD) as u32 % g.buckets
    }

    pub fn tag(&self) -> u16
        ensures value { result ≡ tag_of self.now }
        ensures below { result < 2 ^ 12 }
    {
        (self.number / (WORD * WORD) % WORD % TAGS) as u16
    }
}

// The first half of a digest.
fn front(digest: &[u8; 32]) -> [u8; 16]
    ensures { result ≡ take 16 digest.now }
{
    let mut half = [0; 16];
    half.copy_from_slice(&digest[..16]);
    half
}

#[tactic(auto, unfolding(crate::specs::Piece::piece_bytes))]
fn piece_bytes(id: PieceId) -> [u8; 28]
    ensures { result ≡ piece_bytes id }
{
    let mut bytes = [0; 28];
    bytes[..16].copy_from_slice(&id.first.bytes());
    bytes[16..24].copy_from_slice(&id.put.to_le_bytes());
    bytes[24..].copy_from_slice(&id.index.to_le_bytes());
    bytes
}

fn of_fragment(id: PieceId) -> Key
    ensures { result ≡ fragment_key id }
{
    Key::new(front(&digest(&piece_bytes(id))))
}
