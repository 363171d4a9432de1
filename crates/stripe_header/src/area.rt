// Where the parts of a stripe lie on its device.
ghost use Rattle.std.specs.Prelude.{◌≡◌, ◌≤◌, ◌<◌, ◌+◌, ◌^◌};

use tape_base::{Geometry, slot};

/// One of the two copies of the directory.
#[derive(Clone, Copy, Debug, PartialEq, Eq)]
pub enum Side {
    A,
    B,
}

impl Side {
    ghost use Rattle.stripe_header.specs.Layout.{other_side, gate_of};

    pub fn other(self) -> Side
        ensures { result ≡ other_side self }
    {
        match self {
            Side::A => Side::B,
            Side::B => Side::A,
        }
    }

    /// The block that says whether the copy counts: it is open exactly where its first byte is 1.
    pub fn gate(self) -> u64
        ensures value { result ≡ gate_of self }
        ensures low { result ≤ 2 }
    {
        match self {
            Side::A => 1,
            Side::B => 2,
        }
    }
}

/// A stripe on its device, in blocks of 512 bytes.
#[derive(Clone, Copy, Debug, PartialEq, Eq)]
pub struct Area {
    pub geometry: Geometry,
    /// Blocks that the directory takes in each copy.
    pub directory: u64,
    ghost some: { 1 ≤ directory },
    ghost few: { directory ≤ 2 ^ 40 },
}

impl Area {
    ghost use Rattle.stripe_header.specs.Layout.{body_of, body_blocks, content_of, block_of_place, stripe_blocks, device_blocks};

    /// The first block of a copy's body.
    pub fn body(&self, side: Side) -> u64
        ensures value { result ≡ body_of self.now side }
        ensures behind { 2 < result }
        ensures within { result + body_blocks self.now ≤ content_of self.now }
    {
        match side {
            Side::A => 3,
            Side::B => 5 + self.directory,
        }
    }

    /// The blocks of a body: a header, the directory and a footer.
    pub fn body_blocks(&self) -> u64
        ensures { result ≡ body_blocks self.now }
    {
        self.directory + 2
    }

    /// The first block of the content.
    pub fn content(&self) -> u64
        ensures { result ≡ content_of self.now }
    {
        7 + 2 * self.directory
    }

    /// The block of a place of the endless tape.
    pub fn block_of(&self, place: u64) -> u64
        ensures value { result ≡ block_of_place self.now place }
        ensures within { result < device_blocks self.now }
    {
        self.content() + slot(&self.geometry, place)
    }

    /// The blocks behind the span's header.
    pub fn stripe_blocks(&self) -> u64
        ensures { result ≡ stripe_blocks self.now }
    {
        2 * self.directory + self.geometry.content + 6
    }

    /// The blocks of the whole device.
    pub fn blocks(&self) -> u64
        ensures { result ≡ device_blocks self.now }
    {
        self.content() + self.geometry.content
    }
}
