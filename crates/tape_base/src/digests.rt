// Digests of byte strings, and what two equal ones say.
ghost use Rattle.std.specs.Prelude.{◌≡◌};
ghost use Rattle.tape_base.specs.Digest.{DigestsTell, NumbersShowNothing, SidesAreBytes, digest_of};

use sha_words::digest;

/// A SHA-256 digest.
#[derive(Clone, Copy, Debug, PartialEq, Eq, Hash)]
pub struct Digest(pub [u8; 32]);

impl Digest {
    pub fn of(bytes: &[u8]) -> Digest
        ensures { result ≡ digest_of bytes.now }
    {
        Digest(digest(bytes))
    }
}

/// A law for proofs; it does nothing when it runs.
pub fn digests_tell()
    ensures { DigestsTell }
{}

/// A law for proofs; it does nothing when it runs.
pub fn sides_are_bytes()
    ensures sides { SidesAreBytes }
    ensures numbers { NumbersShowNothing }
{}
