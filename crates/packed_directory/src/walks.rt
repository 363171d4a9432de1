// Walks over the rows of a key, and over all rows.
ghost use Rattle.std.specs.Prelude.{◌≡◌, ◌≤◌, ◌^◌};
ghost use Rattle.packed_directory.specs.PackedWalks.{slot_before};

/// How far a walk over all rows has come. It holds until the directory changes.
#[derive(Clone, Copy, Debug)]
pub struct AllWalk {
    pub(crate) segment: u32,
    pub(crate) bucket: u32,
    pub(crate) after: Option<u16>,
}

/// The slot behind which a walk over the rows of a key goes on, if it does not begin.
pub fn slot_before(next: u64) -> Option<u16>
    requires { next ≤ 2 ^ 16 }
    ensures { result ≡ slot_before next }
{
    if next == 0 {
        return None;
    }
    Some((next - 1) as u16)
}
