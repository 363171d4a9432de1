// Fields of bytes: what stands at a place, and what is put there.
ghost use Rattle.std.specs.Prelude.{◌≡◌, ◌≤◌, ◌+◌, ◌-◌, ◌++◌, length, take, replicate};
ghost use Rattle.std.specs.Int.{to_le_bytes, w32, w64};
ghost use Rattle.stripe_header.specs.Spelling.{then_sizes, then_extents, numbers_of};
ghost use Rattle.stripe_header.specs.Reading.{block_bytes, block_number};

use tape_base::Geometry;

#[tactic(auto, unfolding(crate::specs::Reading::block_bytes))]
pub fn field(bytes: &[u8], at: usize, count: usize) -> &[u8]
    requires { at + count ≤ length bytes.now }
    ensures field { result.now ≡ block_bytes at count bytes.now }
    ensures len { length result.now ≡ count }
{
    let (_, behind) = bytes.split_at(at);
    let (field, _) = behind.split_at(count);
    field
}

pub fn array<const N: usize>(bytes: &[u8], at: usize) -> [u8; N]
    requires { at + N ≤ length bytes.now }
    ensures { result ≡ block_bytes at N bytes.now }
{
    let mut array = [0; N];
    array.copy_from_slice(field(bytes, at, N));
    array
}

#[tactic(auto, unfolding(crate::specs::Reading::block_number))]
pub fn number_32(bytes: &[u8], at: usize) -> u32
    requires { at + 4 ≤ length bytes.now }
    ensures { result ≡ block_number w32 at bytes.now }
{
    u32::from_le_bytes(array(bytes, at))
}

#[tactic(auto, unfolding(crate::specs::Reading::block_number))]
pub fn number_64(bytes: &[u8], at: usize) -> u64
    requires { at + 8 ≤ length bytes.now }
    ensures { result ≡ block_number w64 at bytes.now }
{
    u64::from_le_bytes(array(bytes, at))
}

/// Puts a field behind the first `at` bytes, and tells where it ends.
pub fn put(into: &mut [u8], at: usize, field: &[u8]) -> usize
    requires { at + length field.now ≤ length into.old }
    ensures end { result ≡ at + length field.now }
    ensures front { take result into.new ≡ take at into.old ++ field.now }
    ensures len { length into.new ≡ length into.old }
{
    let end = at + field.len();
    into[at..end].copy_from_slice(field);
    end
}

fn clear(into: &mut [u8])
    ensures { into.new ≡ replicate (length into.old) 0 }
{
    into.fill(0);
}

/// Zeros behind the first `at` bytes.
pub fn put_zeros(into: &mut [u8], at: usize)
    requires { at ≤ length into.old }
    ensures { into.new ≡ take at into.old ++ replicate (length into.old - at) 0 }
{
    clear(&mut into[at..]);
}

/// Bytes 12 to 27.
pub fn put_sizes(into: &mut [u8], at: usize, g: &Geometry) -> usize
    requires { at + 16 ≤ length into.old }
    ensures end { result ≡ at + 16 }
    ensures front { take result into.new ≡ then_sizes (take at into.old) (numbers_of g.now) }
    ensures len { length into.new ≡ length into.old }
{
    let at = put(into, at, &g.segments.to_le_bytes());
    let at = put(into, at, &g.buckets.to_le_bytes());
    let at = put(into, at, &g.agg.to_le_bytes());
    put(into, at, &g.fragment.to_le_bytes())
}

/// Bytes 28 to 55, of which the first four are `alternates`.
pub fn put_extents(into: &mut [u8], at: usize, g: &Geometry, alternates: u32) -> usize
    requires { at + 28 ≤ length into.old }
    ensures end { result ≡ at + 28 }
    ensures front { take result into.new
        ≡ then_extents (take at into.old) (numbers_of g.now) alternates }
    ensures len { length into.new ≡ length into.old }
{
    let at = put(into, at, &alternates.to_le_bytes());
    let at = put(into, at, &g.content.to_le_bytes());
    let at = put(into, at, &g.reach.to_le_bytes());
    put(into, at, &g.generation.to_le_bytes())
}
