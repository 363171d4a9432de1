// Fields of bytes: what stands at a place.
ghost use Rattle.std.specs.Prelude.{◌≡◌, ◌≤◌, ◌+◌, length};
ghost use Rattle.std.specs.Int.{w32, w64};
ghost use Rattle.doc_header.specs.Reading.{doc_number, slice_at};

#[tactic(auto, unfolding(crate::specs::Reading::slice_at))]
pub fn field(bytes: &[u8], at: usize, count: usize) -> &[u8]
    requires { at + count ≤ length bytes.now }
    ensures field { result.now ≡ slice_at at count bytes.now }
    ensures len { length result.now ≡ count }
{
    let (_, behind) = bytes.split_at(at);
    let (field, _) = behind.split_at(count);
    field
}

pub fn array<const N: usize>(bytes: &[u8], at: usize) -> [u8; N]
    requires { at + N ≤ length bytes.now }
    ensures { result ≡ slice_at at N bytes.now }
{
    let mut array = [0; N];
    array.copy_from_slice(field(bytes, at, N));
    array
}

#[tactic(auto, unfolding(crate::specs::Reading::doc_number))]
pub fn number_32(bytes: &[u8], at: usize) -> u32
    requires { at + 4 ≤ length bytes.now }
    ensures { result ≡ doc_number w32 at bytes.now }
{
    u32::from_le_bytes(array(bytes, at))
}

#[tactic(auto, unfolding(crate::specs::Reading::doc_number))]
pub fn number_64(bytes: &[u8], at: usize) -> u64
    requires { at + 8 ≤ length bytes.now }
    ensures { result ≡ doc_number w64 at bytes.now }
{
    u64::from_le_bytes(array(bytes, at))
}
