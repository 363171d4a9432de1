// One field of a packed word, by its place.
ghost use Rattle.std.specs.Prelude.{◌≡◌, ℕ, ◌+◌, ◌*◌, ◌<◌, ◌^◌};
ghost use Rattle.dir_entry.specs.Layout.{IsFieldPlace, IsApart, field};

/// The `W` bits of a word from bit `LO` up, bit 0 being the lowest.
pub struct Bits<const LO: u32, const W: u32>;

impl<const LO: u32, const W: u32> Bits<LO, W> {
    /// The number that the field's bits spell.
    pub fn get(word: u128) -> u64
        requires place { IsFieldPlace LO W }
        ensures { result ≡ field LO W word }
    {
        ((word >> LO) % (1 << W)) as u64
    }

    /// The word with another number in the field.
    pub fn set(word: u128, value: u64) -> u128
        requires place { IsFieldPlace LO W }
        requires fits { value < 2 ^ W }
        ensures written { field LO W result ≡ value }
        ensures others { (lo w : ℕ) → IsApart lo w LO W → field lo w result ≡ field lo w word }
        ensures exact { result + field LO W word * 2 ^ LO ≡ word + value * 2 ^ LO }
    {
        let before = (Self::get(word) as u128) << LO;
        let after = (value as u128) << LO;
        word - before + after
    }
}
