// The size class of a document.
ghost use Rattle.std.specs.Prelude.{◌<◌, ◌↔◌, IfSome, IsNone};
ghost use Rattle.dir_entry.specs.Sizes.{IsLeastClass};

/// The least `big` whose units hold so many blocks, and then the least `size`.
pub fn size_class(blocks: u32) -> Option<(u8, u8)>
    requires some { 0 < blocks }
    ensures none { IsNone result ↔ (32768 < blocks) }
    ensures least { IfSome result (λ class. IsLeastClass blocks class.0 class.1) }
{
    match blocks {
        0..=64 => Some((0, (blocks - 1) as u8)),
        65..=512 => Some((1, ((blocks - 1) / 8) as u8)),
        513..=4096 => Some((2, ((blocks - 1) / 64) as u8)),
        4097..=32768 => Some((3, ((blocks - 1) / 512) as u8)),
        _ => None,
    }
}
