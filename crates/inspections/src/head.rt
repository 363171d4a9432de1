// Where the stripe of a device lies.
ghost use Rattle.std.specs.Prelude.{◌≡◌, ◌≤◌, ◌==◌, ◌&&◌, nat_le, min, length, IfErr, IfOk, OnOk, IfSome, None};
ghost use Rattle.stripe_header.specs.Layout.{device_blocks, stripe_blocks};
ghost use Rattle.stripe_header.specs.Reading.{block_bytes, block_number, span_blocks, span_fault, span_numbers, version_in, SpanAnswers};
ghost use Rattle.packed_directory.specs.PackedImage.{image_blocks_of};
ghost use Rattle.inspections.specs.Head.{HeadIs, IsLaid};
ghost use Rattle.device_reads.specs.Reads.{Fails, Reads};

use device_reads::{ReadFault, read};
use logged_disk::Disk;
use packed_directory::{PackedDirectory, StoredDirectory};
use stripe_header::{Area, Span, read_span};

/// Where a stripe lies, and the version of its span.
#[derive(Clone, Copy, Debug)]
pub(crate) struct Head {
    pub area: Area,
    pub version: u32,
}

// The area of a span, with the directory of its geometry.
fn area_of(span: &Span) -> Area
    ensures geometry { result.geometry ≡ span.now.geometry }
    ensures directory { result.directory ≡ image_blocks_of span.now.geometry }
{
    Area {
        geometry: span.geometry,
        directory: PackedDirectory::image_blocks(&span.geometry),
    }
}

// Whether a device of so many blocks has the stripe of a span.
fn has_stripe(size: u64, span: &Span, area: &Area) -> bool
    ensures { result ≡ (span.now.blocks == stripe_blocks area.now && nat_le (device_blocks area.now) size) }
{
    span.blocks == area.stripe_blocks() && area.blocks() <= size
}

// The version that the block of a span tells.
#[tactic(auto, unfolding(stripe_header::specs::Reading::block_bytes, stripe_header::specs::Reading::block_number))]
fn version_of(block: &[u8; 512]) -> u32
    ensures { result ≡ version_in block.now }
{
    let mut field = [0; 4];
    field.copy_from_slice(&block[8..12]);
    u32::from_le_bytes(field)
}

// The stripe that the first block of a device of so many blocks tells, where one lies there.
fn head_of(block: &[u8; 512], size: u64) -> Option<Head>
    ensures is { HeadIs block.now size result }
    ensures laid { IfSome result (λ head. IsLaid size head.area) }
{
    let Ok(span) = read_span(block) else {
        return None;
    };
    let area = area_of(&span);
    if !has_stripe(size, &span, &area) {
        return None;
    }
    Some(Head {
        area,
        version: version_of(block),
    })
}

/// Reads where the stripe of a device lies.
pub(crate) fn read_head<D: Disk>(disk: &mut D) -> Result<Option<Head>, ReadFault>
    ensures head { IfOk result (λ head. Reads 0 (min 1 (D.state disk.old).size) 1 (D.state disk.old) (D.state disk.new) (λ c. HeadIs (c 0) (D.state disk.old).size head)) }
    ensures laid { IfOk result (λ head. IfSome head (λ h. IsLaid (D.state disk.old).size h.area)) }
    ensures unrefused { OnOk result ((D.state disk.new).faults ≡ (D.state disk.old).faults) }
    ensures fails { IfErr result (Fails 0 (min 1 (D.state disk.old).size) 1 (D.state disk.old) (D.state disk.new)) }
{
    let size = disk.blocks();
    if size == 0 {
        return Ok(None);
    }
    let mut block = [0; 512];
    read(disk, 0, &mut block)?;
    Ok(head_of(&block, size))
}
