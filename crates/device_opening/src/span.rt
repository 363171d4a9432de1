// Where the stripe of a device lies.
ghost use Rattle.std.specs.Prelude.{◌≡◌, ◌≤◌, ◌<◌, ◌==◌, ◌&&◌, nat_le, min, length, IfErr, IfOk, OnOk};
ghost use Rattle.stripe_header.specs.Layout.{device_blocks, stripe_blocks};
ghost use Rattle.packed_directory.specs.PackedImage.{image_blocks_of};
ghost use Rattle.reopening.specs.Device.{IsAreaOn, IsSpanFaultOn};
ghost use Rattle.device_opening.specs.Copies.{IsLaid};
ghost use Rattle.device_opening.specs.Faults.{SpanIs};
ghost use Rattle.device_reads.specs.Reads.{Fails, Reads};

use device_reads::{ReadFault, read};
use logged_disk::Disk;
use packed_directory::{PackedDirectory, StoredDirectory};
use stripe_header::{Area, Span, SpanFault, read_span};

// The area of a span, with the directory of its geometry.
fn area_of(span: &Span) -> Area
    ensures geometry { result.geometry ≡ span.now.geometry }
    ensures directory { result.directory ≡ image_blocks_of span.now.geometry }
{
    Area {
        geometry: span.geometry,
        directory: PackedDirectory::image_blocks(&span.geometry),
    }
}

// Whether a device of so many blocks has the stripe of a span.
fn has_stripe(size: u64, span: &Span, area: &Area) -> bool
    ensures { result ≡ (span.now.blocks == stripe_blocks area.now && nat_le (device_blocks area.now) size) }
{
    span.blocks == area.stripe_blocks() && area.blocks() <= size
}

// The stripe that the first block of a device of so many blocks tells.
fn area_in(block: &[u8; 512], size: u64) -> Result<Area, SpanFault>
    requires some { 0 < size }
    ensures area { IfOk result (IsAreaOn block.now size) }
    ensures fault { IfErr result (IsSpanFaultOn block.now size) }
{
    let span = read_span(block)?;
    let area = area_of(&span);
    if has_stripe(size, &span, &area) {
        Ok(area)
    } else {
        Err(SpanFault::Geometry)
    }
}

/// Reads where the stripe of a device lies, or why none does.
pub(crate) fn read_area<D: Disk>(disk: &mut D) -> Result<Result<Area, SpanFault>, ReadFault>
    ensures span { IfOk result (λ span. let size = (D.state disk.old).size in
        Reads 0 (min 1 size) 1 (D.state disk.old) (D.state disk.new) (λ c. SpanIs (c 0) size span)) }
    ensures laid { IfOk result (λ span. IfOk span (IsLaid (D.state disk.old).size)) }
    ensures unrefused { OnOk result ((D.state disk.new).faults ≡ (D.state disk.old).faults) }
    ensures fails { IfErr result (Fails 0 (min 1 (D.state disk.old).size) 1 (D.state disk.old) (D.state disk.new)) }
{
    let size = disk.blocks();
    if size == 0 {
        return Ok(Err(SpanFault::Geometry));
    }
    let mut block = [0; 512];
    read(disk, 0, &mut block)?;
    Ok(area_in(&block, size))
}
