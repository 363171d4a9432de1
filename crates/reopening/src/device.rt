// The stripe of a device, by its first block and its size.
ghost use Rattle.std.specs.Prelude.{◌≡◌, ◌≤◌, ◌*◌, ◌==◌, ◌&&◌, nat_le, length, take, IfOk, IfErr};
ghost use Rattle.stripe_header.specs.Layout.{device_blocks, stripe_blocks};
ghost use Rattle.stripe_header.specs.Reading.{span_blocks, span_fault, span_numbers, SpanAnswers};
ghost use Rattle.packed_directory.specs.PackedImage.{image_blocks_of};
ghost use Rattle.reopening.specs.Device.{IsArea, IsDeviceFault};

use packed_directory::{PackedDirectory, StoredDirectory};
use stripe_header::{Area, Span, SpanFault, read_span};

// The area of a span, with the directory of its geometry.
fn area_of(span: &Span) -> Area
    ensures geometry { result.geometry ≡ span.now.geometry }
    ensures directory { result.directory ≡ image_blocks_of span.now.geometry }
{
    Area {
        geometry: span.geometry,
        directory: PackedDirectory::image_blocks(&span.geometry),
    }
}

// The span in the first block.
fn first_span(image: &[u8]) -> Result<Span, SpanFault>
    requires { 512 ≤ length image.now }
    ensures { SpanAnswers result (span_fault (take 512 image.now))
        (span_numbers (take 512 image.now)) (span_blocks (take 512 image.now)) }
{
    let mut first = [0; 512];
    first.copy_from_slice(&image[..512]);
    read_span(&first)
}

// Whether the device has the stripe of a span.
fn has_stripe(image: &[u8], span: &Span, area: &Area) -> bool
    ensures { result ≡ (span.now.blocks == stripe_blocks area.now
        && nat_le (512 * device_blocks area.now) (length image.now)) }
{
    span.blocks == area.stripe_blocks() && 512 * area.blocks() <= image.len() as u64
}

/// Reads where the parts of a stripe lie on a device with these bytes.
pub fn read_area(image: &[u8]) -> Result<Area, SpanFault>
    ensures area { IfOk result (IsArea image.now) }
    ensures fault { IfErr result (IsDeviceFault image.now) }
{
    if image.len() < 512 {
        return Err(SpanFault::Geometry);
    }
    let span = first_span(image)?;
    let area = area_of(&span);
    if has_stripe(image, &span, &area) {
        Ok(area)
    } else {
        Err(SpanFault::Geometry)
    }
}
