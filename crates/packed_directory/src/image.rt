// The bytes of a packed directory, and what they say.
ghost use Rattle.std.specs.Prelude.{◌≡◌, ℕ, ◌+◌, ◌*◌, ◌≤◌, ◌<◌, ◌++◌, ◌∷◌, [], length, take, drop, replicate, ◌-◌, All, IfOk, IfErr, OnOk};
ghost use Rattle.dir_segment.specs.Image.{image_lists, image_walk, IsFault, WalkIsSound};
ghost use Rattle.packed_directory.specs.PackedImage.{segment_length, segment_image, image_segments, entries_in, IsImageOfSegments, IsImageFault, IsFirstFault};

use crate::fault::ImageFault;
use dir_segment::{Segment, SegmentFault};
use std::alloc::{AllocError, Global};
use tape_base::Geometry;

/// The bytes of a segment.
pub fn segment_length(g: &Geometry) -> usize
    ensures { result ≡ segment_length g.now }
{
    4 + 40 * g.buckets as usize
}

// One segment of an image.
fn read_segment(
    alloc: Global,
    g: &Geometry,
    number: u32,
    bytes: &[u8],
) -> Result<Segment, ImageFault>
    requires within { number < g.now.segments }
    requires len { g.now.segments * segment_length g.now ≤ length bytes.now }
    requires before { (n : ℕ) → n < number
        → WalkIsSound (image_walk g.now.buckets (segment_image g.now n bytes.now)) }
    ensures lists { IfOk result (λ s. s ≡ image_lists g.now.buckets (segment_image g.now number bytes.now)) }
    ensures width { IfOk result (λ s. length s.chains ≡ g.now.buckets) }
    ensures sound { OnOk result (WalkIsSound (image_walk g.now.buckets (segment_image g.now number bytes.now))) }
    ensures fault { IfErr result (λ f. IsImageFault g.now bytes.now f) }
{
    let length = segment_length(g);
    let start = number as usize * length;
    let front = &bytes[start..start + length];
    match Segment::from_bytes(alloc, g.buckets, front) {
        Ok(segment) => Ok(segment),
        Err(SegmentFault::Memory(e)) => Err(ImageFault::Memory(e)),
        Err(SegmentFault::BadLink { slot }) => Err(ImageFault::Segment {
            number,
            fault: SegmentFault::BadLink { slot },
        }),
        Err(SegmentFault::Loop { slot }) => Err(ImageFault::Segment {
            number,
            fault: SegmentFault::Loop { slot },
        }),
        Err(SegmentFault::FreeListCount { kept, found }) => Err(ImageFault::Segment {
            number,
            fault: SegmentFault::FreeListCount { kept, found },
        }),
    }
}

fn push(segments: &mut Vec<Segment>, segment: Segment) -> Result<(), AllocError>
    ensures { OnOk result (segments.new.items ≡ segments.old.items ++ segment ∷ []) }
{
    segments.push(segment)?;
    Ok(())
}

/// The segments of an image, or its first fault.
pub fn read_segments(alloc: Global, g: &Geometry, bytes: &[u8]) -> Result<Vec<Segment>, ImageFault>
    requires len { g.now.segments * segment_length g.now ≤ length bytes.now }
    ensures segments { IfOk result (λ all. all.items ≡ image_segments g.now bytes.now) }
    ensures sound { OnOk result (IsImageOfSegments g.now bytes.now) }
    ensures widths { IfOk result (λ all. All (λ l. length l.chains ≡ g.now.buckets) all.items) }
    ensures fault { IfErr result (λ f. IsImageFault g.now bytes.now f) }
{
    let mut segments = Vec::new(alloc);
    for number in 0..g.segments {
        let segment = read_segment(alloc, g, number, bytes)?;
        push(&mut segments, segment)?;
    }
    Ok(segments)
}

/// How many entries stand on the chains of all segments.
pub fn count_entries(segments: &[Segment]) -> u64
    requires few { length segments.now ≤ 4096 }
    ensures { result ≡ entries_in segments.now }
{
    let mut count = 0;
    for segment in segments {
        count += segment.used() as u64;
    }
    count
}

// Writes the bytes of a segment from a byte on.
fn put(segment: &Segment, start: usize, len: usize, into: &mut [u8])
    requires len { len ≡ 4 + 40 * length segment.now.chains }
    requires room { start + len ≤ length into.old }
    ensures len { length into.new ≡ length into.old }
    ensures before { take start into.new ≡ take start into.old }
    ensures lists { image_lists (length segment.now.chains) (take len (drop start into.new))
        ≡ segment.now }
    ensures sound { WalkIsSound (image_walk (length segment.now.chains) (take len (drop start into.new))) }
{
    segment.to_bytes(&mut into[start..start + len]);
}

// Writes zero bytes from a byte on.
fn clear_from(start: usize, into: &mut [u8])
    requires { start ≤ length into.old }
    ensures len { length into.new ≡ length into.old }
    ensures before { take start into.new ≡ take start into.old }
    ensures zero { drop start into.new ≡ replicate (length into.old - start) 0 }
{
    into[start..].fill(0);
}

/// Writes the segments in order, and zero bytes behind them.
pub fn write_segments(g: &Geometry, segments: &[Segment], into: &mut [u8])
    requires count { length segments.now ≡ g.now.segments }
    requires widths { All (λ l. length l.chains ≡ g.now.buckets) segments.now }
    requires len { g.now.segments * segment_length g.now ≤ length into.old }
    ensures segments { image_segments g.now into.new ≡ segments.now }
    ensures sound { IsImageOfSegments g.now into.new }
    ensures zero { let end = g.now.segments * segment_length g.now in
        drop end into.new ≡ replicate (length into.old - end) 0 }
{
    let len = segment_length(g);
    for i in 0..segments.len() {
        put(&segments[i], i * len, len, into);
    }
    clear_from(segments.len() * len, into);
}
