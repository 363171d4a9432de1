// The stripes of which the tests speak.
use tape_base::Geometry;

/// 64 blocks of content, a buffer of 8 and a reach of 16 blocks: lap 1 is from 64 to 127.
pub fn with_segments(segments: u32, buckets: u32) -> Result<Geometry, &'static str> {
    match Geometry::check(segments, buckets, 64, 8, 16, 4, 7) {
        Ok(geometry) => Ok(geometry),
        Err(_) => Err("refused"),
    }
}

/// The same with one segment.
pub fn small() -> Result<Geometry, &'static str> {
    with_segments(1, 64)
}
