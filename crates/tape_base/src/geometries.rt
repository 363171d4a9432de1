// The numbers by which a cache is laid out, and which of them are refused.
ghost use Rattle.std.specs.Prelude.{◌≡◌, ◌↔◌, IsOk, IfOk};
ghost use Rattle.std.specs.Result.{result_err};
ghost use Rattle.tape_base.specs.Limits.{AlternatesAreLast, IsGeometry, MayKeep, alternates_refusal, first_refusal};

use crate::blocks::blocks_of_document;
use thiserror::Error;

// What the content area and the reach stay below, in blocks.
const LIMIT: u64 = 1 << 40;

// The most alternates of a geometry for which no other number is asked.
const ALTERNATES: u32 = 5;

/// How a stripe is laid out.
#[derive(Clone, Copy, Debug, PartialEq, Eq)]
pub struct Geometry {
    /// Segments of the directory.
    pub segments: u32,
    /// Buckets of each segment.
    pub buckets: u32,
    /// Blocks of the content area, which is one lap of the tape.
    pub content: u64,
    /// Blocks of the aggregation buffer.
    pub agg: u32,
    /// Blocks that may be written behind the cursor of the last sync.
    pub reach: u64,
    /// Bytes of a fragment.
    pub fragment: u32,
    /// A number that tells the documents of one format from those of another.
    pub generation: u64,
    /// The most alternates that a vector lists.
    pub alternates: u32,
    ghost accepted: { IsGeometry segments buckets content agg reach fragment },
    ghost keeps: { MayKeep alternates },
}

/// The number that is refused.
#[derive(Clone, Copy, Debug, PartialEq, Eq, Error)]
pub enum BadGeometry {
    #[error("a directory has 1 to 4096 segments")]
    Segments,
    #[error("a segment has 1 to 16383 buckets")]
    Buckets,
    #[error("a buffer has 8 to 8192 blocks, and an even number of them")]
    Agg,
    #[error("the content has at least four buffers of blocks, and fewer than 2^40 blocks")]
    Content,
    #[error("the reach has at least a buffer of blocks, and fewer than 2^40 blocks")]
    Reach,
    #[error("a fragment has at least one byte, and its document at most half a buffer of blocks")]
    Fragment,
    #[error("1 to 16 alternates are kept of an object")]
    Alternates,
}

impl Geometry {
    ghost use Rattle.tape_base.specs.Geometry.{HasNumbers};

    /// Five alternates are kept of an object; `with_alternates` asks for another number.
    pub fn check(
        segments: u32,
        buckets: u32,
        content: u64,
        agg: u32,
        reach: u64,
        fragment: u32,
        generation: u64,
    ) -> Result<Geometry, BadGeometry>
        ensures accepted { IsOk result ↔ IsGeometry segments buckets content agg reach fragment }
        ensures numbers { IfOk result (λ g.
            HasNumbers g segments buckets content agg reach fragment generation 5) }
        ensures refused { result_err result
            ≡ first_refusal segments buckets content agg reach fragment 5 }
    {
        if !(1..=4096).contains(&segments) {
            return Err(BadGeometry::Segments);
        }
        if !(1..=16383).contains(&buckets) {
            return Err(BadGeometry::Buckets);
        }
        if !(8..=8192).contains(&agg) || agg % 2 == 1 {
            return Err(BadGeometry::Agg);
        }
        let least = agg as u64;
        if content < 4 * least || content >= LIMIT {
            return Err(BadGeometry::Content);
        }
        if reach < least || reach >= LIMIT {
            return Err(BadGeometry::Reach);
        }
        if fragment == 0 || blocks_of_document(fragment as u64) > least / 2 {
            return Err(BadGeometry::Fragment);
        }
        Ok(Geometry {
            segments,
            buckets,
            content,
            agg,
            reach,
            fragment,
            generation,
            alternates: ALTERNATES,
        })
    }

    /// The same geometry with another number of alternates.
    pub fn with_alternates(self, most: u32) -> Result<Geometry, BadGeometry>
        ensures accepted { IsOk result ↔ MayKeep most }
        ensures numbers { IfOk result (λ g. HasNumbers g self.segments self.buckets self.content
            self.agg self.reach self.fragment self.generation most) }
        ensures refused { result_err result ≡ alternates_refusal most }
    {
        if !(1..=16).contains(&most) {
            return Err(BadGeometry::Alternates);
        }
        Ok(Geometry {
            segments: self.segments,
            buckets: self.buckets,
            content: self.content,
            agg: self.agg,
            reach: self.reach,
            fragment: self.fragment,
            generation: self.generation,
            alternates: most,
        })
    }

    /// The geometry of a stripe for which no other is asked.
    pub fn usual(generation: u64) -> Geometry
        ensures { HasNumbers result 4 8192 2097152 8192 65536 1048576 generation 5 }
    {
        Geometry {
            segments: 4,
            buckets: 8192,
            content: 2_097_152,
            agg: 8192,
            reach: 65_536,
            fragment: 1_048_576,
            generation,
            alternates: ALTERNATES,
        }
    }
}

/// A law for proofs; it does nothing when it runs.
pub fn alternates_are_last()
    ensures { AlternatesAreLast }
{}
