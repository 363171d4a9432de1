// The span: the first block of a device.
ghost use Rattle.std.specs.Prelude.{◌≡◌, ◌≤◌, ◌+◌, ◌++◌, ℕ, None, length, take, IfOk, IfSome};
ghost use Rattle.sha2.specs.Sha256.{sha256};
ghost use Rattle.tape_base.specs.Digest.{digest_of};
ghost use Rattle.stripe_header.specs.Accepted.{FitsFields, IsSpan};
ghost use Rattle.std.specs.Option.{is_some};
ghost use Rattle.stripe_header.specs.Layout.{stripe_blocks};
ghost use Rattle.stripe_header.specs.Spelling.{Numbers, numbers_of, spelled_alternates, span_fields, span_bytes};
ghost use Rattle.stripe_header.specs.Reading.{version_in, span_numbers, span_blocks, are_accepted, is_laid, seal_fault, span_fault, SpanAnswers};

use crate::area::Area;
use crate::fields::{array, field, number_32, number_64, put, put_extents, put_sizes, put_zeros};
use crate::states::{Span, SpanFault};
use tape_base::{Digest, Geometry, alternates_are_last};

const MAGIC: [u8; 8] = *b"TSCSPAN1";

const VERSION: u32 = 2;

// The alternates that a span of version 1 means.
const ALTERNATES: u32 = 5;

const FIELDS: usize = 72;

fn spelled_alternates(version: u32, g: &Geometry) -> u32
    ensures { result ≡ spelled_alternates version (numbers_of g.now) }
{
    if version == 1 { 0 } else { g.alternates }
}

// Bytes 0 to 71.
#[tactic(auto, unfolding(crate::specs::Spelling::span_fields))]
fn put_fields(into: &mut [u8], version: u32, g: &Geometry, blocks: u64) -> usize
    requires { 72 ≤ length into.old }
    ensures end { result ≡ 72 }
    ensures front { take 72 into.new ≡ span_fields version (numbers_of g.now) blocks }
    ensures len { length into.new ≡ length into.old }
{
    let at = put(into, 0, &MAGIC);
    let at = put(into, at, &version.to_le_bytes());
    let at = put_sizes(into, at, g);
    let at = put_extents(into, at, g, spelled_alternates(version, g));
    let at = put(into, at, &1u64.to_le_bytes());
    put(into, at, &blocks.to_le_bytes())
}

fn front_digest(bytes: &[u8], at: usize) -> Digest
    requires { at ≤ length bytes.now }
    ensures { result ≡ digest_of (take at bytes.now) }
{
    let (front, _) = bytes.split_at(at);
    Digest::of(front)
}

// The digest of the first `at` bytes, behind them.
fn put_digest(into: &mut [u8], at: usize) -> usize
    requires { at + 32 ≤ length into.old }
    ensures end { result ≡ at + 32 }
    ensures front { take result into.new ≡ take at into.old ++ sha256 (take at into.old) }
    ensures len { length into.new ≡ length into.old }
{
    let digest = front_digest(into, at);
    put(into, at, &digest.0)
}

fn put_span(into: &mut [u8], version: u32, g: &Geometry, blocks: u64)
    requires { length into.old ≡ 512 }
    ensures bytes { into.new ≡ span_bytes version (numbers_of g.now) blocks }
    ensures len { length into.new ≡ 512 }
{
    let at = put_fields(into, version, g, blocks);
    let at = put_digest(into, at);
    put_zeros(into, at);
}

/// Writes the span of a stripe.
#[tactic(auto, using(crate::proofs::SpanLaws::have_fields))]
pub fn write_span(area: &Area, into: &mut [u8; 512])
    ensures bytes { into.new ≡ span_bytes 2 (numbers_of area.now.geometry)
        (stripe_blocks area.now) }
    // So `read_span` accepts it.
    ensures span { IsSpan into.new 2 (numbers_of area.now.geometry) (stripe_blocks area.now) }
    ensures fits { FitsFields (numbers_of area.now.geometry) (stripe_blocks area.now) }
{
    // Each of these has a field that can spell it.
    let _fragment = area.geometry.fragment;
    let _generation = area.geometry.generation;
    put_span(into, VERSION, &area.geometry, area.stripe_blocks());
}

#[tactic(auto, unfolding(crate::specs::Reading::seal_fault))]
fn seal_fault(bytes: &[u8]) -> Option<SpanFault>
    requires { length bytes.now ≡ 512 }
    ensures { result ≡ seal_fault bytes.now }
{
    if field(bytes, 0, 8) != MAGIC.as_slice() {
        return Some(SpanFault::Magic);
    }
    let version = number_32(bytes, 8);
    if version != 1 && version != 2 {
        return Some(SpanFault::Version);
    }
    let kept = Digest(array(bytes, FIELDS));
    let found = Digest::of(field(bytes, 0, FIELDS));
    if kept.0 != found.0 {
        return Some(SpanFault::Digest { kept, found });
    }
    None
}

fn alternates_in(bytes: &[u8]) -> u32
    requires { length bytes.now ≡ 512 }
    ensures { result ≡ (span_numbers bytes.now).alternates }
{
    if number_32(bytes, 8) == 1 {
        ALTERNATES
    } else {
        number_32(bytes, 28)
    }
}

// The geometry that the bytes tell, if it is accepted.
fn geometry_in(bytes: &[u8]) -> Option<Geometry>
    requires { length bytes.now ≡ 512 }
    ensures numbers { IfSome result (λ g. numbers_of g ≡ span_numbers bytes.now) }
    ensures accepted { is_some result ≡ are_accepted (span_numbers bytes.now) }
{
    alternates_are_last();
    let checked = Geometry::check(
        number_32(bytes, 12),
        number_32(bytes, 16),
        number_64(bytes, 32),
        number_32(bytes, 20),
        number_64(bytes, 40),
        number_32(bytes, 24),
        number_64(bytes, 48),
    );
    match checked {
        Err(_) => None,
        Ok(geometry) => match geometry.with_alternates(alternates_in(bytes)) {
            Err(_) => None,
            Ok(geometry) => Some(geometry),
        },
    }
}

fn is_laid(bytes: &[u8], g: &Geometry, blocks: u64) -> bool
    requires long { length bytes.now ≡ 512 }
    requires numbers { numbers_of g.now ≡ span_numbers bytes.now }
    requires blocks { blocks ≡ span_blocks bytes.now }
    ensures { result ≡ is_laid bytes.now }
{
    let mut spelled = [0; 512];
    put_span(&mut spelled, number_32(bytes, 8), g, blocks);
    blocks >= g.content + 6 && bytes == spelled.as_slice()
}

#[tactic(auto, unfolding(crate::specs::Reading::span_fault))]
fn read(bytes: &[u8]) -> Result<Span, SpanFault>
    requires { length bytes.now ≡ 512 }
    ensures exact { SpanAnswers result (span_fault bytes.now) (span_numbers bytes.now)
        (span_blocks bytes.now) }
{
    if let Some(fault) = seal_fault(bytes) {
        return Err(fault);
    }
    match geometry_in(bytes) {
        None => Err(SpanFault::Geometry),
        Some(geometry) => {
            let blocks = number_64(bytes, 64);
            if is_laid(bytes, &geometry, blocks) {
                Ok(Span { geometry, blocks })
            } else {
                Err(SpanFault::Geometry)
            }
        }
    }
}

/// Reads the span of a device from its first block.
pub fn read_span(bytes: &[u8; 512]) -> Result<Span, SpanFault>
    ensures exact { SpanAnswers result (span_fault bytes.now) (span_numbers bytes.now)
        (span_blocks bytes.now) }
    // What is accepted is spelled so.
    ensures found { IfOk result (λ span.
        IsSpan bytes.now (version_in bytes.now) (numbers_of span.geometry) span.blocks) }
    // What is spelled so is accepted.
    ensures only { (version : ℕ) (n : Numbers) (blocks : ℕ) → FitsFields n blocks
        → IsSpan bytes.now version n blocks → SpanAnswers result None n blocks }
{
    read(bytes)
}
