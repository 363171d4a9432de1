// The lines of an inspection.
ghost use Rattle.std.specs.Prelude.{◌≡◌, ◌++◌, IfOk, string_bytes};
ghost use Rattle.stripe_header.specs.Layout.{device_blocks};
ghost use Rattle.stripe_header.specs.Spelling.{numbers_of};
ghost use Rattle.inspections.specs.Lines.{clean_text, copy_line, count_in, entries_line, extents_text, fault_line, fault_number, last_part, limits_text, lines_of, newest_count, newest_in, nothing_line, on_side, opens_by, side_name, sizes_text, span_line, told_line};

use crate::copies::CopyRead;
use crate::device::Inspection;
use reopening::Newest;
use std::alloc::{AllocError, Global};
use stripe_header::{Area, CopyFault, CopyState, Side};
use tape_base::Geometry;

#[tactic(auto, unfolding(crate::specs::Lines::sizes_text))]
fn sizes(alloc: Global, version: u32, blocks: u64, g: &Geometry) -> Result<String, AllocError>
    ensures { IfOk result (λ text. string_bytes text ≡ sizes_text version blocks (numbers_of g.now)) }
{
    let segments = g.segments;
    let buckets = g.buckets;
    format!(in alloc;
        "span version {version} blocks {blocks} segments {segments} buckets {buckets}"
    )
}

#[tactic(auto, unfolding(crate::specs::Lines::extents_text))]
fn extents(alloc: Global, g: &Geometry) -> Result<String, AllocError>
    ensures { IfOk result (λ text. string_bytes text ≡ extents_text (numbers_of g.now)) }
{
    let content = g.content;
    let agg = g.agg;
    let reach = g.reach;
    format!(in alloc; " content {content} agg {agg} reach {reach}")
}

#[tactic(auto, unfolding(crate::specs::Lines::limits_text))]
fn limits(alloc: Global, g: &Geometry) -> Result<String, AllocError>
    ensures { IfOk result (λ text. string_bytes text ≡ limits_text (numbers_of g.now)) }
{
    let fragment = g.fragment;
    let generation = g.generation;
    let alternates = g.alternates;
    format!(in alloc; " fragment {fragment} generation {generation} alternates {alternates}\n")
}

fn span_line(alloc: Global, version: u32, area: &Area) -> Result<String, AllocError>
    ensures { IfOk result (λ text. string_bytes text ≡ span_line version area.now) }
{
    let g = &area.geometry;
    let sizes = sizes(alloc, version, area.blocks(), g)?;
    let extents = extents(alloc, g)?;
    let limits = limits(alloc, g)?;
    format!(in alloc; "{sizes}{extents}{limits}")
}

fn side_name(side: Side) -> &'static str
    ensures { result.now ≡ side_name side }
{
    match side {
        Side::A => "A",
        Side::B => "B",
    }
}

fn fault_number(fault: &CopyFault) -> u32
    ensures { result ≡ fault_number fault.now }
{
    match fault {
        CopyFault::GateShut => 1,
        CopyFault::Magic => 2,
        CopyFault::Version => 3,
        CopyFault::Serials { .. } => 4,
        CopyFault::Digest { .. } => 5,
        CopyFault::Geometry => 6,
    }
}

pub(crate) fn clean_text(clean: bool) -> &'static str
    ensures { result.now ≡ clean_text clean }
{
    if clean { " clean" } else { "" }
}

#[tactic(auto, unfolding(crate::specs::Lines::told_line))]
fn told_line(alloc: Global, side: Side, state: &CopyState) -> Result<String, AllocError>
    ensures { IfOk result (λ text. string_bytes text ≡ told_line side state.now) }
{
    let name = side_name(side);
    let serial = state.serial;
    let cursor = state.cursor;
    let clean = clean_text(state.clean);
    format!(in alloc; "copy {name} serial {serial} cursor {cursor}{clean}\n")
}

#[tactic(auto, unfolding(crate::specs::Lines::fault_line))]
fn fault_line(alloc: Global, side: Side, fault: &CopyFault) -> Result<String, AllocError>
    ensures { IfOk result (λ text. string_bytes text ≡ fault_line side fault.now) }
{
    let name = side_name(side);
    let number = fault_number(fault);
    format!(in alloc; "copy {name} fault {number}\n")
}

fn copy_line(alloc: Global, side: Side, copy: &CopyRead) -> Result<String, AllocError>
    ensures { IfOk result (λ text. string_bytes text ≡ copy_line side copy.now) }
{
    match copy {
        CopyRead::Refused(fault) => fault_line(alloc, side, fault),
        CopyRead::Told { state, .. } => told_line(alloc, side, state),
    }
}

#[tactic(auto, unfolding(crate::specs::Lines::entries_line))]
fn entries_line(alloc: Global, side: Side, count: u64) -> Result<String, AllocError>
    ensures { IfOk result (λ text. string_bytes text ≡ entries_line side count) }
{
    let name = side_name(side);
    format!(in alloc; "newest {name} entries {count}\n")
}

// That of the two that an opening takes.
fn newest_in(a: &CopyRead, b: &CopyRead) -> Option<Newest>
    ensures { result ≡ newest_in a.now b.now }
{
    let newest = match (a, b) {
        (CopyRead::Refused(_), CopyRead::Refused(_)) => return None,
        (CopyRead::Told { state: a, .. }, CopyRead::Told { state: b, .. }) => {
            if a.serial < b.serial {
                (Side::B, *b)
            } else {
                (Side::A, *a)
            }
        }
        (CopyRead::Told { state, .. }, CopyRead::Refused(_)) => (Side::A, *state),
        (CopyRead::Refused(_), CopyRead::Told { state, .. }) => (Side::B, *state),
    };
    Some(Newest {
        side: newest.0,
        told: newest.1,
    })
}

fn count_in(copy: &CopyRead) -> Option<u64>
    ensures { result ≡ count_in copy.now }
{
    match copy {
        CopyRead::Refused(_) => None,
        CopyRead::Told { entries, .. } => *entries,
    }
}

// The entries of the copy that an opening takes.
fn newest_count(newest: Option<Newest>, a: &CopyRead, b: &CopyRead) -> Option<u64>
    ensures { result ≡ newest_count newest a.now b.now }
{
    match newest {
        None => None,
        Some(newest) => match newest.side {
            Side::A => count_in(a),
            Side::B => count_in(b),
        },
    }
}

fn last_part(
    alloc: Global,
    newest: Option<Newest>,
    count: Option<u64>,
) -> Result<String, AllocError>
    ensures { IfOk result (λ text. string_bytes text ≡ last_part newest count) }
{
    match (newest, count) {
        (Some(newest), Some(count)) => entries_line(alloc, newest.side, count),
        _ => Ok(String::new(alloc)),
    }
}

/// What an inspection says of a span of this version and of both copies.
pub(crate) fn said_of(
    alloc: Global,
    version: u32,
    area: &Area,
    a: &CopyRead,
    b: &CopyRead,
) -> Result<Inspection, AllocError>
    ensures text { IfOk result (λ said. string_bytes said.text ≡ lines_of version area.now a.now b.now) }
    ensures opens { IfOk result (λ said. said.opens ≡ opens_by a.now b.now) }
{
    let newest = newest_in(a, b);
    let count = newest_count(newest, a, b);
    let span = span_line(alloc, version, area)?;
    let one = copy_line(alloc, Side::A, a)?;
    let other = copy_line(alloc, Side::B, b)?;
    let last = last_part(alloc, newest, count)?;
    Ok(Inspection {
        text: format!(in alloc; "{span}{one}{other}{last}")?,
        opens: count.is_some(),
    })
}

/// The last line of an inspection of what does not open.
#[tactic(auto, unfolding(crate::specs::Lines::nothing_line))]
pub fn nothing_text() -> &'static str
    ensures { result.now ≡ nothing_line }
{
    "error no-cache\n"
}
