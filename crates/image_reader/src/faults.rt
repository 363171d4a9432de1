// The lines of a fault.
use crate::side_name;
use dir_segment::SegmentFault;
use hex::encode;
use reopening::OpenFault;
use std::alloc::{AllocError, Global};
use stripe_header::{CopyFault, SpanFault};
use tape_base::Digest;

fn push(out: &mut String, line: String) -> Result<(), AllocError> {
    out.push_str(line.as_str())
}

fn span_name(fault: &SpanFault) -> &'static str {
    match fault {
        SpanFault::Magic => "Magic",
        SpanFault::Version => "Version",
        SpanFault::Digest { .. } => "Digest",
        SpanFault::Geometry => "Geometry",
    }
}

fn copy_name(fault: &CopyFault) -> &'static str {
    match fault {
        CopyFault::GateShut => "GateShut",
        CopyFault::Magic => "Magic",
        CopyFault::Version => "Version",
        CopyFault::Serials { .. } => "Serials",
        CopyFault::Digest { .. } => "Digest",
        CopyFault::Geometry => "Geometry",
    }
}

fn digests_text(
    alloc: Global,
    kept: &Digest,
    found: &Digest,
    out: &mut String,
) -> Result<(), AllocError> {
    let kept = encode(alloc, &kept.0)?;
    let found = encode(alloc, &found.0)?;
    push(out, format!(in alloc; "kept {kept} found {found}\n")?)
}

// What a copy's fault says beside its name.
fn copy_text(alloc: Global, fault: &CopyFault, out: &mut String) -> Result<(), AllocError> {
    match fault {
        CopyFault::Serials { head, foot } => {
            push(out, format!(in alloc; "head {head} foot {foot}\n")?)
        }
        CopyFault::Digest { kept, found } => digests_text(alloc, kept, found, out),
        _ => Ok(()),
    }
}

pub fn span_text(alloc: Global, fault: &SpanFault, out: &mut String) -> Result<(), AllocError> {
    let name = span_name(fault);
    push(out, format!(in alloc; "BadSpan: {name}\n")?)?;
    match fault {
        SpanFault::Digest { kept, found } => digests_text(alloc, kept, found, out),
        _ => Ok(()),
    }
}

fn segment_name(fault: &SegmentFault) -> &'static str {
    match fault {
        SegmentFault::BadLink { .. } => "BadLink",
        SegmentFault::Loop { .. } => "Loop",
        SegmentFault::FreeListCount { .. } => "FreeListCount",
        SegmentFault::Memory(_) => "Memory",
    }
}

fn segment_text(alloc: Global, fault: &SegmentFault, out: &mut String) -> Result<(), AllocError> {
    match fault {
        SegmentFault::BadLink { slot } | SegmentFault::Loop { slot } => {
            push(out, format!(in alloc; "slot {slot}\n")?)
        }
        SegmentFault::FreeListCount { kept, found } => {
            push(out, format!(in alloc; "kept {kept} found {found}\n")?)
        }
        SegmentFault::Memory(_) => Ok(()),
    }
}

pub fn fault_text(alloc: Global, fault: &OpenFault, out: &mut String) -> Result<(), AllocError> {
    match fault {
        OpenFault::NoCopy { a, b } => {
            let one = copy_name(a);
            let other = copy_name(b);
            push(out, format!(in alloc; "NoCopy: A {one}, B {other}\n")?)?;
            copy_text(alloc, a, out)?;
            copy_text(alloc, b, out)
        }
        OpenFault::BadDirectory {
            side,
            segment,
            fault,
        } => {
            let side = side_name(*side);
            let name = segment_name(fault);
            push(
                out,
                format!(in alloc; "BadDirectory: copy {side}, segment {segment}, {name}\n")?,
            )?;
            segment_text(alloc, fault, out)
        }
        OpenFault::Memory(_) => Ok(()),
    }
}
