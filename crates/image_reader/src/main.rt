//! Prints what images of devices open to. Standard input has for each a line `blocks N`, and then a line
//! for each block that is not all zeros: its number and its first bytes in hex. The others are zeros. An
//! empty line stands between two images.
#![tactic(auto)]

mod faults;
mod image;
mod pieces;

use image::image_of;
use reopening::{OpenFault, Opened, open_image, read_area};
use std::alloc::{AllocError, Global};
use std::io::Write;
use std::process::ExitCode;
use std::{fmt, io};
use stripe_header::Side;

fn side_name(side: Side) -> &'static str {
    match side {
        Side::A => "A",
        Side::B => "B",
    }
}

fn mark_of(clean: bool) -> &'static str {
    if clean { " clean" } else { "" }
}

// The lines of an opening.
fn opened_text(alloc: Global, o: &Opened, out: &mut String) -> Result<(), AllocError> {
    let told = &o.newest.told;
    let mark = mark_of(told.clean);
    let found = o.found.len();
    let first = format!(in alloc;
        "opened serial {} cursor {} floor {} found {found}{mark}\n",
        told.serial, told.cursor, o.floor
    )?;
    out.push_str(first.as_str())?;
    let side = side_name(o.newest.side);
    let second = format!(in alloc;
        "newest {side} next {} dropped {}\n",
        told.next_put, o.dropped
    )?;
    out.push_str(second.as_str())?;
    pieces::pieces_text(alloc, &o.found, out)
}

// The lines of an image.
fn answer(alloc: Global, bytes: &[u8], out: &mut String) -> Result<(), AllocError> {
    let area = match read_area(bytes) {
        Ok(area) => area,
        Err(fault) => return faults::span_text(alloc, &fault, out),
    };
    match open_image(alloc, &area, &bytes[..512 * area.blocks() as usize]) {
        Ok(opened) => opened_text(alloc, &opened, out),
        Err(OpenFault::Memory(e)) => Err(e),
        Err(fault) => faults::fault_text(alloc, &fault, out),
    }
}

// The lines of each image; none where a text is none.
fn answers(alloc: Global, text: &str) -> Result<Option<String>, AllocError> {
    let mut out = String::new(alloc);
    for image in text.split("\n\n") {
        let Some(bytes) = image_of(alloc, image)? else {
            return Ok(None);
        };
        answer(alloc, &bytes, &mut out)?;
    }
    Ok(Some(out))
}

fn run(rt: &HostRuntime) -> Result<Option<String>, AllocError> {
    let alloc = rt.alloc();
    match io::read_to_string(alloc, rt.reader()) {
        Ok(text) => answers(alloc, text.as_str()),
        Err(_) => Ok(None),
    }
}

fn main(rt: HostRuntime) -> ExitCode {
    match run(&rt) {
        Ok(Some(text)) => match io::writer(&rt).write_all(text.as_bytes()) {
            Ok(()) => ExitCode::SUCCESS,
            Err(_) => ExitCode::from(5),
        },
        Ok(None) => ExitCode::from(3),
        Err(_) => ExitCode::from(9),
    }
}
