//! The program over the top call: it hands on its words and its streams, and exits with the status.
#![tactic(auto)]

use cache_top::{Blank, cache_main};
use device_bay::HostBay;
use edge_io::{Sink, Source, StdSink, StdSource};
use run_promise::Status;
use std::alloc::Global;
use std::fs::{File, Files};
use std::process::ExitCode;
use std::sync::Wait;
use std::thread::Threads;
use std::{env, io};

/// Runs the command over devices of the host.
fn run_on_host<R: Files<File = File>, S: Source, K: Sink, H: Threads + Wait + Sync>(
    rt: &H,
    alloc: Global,
    words: &[String],
    source: &mut S,
    sink: &mut K,
    bay: &mut HostBay<R, Blank>,
) -> Status {
    cache_main(rt, alloc, words, source, sink, bay)
}

fn main(rt: HostRuntime) -> ExitCode {
    let alloc = rt.alloc();
    let told: io::Result<Vec<String>> = env::args(&rt).and_then(|all| Ok(
        all.skip(1).collect(alloc)?,
    ));
    let words = match told {
        Ok(words) => words,
        // A word that is not UTF-8 is no command.
        Err(error) if error.kind() == io::ErrorKind::InvalidData => Vec::new(alloc),
        Err(_) => return ExitCode::from(Status::OutOfMemory.code()),
    };
    let mut source = StdSource::new(rt.reader());
    let mut sink = StdSink::new(io::writer(&rt));
    let mut bay: HostBay<&HostRuntime, Blank> = HostBay::new(&rt);
    let status = run_on_host(&rt, alloc, &words, &mut source, &mut sink, &mut bay);
    if let Some(refusal) = bay.refusal() {
        // (where it cannot be printed, the status says it)
        let _ = eprintln!(rt; "cache_tool: {refusal}");
    }
    ExitCode::from(status.code())
}
