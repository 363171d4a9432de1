// What no clause of `edge_io` says: lines that were worked out by hand, and how often a stream of std is tried again.
use edge_io::{Failed, LineReader, MemSource, Sink, Source, StdSink, StdSource};
use std::alloc::AllocError;
use std::io;
use std::io::{ErrorKind, Read, Write};
use std::test::Fail;

/// Shows the lines of a source, each with a bar behind it, and passes over faults.
fn show(reader: &mut LineReader<MemSource>, shown: &mut Vec<u8>) -> Result<(), AllocError> {
    for _ in 0..9 {
        match reader.next_line() {
            Ok(Some(line)) => {
                shown.extend_from_slice(line)?;
                shown.push(b'|')?;
            }
            Ok(None) => return Ok(()),
            Err(_) => {}
        }
    }
    Ok(())
}

#[test]
fn lines_are_the_same_in_whatever_pieces_and_behind_a_fault(rt: HostRuntime) -> Result<(), Fail> {
    let rows: [(&[u8], &[u8]); 5] = [
        (b"\n", b"|"),
        (b"a", b"a|"),
        (b"ab\nc\n", b"ab|c|"),
        (b"a\n\nbc", b"a||bc|"),
        (b"\r\nx\r\n", b"\r|x\r|"),
    ];
    for (text, want) in rows {
        for piece in [1, 2, 3, 100] {
            // The second read fails.
            let fail_at = vec![in rt.alloc(); 2]?;
            let source = MemSource::new(text.to_vec(rt.alloc())?, fail_at);
            let mut source = source.in_pieces_of(piece);
            let mut shown = Vec::new(rt.alloc());
            let mut reader = LineReader::new(rt.alloc(), &mut source)?;
            show(&mut reader, &mut shown)?;
            drop(reader);
            assert_eq!(rt; shown.as_slice(), want, "{text:?} in pieces of {piece}");
            assert_eq!(rt; source.faults(), 1);
        }
    }
    Ok(())
}

/// A stream that is interrupted so many times before each call, and then moves some bytes, or fails.
#[derive(Drop)]
struct Stutter {
    waits: u32,
    left: u32,
    moves: io::Result<usize>,
    flushes: io::Result<()>,
}

impl Stutter {
    fn step(&mut self) -> io::Result<usize> {
        if self.left > 0 {
            self.left -= 1;
            return Err(io::Error::from(ErrorKind::Interrupted));
        }
        self.left = self.waits;
        self.moves
    }
}

impl Read for Stutter {
    fn read(&mut self, buf: &mut [u8]) -> io::Result<usize> {
        let count = self.step()?.min(buf.len());
        buf[..count].fill(b'r');
        Ok(count)
    }
}

impl Write for Stutter {
    fn write(&mut self, buf: &[u8]) -> io::Result<usize> {
        Ok(self.step()?.min(buf.len()))
    }

    fn flush(&mut self) -> io::Result<()> {
        self.flushes
    }
}

fn stuttering(waits: u32, moves: io::Result<usize>, flushes: io::Result<()>) -> Stutter {
    Stutter {
        waits,
        left: waits,
        moves,
        flushes,
    }
}

#[test]
fn an_interrupted_call_is_tried_again_1000_times(rt: HostRuntime) {
    let broken = io::Error::from(ErrorKind::StorageFull);
    let rows = [
        // how often each call is interrupted, what it moves then, and what four bytes are read as
        (0, Ok(1), Ok(1)),
        (1_000, Ok(1), Ok(1)),
        (1_001, Ok(1), Err(Failed)),
        (0, Ok(0), Ok(0)),
        (0, Err(broken), Err(Failed)),
    ];
    for (waits, moves, want) in rows {
        let mut source = StdSource::new(stuttering(waits, moves, Ok(())));
        assert_eq!(rt; source.read(&mut [0; 4]), want, "behind {waits}");
        assert_eq!(rt; source.faults(), u64::from(want.is_err()));
    }
}

#[test]
fn a_sink_fails_where_its_writer_takes_nothing_or_cannot_flush(rt: HostRuntime) {
    let broken = io::Error::from(ErrorKind::StorageFull);
    let rows = [
        (0, Ok(1), Ok(()), Ok(())),
        (1_000, Ok(1), Ok(()), Ok(())),
        (1_001, Ok(1), Ok(()), Err(Failed)),
        (0, Ok(0), Ok(()), Err(Failed)),
        (0, Err(broken), Ok(()), Err(Failed)),
        (0, Ok(9), Err(broken), Err(Failed)),
    ];
    for (waits, moves, flushes, want) in rows {
        let mut sink = StdSink::new(stuttering(waits, moves, flushes));
        assert_eq!(rt; sink.write_all(b"abc"), want, "behind {waits}");
        assert_eq!(rt; sink.faults(), u64::from(want.is_err()));
    }
}
