//! The objects in memory, and the real ones over fakes that take parts and fail.
ghost use Rattle.std.specs.Prelude.{◌≤◌, length};

use sp_base::{ByteBuf, CallList, Mem};
use sp_outside::{MemSink, MemSource, RealSink, RealSource, Sink, SinkFault, Source, SourceFault};
use std::alloc::Global;
use std::cell::Cell;
use std::fmt::Display;
use std::io::{self, ErrorKind, Print, Read};

fn fails_at(alloc: Global, call: u64) -> Mem<CallList> {
    let mut fails = CallList::new(alloc);
    fails.push(call)?;
    Ok(fails)
}

fn gives_letters(source: &mut MemSource) -> bool {
    let mut buffer = [0u8; 8];
    source.read(&mut buffer) == Ok(6)
        && source.read(&mut buffer) == Ok(4)
        && buffer.as_slice() == b"ghijef\0\0".as_slice()
        && source.read(&mut buffer) == Err(SourceFault::Failed)
        && source.read(&mut buffer) == Ok(0)
}

fn gives_in_parts(alloc: Global) -> bool {
    match (ByteBuf::of(alloc, b"abcdefghij"), fails_at(alloc, 3)) {
        (Ok(bytes), Ok(fails)) => {
            let mut source = MemSource::in_parts(bytes, 6, fails);
            gives_letters(&mut source)
        }
        _ => false,
    }
}

fn takes_letters(sink: &mut MemSink) -> bool {
    sink.write(b"abc") == Ok(2)
        && sink.write(b"c") == Err(SinkFault::Failed)
        && sink.write(b"c") == Ok(1)
        && sink.bytes() == b"abc".as_slice()
}

fn takes_in_parts(alloc: Global) -> bool {
    match fails_at(alloc, 2) {
        Ok(fails) => {
            let mut sink = MemSink::in_parts(alloc, 2, fails);
            takes_letters(&mut sink)
        }
        Err(_) => false,
    }
}

fn gives_all(alloc: Global) -> bool {
    match ByteBuf::of(alloc, b"abcdef") {
        Ok(bytes) => {
            let mut buffer = [0u8; 8];
            let mut source = MemSource::new(bytes, CallList::new(alloc));
            source.read(&mut buffer) == Ok(6)
        }
        Err(_) => false,
    }
}

fn takes_all(alloc: Global) -> bool {
    let mut sink = MemSink::new(alloc, CallList::new(alloc));
    sink.write(b"abc") == Ok(3)
}

#[test]
fn gives_and_takes(rt: HostRuntime) {
    assert!(rt; gives_in_parts(rt.alloc()));
    assert!(rt; takes_in_parts(rt.alloc()));
    assert!(rt; gives_all(rt.alloc()));
    assert!(rt; takes_all(rt.alloc()));
}

// Gives a byte at a time, fails at its second read, and ends at its fourth.
#[derive(Drop)]
struct Reader {
    reads: u32,
}

impl Read for Reader {
    fn read(&mut self, buf: &mut [u8]) -> io::Result<usize> {
        self.reads = self.reads.saturating_add(1);
        if self.reads == 2 {
            return Err(ErrorKind::Other.into());
        }
        if self.reads > 3 || buf.is_empty() {
            return Ok(0);
        }
        buf[0] = b'a';
        Ok(1)
    }
}

fn gives_what_is_read() -> bool {
    let mut source = RealSource::new(Reader { reads: 0 });
    let mut buffer = [0u8; 2];
    source.read(&mut buffer) == Ok(1)
        && source.read(&mut buffer) == Err(SourceFault::Failed)
        && source.read(&mut buffer) == Ok(1)
        && source.read(&mut buffer) == Ok(0)
        && buffer.as_slice() == b"a\0".as_slice()
}

const TAKEN_BYTES: usize = 64;

// Takes at most five bytes at once and keeps them, fails at its second write, and takes nothing at its third.
#[derive(Drop)]
struct Printer {
    taken: Cell<[u8; TAKEN_BYTES]>,
    len: Cell<usize>,
    writes: Cell<u32>,
}

impl Printer {
    fn take(&self, bytes: &[u8]) -> usize
        ensures { result ≤ length bytes.now }
    {
        let mut taken = self.taken.get();
        let at = self.len.get().min(TAKEN_BYTES);
        let n = bytes.len().min(5).min(TAKEN_BYTES - at);
        taken[at..at + n].copy_from_slice(&bytes[..n]);
        self.len.set(at + n);
        self.taken.set(taken);
        n
    }
}

impl Print for Printer {
    fn print<D: Display + Drop>(&self, _value: D) -> io::Result<()> {
        Ok(())
    }

    fn println<D: Display + Drop>(&self, _value: D) -> io::Result<()> {
        Ok(())
    }

    fn write_all(&self, _bytes: &[u8]) -> io::Result<()> {
        Ok(())
    }

    fn write_some(&self, bytes: &[u8]) -> io::Result<usize> {
        let writes = self.writes.get().saturating_add(1);
        self.writes.set(writes);
        match writes {
            2 => Err(ErrorKind::Other.into()),
            3 => Ok(0),
            _ => Ok(self.take(bytes)),
        }
    }
}

fn has_taken(printer: &Printer, text: &[u8]) -> bool {
    let taken = printer.taken.get();
    let len = printer.len.get().min(TAKEN_BYTES);
    &taken[..len] == text
}

fn prints_letters<S: Sink>(sink: &mut S) -> bool {
    sink.write(b"abcdefgh") == Ok(5)
        && sink.write(b"fgh") == Err(SinkFault::Failed)
        && sink.write(b"fgh") == Err(SinkFault::Failed)
        && sink.write(b"fgh") == Ok(3)
}

fn prints_what_is_written() -> bool {
    let printer = Printer {
        taken: Cell::new([0u8; TAKEN_BYTES]),
        len: Cell::new(0),
        writes: Cell::new(0),
    };
    let mut sink = RealSink::new(&printer);
    prints_letters(&mut sink) && has_taken(&printer, b"abcdefgh")
}

#[test]
fn reads_and_writes_for_real(rt: HostRuntime) {
    assert!(rt; gives_what_is_read());
    assert!(rt; prints_what_is_written());
}
