// Streams in memory and over readers and writers of std: what a call takes, what fails, and when it is made again.
use crate::texts::{bytes_of, only, push_hex};
use e3_outside::{
    Failed, MemSink, MemSource, ReadFault, Sink, Source, StdSink, StdSource, read_up_to, write_all,
};
use e3_report::Page;
use e3_types::{List, NoMemory};
use std::alloc::Global;
use std::io::{self, ErrorKind, Read, Write};

// A source of three letters, two for a read, whose call of this number fails.
fn source_of(alloc: Global, fails: u64) -> Result<MemSource, NoMemory> {
    let fails = only(alloc, fails)?;
    Ok(MemSource::new(bytes_of(alloc, b"abc")?, 2, fails))
}

// Adds what one read gives.
fn push_read<S: Source>(page: &mut Page, source: &mut S) {
    let mut into = [0; 8];
    match source.read(&mut into) {
        Ok(count) => {
            page.labelled(" read ", count as u64);
            page.text(" ");
            page.bytes(into.get(..count).unwrap_or(b"?"));
        }
        Err(Failed) => page.text(" failed"),
    }
}

// Adds what is read up to a bound.
fn push_all<S: Source>(alloc: Global, page: &mut Page, source: &mut S, most: u64) {
    page.labelled("up to ", most);
    match read_up_to(alloc, source, most) {
        Ok(bytes) => {
            page.text(" read ");
            page.bytes(bytes.as_slice());
        }
        Err(ReadFault::Failed) => page.text(" failed"),
        Err(ReadFault::NoMemory) => page.text(" no memory"),
    }
    page.text("\n");
}

// Writes a text, and adds how that ended.
fn push_written<K: Sink>(page: &mut Page, sink: &mut K, text: &[u8]) {
    match write_all(sink, text) {
        Ok(()) => page.text("written"),
        Err(Failed) => page.text("failed"),
    }
}

// Adds three reads of a source, and what is left behind each.
fn push_reads(page: &mut Page, source: &mut MemSource) {
    page.text("source:");
    for _ in 0..3u32 {
        push_read(page, source);
        page.text(", left ");
        page.bytes(source.left());
    }
    page.text("\n");
}

// Adds what a sink took of a text.
fn push_taken(page: &mut Page, sink: &mut MemSink, text: &[u8]) {
    push_written(page, sink, text);
    page.text(" ");
    push_hex(page, sink.written());
}

// Adds three reads of a source where no bound is told, and else what is read up to the bound.
fn push_up_to(alloc: Global, page: &mut Page, source: &mut MemSource, most: u64) {
    match most {
        0 => push_reads(page, source),
        _ => push_all(alloc, page, source, most),
    }
}

/// Adds what is read of a source whose call of this number fails: three reads where no bound is told, and else up to the bound.
/// Up to a bound the call that fails ends the reading, unless the bound or the end of the text comes before it.
pub fn push_source(alloc: Global, page: &mut Page, fails: u64, most: u64) {
    match source_of(alloc, fails) {
        Ok(mut source) => {
            push_up_to(alloc, page, &mut source, most);
            drop(source);
        }
        Err(NoMemory) => page.lack(),
    }
}

/// Adds what is read up to a bound of a reader of std, which ends before it.
pub fn push_standard(alloc: Global, page: &mut Page, most: u64) {
    push_all(alloc, page, &mut StdSource::new(b"abc".as_slice()), most);
}

// A sink of this room, which takes ten bytes for a write, and whose call of this number fails.
fn sink_of(alloc: Global, room: u64, fails: u64) -> Result<MemSink, NoMemory> {
    MemSink::new(alloc, room, 10, only(alloc, fails)?)
}

/// Adds what a sink of this room takes of a text, whose call of this number fails. 25 letters are written as ten, ten and five
/// bytes: a fourth call is not made.
pub fn push_sink(alloc: Global, page: &mut Page, room: u64, fails: u64, text: &[u8]) {
    match sink_of(alloc, room, fails) {
        Ok(mut sink) => {
            push_taken(page, &mut sink, text);
            drop(sink);
        }
        Err(NoMemory) => page.lack(),
    }
}

// A reader and writer whose first calls end with an error, and that takes a byte at a time until it is full.
#[derive(Drop)]
struct Halting {
    kind: ErrorKind,
    times: u32,
    room: usize,
    bytes: &'static [u8],
}

impl Halting {
    fn new(kind: ErrorKind, times: u32) -> Halting {
        Halting {
            kind,
            times,
            room: 2,
            bytes: b"abc",
        }
    }
}

impl Read for Halting {
    fn read(&mut self, buf: &mut [u8]) -> io::Result<usize> {
        if self.times > 0 {
            self.times -= 1;
            return Err(io::Error::from(self.kind));
        }
        self.bytes.read(buf)
    }
}

impl Write for Halting {
    fn write(&mut self, buf: &[u8]) -> io::Result<usize> {
        if self.times > 0 {
            self.times -= 1;
            return Err(io::Error::from(self.kind));
        }
        let count = buf.len().min(self.room).min(1);
        self.room -= count;
        Ok(count)
    }

    fn flush(&mut self) -> io::Result<()> {
        Ok(())
    }
}

/// Adds two reads over a reader and two writes over a writer, whose first calls end so. Calls that are interrupted are made again,
/// a thousand times at most; any other error is a failure at once.
pub fn push_halting(page: &mut Page, kind: ErrorKind, times: u32) {
    page.labelled("halts ", u64::from(times));
    let mut source = StdSource::new(Halting::new(kind, times));
    push_read(page, &mut source);
    push_read(page, &mut source);
    page.text(", ");
    let mut sink = StdSink::new(Halting::new(kind, times));
    push_written(page, &mut sink, b"ab");
    page.text(" ");
    push_written(page, &mut sink, b"c");
    page.text("\n");
}
