//! Ends that fail in mid-stream, and each call on ends and places with ample memory.

use crate::texts::{put, put_number};
use std::alloc::Global;
use std::io;
use std::io::{Read, Write};
use std::test::Fail;
use tsa_base::{
    HonestSink, HonestSource, LineStarts, MemorySink, MemorySource, PushTrouble, ReadTrouble,
    ReaderSource, Sink, WriterSink, read_all, write_all,
};
use tsa_tool::tool;

// The five lines and a body that takes the lock, writes the number, and gives the lock back: 199 bytes.
const UNIT: &[u8] = b"struct CAPABILITY(\"mutex\") lock { int s; };
void acq(struct lock *m) ACQUIRE(m);
void rel(struct lock *m) RELEASE(m);
struct lock mu;
int g GUARDED_BY(mu);
void w(void) { acq(&mu); g = 1; rel(&mu); }";

// The one word of the command.
fn check_words(alloc: Global) -> Result<Vec<String>, Fail> {
    let mut words = Vec::new(alloc);
    words.push(String::from_str(alloc, "check")?)?;
    Ok(words)
}

// The status and what was written, where the listed pulls of 16 bytes and the listed pushes of one byte fail.
fn put_run(out: &mut Vec<u8>, alloc: Global, pulls: &[u32], pushes: &[u32]) -> Result<(), Fail> {
    let mut source = MemorySource::new(alloc, UNIT, 16, pulls)?;
    let mut sink = MemorySink::new(alloc, 1, pushes)?;
    let status = tool(alloc, &check_words(alloc)?, &mut source, &mut sink);
    put_number(out, u32::from(status))?;
    put(out, sink.taken())?;
    put(out, b"|")
}

// The unit needs 14 pulls: 199 bytes, and one more to find the end; the answer has 9 bytes.
#[test]
fn a_fault_at_any_call_leaves_the_bytes_before_it(rt: HostRuntime) -> Result<(), Fail> {
    let mut out = Vec::new(rt.alloc());
    for number in 0..15u32 {
        put_run(&mut out, rt.alloc(), &[number], &[])?;
    }
    for number in 0..10u32 {
        put_run(&mut out, rt.alloc(), &[], &[number])?;
    }
    let expected = b"4 |4 |4 |4 |4 |4 |4 |4 |4 |4 |4 |4 |4 |4 |0 accepted
|5 |5 a|5 ac|5 acc|5 acce|5 accep|5 accept|5 accepte|5 accepted|0 accepted
|";
    assert_eq!(rt; out.as_slice(), expected.as_slice());
    Ok(())
}

// A standard reader that gives the unit in pieces of 16 bytes, and a standard writer that takes one byte at a
// time. Each fails at its call of a number.
#[derive(Drop)]
struct Broken {
    at: usize,
    calls: u32,
    fails_at: u32,
}

impl Broken {
    // An end that was not called yet, and fails at its call of a number.
    fn new(fails_at: u32) -> Broken {
        Broken {
            at: 0,
            calls: 0,
            fails_at,
        }
    }

    // Counts a call, and tells whether it is the one that fails.
    fn fails(&mut self) -> bool {
        let number = self.calls;
        self.calls = number.saturating_add(1);
        number == self.fails_at
    }
}

impl Read for Broken {
    fn read(&mut self, into: &mut [u8]) -> io::Result<usize> {
        if self.fails() {
            return Err(io::Error::from(io::ErrorKind::Other));
        }
        let from = self.at.min(UNIT.len());
        let count = into.len().min(16).min(UNIT.len() - from);
        into[..count].copy_from_slice(&UNIT[from..from + count]);
        self.at = from + count;
        Ok(count)
    }
}

impl Write for Broken {
    fn write(&mut self, piece: &[u8]) -> io::Result<usize> {
        if self.fails() {
            return Err(io::Error::from(io::ErrorKind::Other));
        }
        let count = piece.len().min(1);
        self.at = self.at.saturating_add(count);
        Ok(count)
    }

    fn flush(&mut self) -> io::Result<()> {
        Ok(())
    }
}

const NEVER: u32 = 1000;

// The status of a run between standard ends that fail.
fn put_standard(
    out: &mut Vec<u8>,
    alloc: Global,
    read_fails: u32,
    write_fails: u32,
) -> Result<(), Fail> {
    let mut source = ReaderSource::new(Broken::new(read_fails));
    let mut sink = WriterSink::new(Broken::new(write_fails));
    let status = tool(alloc, &check_words(alloc)?, &mut source, &mut sink);
    put_number(out, u32::from(status))
}

// Whether a push of one byte succeeds.
fn put_push(out: &mut Vec<u8>, sink: &mut WriterSink<Broken>) -> Result<(), Fail> {
    match sink.push(b"a") {
        Ok(_) => put(out, b"taken "),
        Err(_) => put(out, b"failed "),
    }
}

#[test]
fn standard_ends_that_fail_in_mid_stream_end_the_run(rt: HostRuntime) -> Result<(), Fail> {
    let mut out = Vec::new(rt.alloc());
    put_standard(&mut out, rt.alloc(), 3, NEVER)?;
    put_standard(&mut out, rt.alloc(), NEVER, 2)?;
    put_standard(&mut out, rt.alloc(), NEVER, NEVER)?;
    let mut sink = WriterSink::new(Broken::new(0));
    put_push(&mut out, &mut sink)?;
    put_push(&mut out, &mut sink)?;
    assert_eq!(rt; out.as_slice(), b"4 5 0 failed taken ".as_slice());
    Ok(())
}

// What is read of three bytes from a source of a width, whose listed pulls fail.
fn put_read(out: &mut Vec<u8>, alloc: Global, width: usize, failing: &[u32]) -> Result<(), Fail> {
    let mut source = MemorySource::new(alloc, b"abc", width.max(1), failing)?;
    match read_all(alloc, &mut source) {
        Ok(bytes) => put(out, &bytes)?,
        Err(ReadTrouble::ReadFault) => put(out, b"fault")?,
        Err(_) => put(out, b"trouble")?,
    }
    put(out, b"|")
}

// What a sink of a width, whose listed pushes fail, takes of five bytes.
fn put_written(
    out: &mut Vec<u8>,
    alloc: Global,
    width: usize,
    failing: &[u32],
) -> Result<(), Fail> {
    let mut sink = MemorySink::new(alloc, width.max(1), failing)?;
    match write_all(&mut sink, b"abcde") {
        Ok(()) => {}
        Err(PushTrouble::Failed) => put(out, b"fault ")?,
        Err(PushTrouble::NoMemory) => put(out, b"trouble ")?,
    }
    put(out, sink.taken())?;
    put(out, b"|")
}

// What ends that never fail give and take, after one byte.
fn put_copy(out: &mut Vec<u8>, alloc: Global) -> Result<(), Fail> {
    let mut source = HonestSource::new(alloc, b"abc")?;
    let bytes = read_all(alloc, &mut source)?;
    let mut sink = HonestSink::new(alloc);
    sink.push(b"x")?;
    write_all(&mut sink, &bytes)?;
    put(out, sink.taken())
}

// What is read of sources that fail, or don't.
fn put_reads(out: &mut Vec<u8>, alloc: Global) -> Result<(), Fail> {
    put_read(out, alloc, 1, &[])?;
    put_read(out, alloc, 2, &[9])?;
    put_read(out, alloc, 2, &[0])?;
    put_read(out, alloc, 1, &[3])
}

// What sinks that fail, or don't, take.
fn put_writes(out: &mut Vec<u8>, alloc: Global) -> Result<(), Fail> {
    put_written(out, alloc, 2, &[])?;
    put_written(out, alloc, 2, &[1])?;
    put_written(out, alloc, 9, &[0])?;
    put_copy(out, alloc)
}

#[test]
fn bytes_are_read_and_written_whole_or_up_to_a_fault(rt: HostRuntime) -> Result<(), Fail> {
    let mut out = Vec::new(rt.alloc());
    put_reads(&mut out, rt.alloc())?;
    put_writes(&mut out, rt.alloc())?;
    let expected = b"abc|abc|fault|fault|abcde|fault ab|fault |xabc";
    assert_eq!(rt; out.as_slice(), expected.as_slice());
    Ok(())
}

// The lines and columns of bytes, as they are written.
fn places(alloc: Global, text: &[u8], bytes: &[u32]) -> Result<Vec<u8>, Fail> {
    let table = LineStarts::new(alloc, text)?;
    let mut written = Vec::new(alloc);
    for at in bytes {
        table.place(*at).append_to(&mut written)?;
    }
    Ok(written)
}

#[test]
fn a_byte_is_told_by_its_line_and_its_column(rt: HostRuntime) -> Result<(), Fail> {
    let found = places(rt.alloc(), b"ab\nc\n\nd", &[0, 2, 3, 5, 6, 7, 8, u32::MAX])?;
    let expected = b"1:1: 1:3: 2:1: 3:1: 4:1: 4:2: 4:2: 4:2: ";
    assert_eq!(rt; found.as_slice(), expected.as_slice());
    Ok(())
}
