//! The ends of the program over readers and writers.

use case_lines::{CaseFault, push_digits, told};
use ov_io::{Sink, Source, StdSink, StdSource, TextOut};
use ov_types::NoMemory;
use std::alloc::Global;
use std::io;
use std::io::{Read, Write};

/// A reader and writer that always fails.
#[derive(Drop)]
struct Broken;

impl Read for Broken {
    fn read(&mut self, _into: &mut [u8]) -> io::Result<usize> {
        Err(io::Error::from(io::ErrorKind::Other))
    }
}

impl Write for Broken {
    fn write(&mut self, _from: &[u8]) -> io::Result<usize> {
        Err(io::Error::from(io::ErrorKind::Other))
    }

    fn flush(&mut self) -> io::Result<()> {
        Ok(())
    }
}

/// A read of four octets.
fn push_read<S: Source>(source: &mut S, out: &mut TextOut) -> Result<(), NoMemory> {
    let mut into = [0u8; 4];
    match source.read(&mut into) {
        Ok(count) => {
            write!(out, "{count}: ")?;
            push_digits(&into, out)
        }
        Err(_) => out.push(b"failed"),
    }
}

fn push_two_reads<S: Source>(source: &mut S, out: &mut TextOut) -> Result<(), NoMemory> {
    push_read(source, out)?;
    out.push(b"; ")?;
    push_read(source, out)
}

/// Two reads from a text, or from a reader that is broken.
pub(crate) fn tell_read(given: &str, out: &mut TextOut) -> Result<(), CaseFault> {
    match given {
        "broken" => told(push_two_reads(&mut StdSource::new(Broken), out)),
        _ => told(push_two_reads(&mut StdSource::new(given.as_bytes()), out)),
    }
}

fn push_write<K: Sink>(sink: &mut K, text: &str, out: &mut TextOut) -> Result<(), NoMemory> {
    match sink.write(text.as_bytes()) {
        Ok(count) => write!(out, "{count}"),
        Err(_) => out.push(b"failed"),
    }
}

/// A write of a text into memory, or into a writer that is broken.
pub(crate) fn tell_write(alloc: Global, given: &str, out: &mut TextOut) -> Result<(), CaseFault> {
    match given.strip_prefix("broken ") {
        Some(text) => told(push_write(&mut StdSink::new(Broken), text, out)),
        None => told(push_write(&mut StdSink::new(Vec::new(alloc)), given, out)),
    }
}
