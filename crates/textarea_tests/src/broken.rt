// A reader and a writer that fail.
use std::alloc::Global;
use std::io;
use std::io::{ErrorKind, Read, Write};

/// Reads its text a few bytes at a time, each time after an interruption if asked to. After a
/// number of reads each read fails.
#[derive(Drop)]
pub struct BrokenReader<'a> {
    text: &'a [u8],
    segment: usize,
    reads: usize,
    is_interrupted: bool,
    is_next_interrupted: bool,
    has_failed: bool,
}

impl<'a> BrokenReader<'a> {
    pub fn new(
        text: &'a [u8],
        segment: usize,
        is_interrupted: bool,
        reads: usize,
    ) -> BrokenReader<'a> {
        BrokenReader {
            text,
            segment,
            reads,
            is_interrupted,
            is_next_interrupted: is_interrupted,
            has_failed: false,
        }
    }

    pub fn has_failed(&self) -> bool {
        self.has_failed
    }
}

impl Read for BrokenReader<'_> {
    fn read(&mut self, buf: &mut [u8]) -> io::Result<usize> {
        if self.is_next_interrupted {
            self.is_next_interrupted = false;
            return Err(io::Error::from(ErrorKind::Interrupted));
        }
        self.is_next_interrupted = self.is_interrupted;
        let Some(left) = self.reads.checked_sub(1) else {
            self.has_failed = true;
            return Err(io::Error::from(ErrorKind::BrokenPipe));
        };
        self.reads = left;
        let count = self.segment.min(self.text.len()).min(buf.len());
        let (segment, rest) = self.text.split_at(count);
        buf[..count].copy_from_slice(segment);
        self.text = rest;
        Ok(count)
    }
}

/// Takes a few bytes at each write. After a number of writes each write and flush fails.
#[derive(Drop)]
pub struct BrokenWriter {
    page: Vec<u8>,
    segment: usize,
    writes: usize,
}

impl BrokenWriter {
    pub fn new(alloc: Global, segment: usize, writes: usize) -> BrokenWriter {
        BrokenWriter {
            page: Vec::new(alloc),
            segment,
            writes,
        }
    }

    /// The bytes that were written.
    pub fn text(&self) -> &[u8] {
        self.page.as_slice()
    }
}

impl Write for BrokenWriter {
    fn write(&mut self, buf: &[u8]) -> io::Result<usize> {
        let Some(left) = self.writes.checked_sub(1) else {
            return Err(io::Error::from(ErrorKind::BrokenPipe));
        };
        self.writes = left;
        let count = self.segment.min(buf.len());
        self.page.extend_from_slice(&buf[..count])?;
        Ok(count)
    }

    fn flush(&mut self) -> io::Result<()> {
        match self.writes {
            0 => Err(io::Error::from(ErrorKind::BrokenPipe)),
            _ => Ok(()),
        }
    }
}
