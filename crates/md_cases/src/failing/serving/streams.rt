//! Readers and writers that fail at a read or a write, or never end.

use std::io::{self, ErrorKind, Read, Write};

/// The maximum number of bytes of one read or write.
pub(super) const STEP: usize = 3;

/// The length of the script that is read byte by byte.
pub(super) const MEGABYTE: usize = 1_048_576;

/// Some bytes, and the read that fails; 0 for none.
#[derive(Drop)]
pub(super) struct FailingReader<'a> {
    pub(super) bytes: &'a [u8],
    pub(super) reads: usize,
    pub(super) fails_at: usize,
}

impl Read for FailingReader<'_> {
    fn read(&mut self, buffer: &mut [u8]) -> io::Result<usize> {
        self.reads = self.reads.saturating_add(1);
        if self.reads == self.fails_at {
            return Err(ErrorKind::BrokenPipe.into());
        }
        let count = self.bytes.len().min(buffer.len()).min(STEP);
        buffer[..count].copy_from_slice(&self.bytes[..count]);
        self.bytes = &self.bytes[count..];
        Ok(count)
    }
}

/// The output, and the write that fails; 0 for none.
#[derive(Drop)]
pub(super) struct FailingWriter {
    pub(super) written: Vec<u8>,
    pub(super) writes: usize,
    pub(super) fails_at: usize,
}

impl Write for FailingWriter {
    fn write(&mut self, bytes: &[u8]) -> io::Result<usize> {
        self.writes = self.writes.saturating_add(1);
        if self.writes == self.fails_at {
            return Err(ErrorKind::BrokenPipe.into());
        }
        let count = bytes.len().min(STEP);
        if self.written.extend_from_slice(&bytes[..count]).is_err() {
            return Err(ErrorKind::OutOfMemory.into());
        }
        Ok(count)
    }

    fn flush(&mut self) -> io::Result<()> {
        Ok(())
    }
}

/// A script, padded after its end to a megabyte, one byte for each read.
#[derive(Drop)]
pub(super) struct SlowReader<'a> {
    pub(super) script: &'a [u8],
    pub(super) reads: usize,
}

impl Read for SlowReader<'_> {
    fn read(&mut self, buffer: &mut [u8]) -> io::Result<usize> {
        let at = self.reads;
        self.reads = self.reads.saturating_add(1);
        if buffer.is_empty() || at >= MEGABYTE {
            return Ok(0);
        }
        buffer[0] = self.script.get(at).copied().unwrap_or(b'*');
        Ok(1)
    }
}

/// A reader that returns a byte at each read, and never ends.
#[derive(Drop)]
pub(super) struct EndlessReader {
    pub(super) reads: usize,
    /// The size of the buffer at the last read.
    pub(super) room: usize,
}

impl Read for EndlessReader {
    fn read(&mut self, buffer: &mut [u8]) -> io::Result<usize> {
        self.reads = self.reads.saturating_add(1);
        self.room = buffer.len();
        if buffer.is_empty() {
            return Ok(0);
        }
        buffer[0] = b'-';
        Ok(1)
    }
}

/// A writer that accepts a fixed number of bytes at each write, and may fail to flush them.
#[derive(Drop)]
pub(super) struct StuckWriter {
    pub(super) takes: usize,
    pub(super) flushes: bool,
}

impl Write for StuckWriter {
    fn write(&mut self, bytes: &[u8]) -> io::Result<usize> {
        Ok(bytes.len().min(self.takes))
    }

    fn flush(&mut self) -> io::Result<()> {
        if self.flushes {
            Ok(())
        } else {
            Err(ErrorKind::BrokenPipe.into())
        }
    }
}
