//! Streams that fail.

use std::io;
use std::io::{ErrorKind, Read, Write};

/// Gives so many zeros, and then fails.
#[derive(Drop)]
pub(crate) struct Zeros {
    pub(crate) left: usize,
}

impl Read for Zeros {
    fn read(&mut self, buf: &mut [u8]) -> io::Result<usize> {
        if self.left == 0 {
            return Err(io::Error::from(ErrorKind::BrokenPipe));
        }
        let count = buf.len().min(self.left);
        buf[..count].fill(0);
        self.left -= count;
        Ok(count)
    }
}

/// Takes so many bytes, and then fails.
#[derive(Drop)]
pub(crate) struct Full {
    pub(crate) bytes: Vec<u8>,
    pub(crate) room: usize,
}

impl Write for Full {
    fn write(&mut self, buf: &[u8]) -> io::Result<usize> {
        let count = buf.len().min(self.room - self.bytes.len().min(self.room));
        if count == 0 || self.bytes.extend_from_slice(&buf[..count]).is_err() {
            return Err(io::Error::from(ErrorKind::BrokenPipe));
        }
        Ok(count)
    }

    fn flush(&mut self) -> io::Result<()> {
        Ok(())
    }
}
