//! How much is read of a script, or of rows, that may have no end, as a device or a pipe. These limits are tested.

use bl_serve_lines::request::LINE_LIMIT;
use memchr::memrchr;
use std::io;
use std::io::Read;

/// Gives the bytes of a script, or of rows, up to where a line has become too long to be one: they are bad then, whatever follows.
#[derive(Drop)]
pub struct ScriptFile<R> {
    inner: R,
    /// How many bytes were read behind the last line feed.
    open: usize,
}

impl<R> ScriptFile<R> {
    /// The script of a reader, of which nothing was read yet.
    pub fn new(inner: R) -> ScriptFile<R> {
        ScriptFile { inner, open: 0 }
    }
}

/// How many bytes stand behind the last line feed, where so many did before this piece was read.
fn open_behind(piece: &[u8], before: usize) -> usize {
    match memrchr(b'\n', piece) {
        Some(place) => piece[place..].len().saturating_sub(1),
        None => before.saturating_add(piece.len()),
    }
}

impl<R: Read> Read for ScriptFile<R> {
    fn read(&mut self, buf: &mut [u8]) -> io::Result<usize> {
        if self.open > LINE_LIMIT {
            return Ok(0);
        }
        let count = self.inner.read(buf)?;
        self.open = open_behind(&buf[..count], self.open);
        Ok(count)
    }
}
