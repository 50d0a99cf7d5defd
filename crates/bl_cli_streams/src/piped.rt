//! A writer that keeps why it failed, and whether its reader has gone.

ghost use Rattle.std.specs.Prelude.{◌≡◌};
ghost use Rattle.std.specs.Io.{WritesAtMost};
ghost use Rattle.std.specs.Io.KnownBytes.{Keeps, WriteAppends};

use std::io;
use std::io::{ErrorKind, Write};

/// Hands on each call, and keeps why the first one failed, and whether one failed since nobody reads any more what is written, as at a
/// closed pipe. That it hands on each byte is promised, and what it keeps is tested.
#[derive(Drop)]
pub struct Piped<W> {
    inner: W,
    is_gone: bool,
    /// The system's number of the first failure.
    code: Option<i32>,
}

impl<W> Piped<W> {
    /// The reader of the pipe is there as far as is known.
    pub fn new(inner: W) -> Piped<W>
        ensures inner { result.inner ≡ inner }
    {
        Piped {
            inner,
            is_gone: false,
            code: None,
        }
    }

    /// What it writes to.
    pub fn into_inner(self) -> W
        ensures { result ≡ self.inner }
    {
        let Piped { inner, .. } = self;
        inner
    }

    /// Why the first call that failed did so, as far as the system has said.
    pub fn why(&self) -> io::Error {
        match self.code {
            Some(code) => io::Error::from_raw_os_error(code),
            None => io::Error::from(ErrorKind::WriteZero),
        }
    }

    /// Whether the reader has gone.
    pub fn is_gone(&self) -> bool
        ensures { result ≡ self.now.is_gone }
    {
        let Piped { is_gone, .. } = self;
        *is_gone
    }
}

/// The system's number of a failure, where the call failed and it has one.
fn code_of<T>(answer: &io::Result<T>) -> Option<i32> {
    match answer {
        Ok(_) => None,
        Err(error) => error.raw_os_error(),
    }
}

/// Whether a call failed since the reader has gone.
fn tells_it<T>(answer: &io::Result<T>) -> bool {
    match answer {
        Ok(_) => false,
        Err(error) => error.kind() == ErrorKind::BrokenPipe,
    }
}

impl<W: Write> Write for Piped<W> {
    ghost contents = { λ piped. W.contents piped.inner };

    fn write(&mut self, buf: &[u8]) -> io::Result<usize>
        ensures bound { WritesAtMost result buf.now }
        ensures bytes { WriteAppends (W.contents self.old.inner) (W.contents self.new.inner) result buf.now }
    {
        let result = self.inner.write(buf);
        self.is_gone = self.is_gone || tells_it(&result);
        self.code = self.code.or(code_of(&result));
        result
    }

    fn flush(&mut self) -> io::Result<()>
        ensures { Keeps (W.contents self.old.inner) (W.contents self.new.inner) }
    {
        let result = self.inner.flush();
        self.is_gone = self.is_gone || tells_it(&result);
        self.code = self.code.or(code_of(&result));
        result
    }
}
