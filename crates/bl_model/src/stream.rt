//! Readers and writers that keep whether a call on them has failed, and whether what was written has been flushed.

ghost use Rattle.std.specs.Prelude.{◌≡◌, ◌||◌, ◌&&◌, is_err, true, false};
ghost use Rattle.std.specs.Io.{ReadsAtMost, WritesAtMost};
ghost use Rattle.std.specs.Io.KnownBytes.{Keeps, ReadConsumes, WriteAppends};
ghost use Rattle.bl_model.specs.Stream.{write_failed, has_taken};

use std::io;
use std::io::{Read, Write};
use std::marker::Model;

/// A call on a watched stream has failed, for good: it was not only interrupted.
#[derive(Clone, Copy, Debug, PartialEq, Eq)]
pub struct Failed;

/// A reader or a writer that hands on each call, and keeps whether one has failed since it was made.
///
/// A call has failed where it gave an error, also `Interrupted`, after which a caller may try again. A write has failed
/// too where it took 0 bytes of a piece that isn't empty.
///
/// Bytes are pending from a write that took some until a flush that is Ok: a writer may hold them back until then.
#[derive(Drop)]
pub struct Watched<T> {
    inner: T,
    failed: bool,
    pending: bool,
}

impl<T> Model for Watched<T> {
    ghost use Rattle.bl_model.specs.Stream.{Stream, stream_code};

    ghost Value = { Stream T };

    ghost coded = { stream_code T.code };

    ghost view = { λ watched. record { inner = watched.inner; failed = watched.failed; pending = watched.pending } };
}

impl<T> Watched<T> {
    /// Watches a stream on which no call has been handed on yet.
    pub fn new(inner: T) -> Watched<T>
        ensures inner { result.inner ≡ inner }
        ensures unfailed { result.failed ≡ false }
        ensures flushed { result.pending ≡ false }
    {
        Watched {
            inner,
            failed: false,
            pending: false,
        }
    }

    /// Whether a call that was handed on since `new` has failed.
    pub fn failed(&self) -> bool
        ensures { result ≡ self.now.failed }
    {
        self.failed
    }

    /// The stream, as the calls have left it.
    pub fn into_inner(self) -> T
        ensures { result ≡ self.inner }
    {
        let Watched { inner, .. } = self;
        inner
    }
}

impl<R: Read> Read for Watched<R> {
    ghost remaining = { λ watched. R.remaining watched.inner };

    fn read(&mut self, buf: &mut [u8]) -> io::Result<usize>
        ensures bound { ReadsAtMost result buf.new }
        ensures bytes { ReadConsumes (R.remaining self.old.inner) (R.remaining self.new.inner) result buf.new }
        ensures failed { self.new.failed ≡ (self.old.failed || is_err result) }
        ensures pending { self.new.pending ≡ self.old.pending }
    {
        let result = self.inner.read(buf);
        self.failed = self.failed || result.is_err();
        result
    }
}

impl<W: Write> Write for Watched<W> {
    ghost contents = { λ watched. W.contents watched.inner };

    fn write(&mut self, buf: &[u8]) -> io::Result<usize>
        ensures bound { WritesAtMost result buf.now }
        ensures bytes { WriteAppends (W.contents self.old.inner) (W.contents self.new.inner) result buf.now }
        ensures failed { self.new.failed ≡ (self.old.failed || write_failed result buf.now) }
        ensures pending { self.new.pending ≡ (self.old.pending || has_taken result) }
    {
        let result = self.inner.write(buf);
        let (went_wrong, took) = match &result {
            Ok(count) => (*count == 0 && !buf.is_empty(), *count > 0),
            Err(_) => (true, false),
        };
        self.failed = self.failed || went_wrong;
        self.pending = self.pending || took;
        result
    }

    fn flush(&mut self) -> io::Result<()>
        ensures bytes { Keeps (W.contents self.old.inner) (W.contents self.new.inner) }
        ensures failed { self.new.failed ≡ (self.old.failed || is_err result) }
        ensures pending { self.new.pending ≡ (self.old.pending && is_err result) }
    {
        let result = self.inner.flush();
        self.failed = self.failed || result.is_err();
        self.pending = self.pending && result.is_err();
        result
    }
}
