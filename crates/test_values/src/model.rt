//! Entries, and streams that keep a failure. The plain map's replies stand in `test_worked_values`.

use bl_model::{Entry, Op, Reply, Watched};
use std::io;
use std::io::{ErrorKind, Read, Write};
use std::test::Fail;

#[test]
fn entries_are_compared_whole(rt: HostRuntime) -> Result<(), Fail> {
    let entry = Entry {
        pass: 0,
        op: Op::Find(5),
        reply: Reply::Absent,
    };
    assert!(rt; entry.clone()? == entry);
    Ok(())
}

/// Fails each second call, the first as interrupted, and takes nothing once it is full.
#[derive(Drop)]
struct Halting {
    calls: u8,
}

impl Read for Halting {
    fn read(&mut self, _buf: &mut [u8]) -> io::Result<usize> {
        if self.calls == 1 {
            return Err(io::Error::from(ErrorKind::Interrupted));
        }
        self.calls = 1;
        Ok(0)
    }
}

impl Write for Halting {
    fn write(&mut self, _buf: &[u8]) -> io::Result<usize> {
        Ok(0)
    }

    fn flush(&mut self) -> io::Result<()> {
        Err(io::Error::from(ErrorKind::BrokenPipe))
    }
}

#[test]
fn a_watched_reader_keeps_a_failure(rt: HostRuntime) {
    let mut buffer = [0u8; 4];
    let mut reader = Watched::new(Halting { calls: 0 });
    let first = (reader.read(&mut buffer).is_ok(), reader.failed());
    let second = (reader.read(&mut buffer).is_err(), reader.failed());
    assert!(rt; first == (true, false) && second == (true, true));
    assert!(rt; reader.into_inner().calls == 1);
}

#[test]
fn a_watched_writer_keeps_a_failure(rt: HostRuntime) {
    let mut writer = Watched::new(Halting { calls: 0 });
    let empty = (writer.write(b"").is_ok(), writer.failed());
    let refused = (writer.write(b"x").is_ok(), writer.failed());
    assert!(rt; empty == (true, false) && refused == (true, true));

    let mut flushed = Watched::new(Halting { calls: 0 });
    let flush = (flushed.flush().is_err(), flushed.failed());
    assert!(rt; flush == (true, true));
}
