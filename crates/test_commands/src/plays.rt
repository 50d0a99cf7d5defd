//! A script that is carried out, and a writer that fails.

ghost use Rattle.bl_replay.specs.Plays.{MayPlay};

use bl_model::Watched;
use bl_replay::{PLAYED, ReplayFault, replay};
use bl_replay_script::{Script, read_script};
use std::alloc::Global;
use std::io;
use std::io::{ErrorKind, Write};

/// Takes so many writes, and then fails.
#[derive(Drop)]
struct Failing {
    left: u32,
}

impl Write for Failing {
    fn write(&mut self, buf: &[u8]) -> io::Result<usize> {
        if self.left == 0 {
            return Err(io::Error::from(ErrorKind::Other));
        }
        self.left -= 1;
        Ok(buf.len())
    }

    fn flush(&mut self) -> io::Result<()> {
        Ok(())
    }
}

/// How a script ends where so many writes are taken, and whether the writer has failed.
fn replayed(alloc: Global, script: &Script, left: u32) -> (Result<(), ReplayFault>, bool)
    requires { MayPlay script.now.pages script.now.commands.items }
{
    let mut writer = Watched::new(Failing { left });
    let result = replay(alloc, script, false, &mut writer);
    (result, writer.failed())
}

/// The same of a script that is read from these bytes, None where it is bad.
fn read_and_replayed(
    alloc: Global,
    text: &[u8],
    left: u32,
) -> Option<(Result<(), ReplayFault>, bool)> {
    match read_script(alloc, &mut Watched::new(text), PLAYED) {
        Ok(script) => Some(replayed(alloc, &script, left)),
        Err(_) => None,
    }
}

#[test]
fn writers_that_fail(rt: HostRuntime) {
    let text = b"pages 4\nfind 5\nrun 1 9\n".as_slice();
    let failed = read_and_replayed(rt.alloc(), text, 0);
    assert!(rt; failed == Some((Err(ReplayFault::Write), true)));
    let played = read_and_replayed(rt.alloc(), text, 1);
    assert!(rt; matches!(played, Some((Ok(()), _))));
}
