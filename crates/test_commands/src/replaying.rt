//! The command `replay` over streams that fail or have no end, and where memory is refused; paths that are no file, and arguments that are
//! no text. What `replay` prints for scripts is compared by `test_worked`.

use crate::streams::Full;
use bl_cli_commands::{
    CommandFault, Form, argument_line, check_file, draw_file, load_file, reason_of, replay_file,
    replay_script,
};
use bl_cli_streams::ScriptFile;
use bl_model::Watched;
use std::alloc::Global;
use std::env::FillError;
use std::io;
use std::io::{ErrorKind, Read};
use std::rt::Env;
use std::test::Fail;

/// Gives a text in pieces of at most 5 bytes, and then fails.
#[derive(Drop)]
struct Failing<'a> {
    left: &'a [u8],
}

impl<'a> Read for Failing<'a> {
    fn read(&mut self, buf: &mut [u8]) -> io::Result<usize> {
        if self.left.is_empty() {
            return Err(io::Error::from(ErrorKind::BrokenPipe));
        }
        let count = buf.len().min(5).min(self.left.len());
        buf[..count].copy_from_slice(&self.left[..count]);
        self.left = &self.left[count..];
        Ok(count)
    }
}

/// How a script ends whose stream gives these bytes and then fails, and how many bytes are written.
fn replay_failing(alloc: Global, left: &[u8]) -> (Result<(), CommandFault>, usize) {
    let mut writer = Watched::new(Vec::new(alloc));
    let result = replay_script(
        alloc,
        false,
        &mut Watched::new(Failing { left }),
        &mut writer,
    );
    (result, writer.into_inner().len())
}

#[test]
fn reads_that_fail(rt: HostRuntime) {
    let texts: [&[u8]; 4] = [
        b"",
        b"pages 4",
        b"pages 4\nfind 5\nrun 1 9\n",
        b"pages 4\nfind 5\nrun 1 9\nru",
    ];
    for left in texts {
        assert_eq!(rt;
            replay_failing(rt.alloc(), left),
            (Err(CommandFault::Read), 0)
        );
    }
}

/// How a script ends where so many bytes have room, and what is written.
fn replay_within(alloc: Global, text: &[u8], room: usize) -> (Result<(), CommandFault>, Vec<u8>) {
    let mut writer = Watched::new(Full {
        bytes: Vec::new(alloc),
        room,
    });
    let result = replay_script(alloc, false, &mut Watched::new(text), &mut writer);
    (result, writer.into_inner().bytes)
}

#[test]
fn writes_that_fail(rt: HostRuntime) {
    let text = b"pages 4\nfind 5\nrun 1 9\n".as_slice();
    let wanted = b"1 begin\n1 get 0\n1 get 1\n1 end\n1 answer absent\n";
    for room in [0, 1, 9, 44] {
        let (result, written) = replay_within(rt.alloc(), text, room);
        let writes = written.as_slice() == &wanted[..room];
        assert_eq!(rt; (result, writes), (Err(CommandFault::Write), true));
    }
}

/// What a script prints with pages.
fn replayed_with_pages(alloc: Global, text: &[u8]) -> Vec<u8> {
    let mut writer = Watched::new(Vec::new(alloc));
    let _ = replay_script(alloc, true, &mut Watched::new(text), &mut writer);
    writer.into_inner()
}

#[test]
fn pages_stand_behind_puts(rt: HostRuntime) {
    let text = b"pages 4\ninsert 5 50\nrun 1 9\n".as_slice();
    let wanted =
        b"1 begin\n1 get 0\n1 latch 1\n1 get 1\n1 put 1\n1 page 1 leaf 0 0 0 5 50\n1 open 1\n1 end\n1 answer inserted\n".as_slice();
    assert!(rt; replayed_with_pages(rt.alloc(), text).as_slice() == wanted);
}

/// Holds whichever allocation is refused: the answer is Memory and a beginning of the output, or that of ample memory.
#[test]
fn memory_or_the_output(rt: HostRuntime) {
    let text = b"pages 4\ninsert 5 50\nfind 5\nrun 1 4\nrun 2 9\nrun 1 9\n".as_slice();
    let wanted =
        b"1 begin\n1 get 0\n1 latch 1\n1 get 1\n2 begin\n2 get 0\n2 get 1\n2 end\n2 answer absent\n1 put 1\n1 open 1\n1 end\n1 answer inserted\n".as_slice();
    let (result, written) = replay_within(rt.alloc(), text, 999);
    let written = written.as_slice();
    let is_as_observed = match result {
        Ok(()) => written == wanted,
        // the test's own writer may have been refused its memory
        Err(CommandFault::Memory) | Err(CommandFault::Write) => wanted.starts_with(written),
        Err(_) => false,
    };
    assert!(rt; is_as_observed);
}

/// `check`, `draw`, the loading of an image and `replay` say that reading the path fails, and write nothing.
fn is_no_file(rt: &HostRuntime, path: &str) -> bool {
    let mut writer = Watched::new(Vec::new(rt.alloc()));
    let checked = check_file(rt, path, &mut writer);
    let drawn = draw_file(rt, path, Form::Text, &mut writer);
    let replayed = replay_file(rt, path, false, &mut writer);
    checked == Err(CommandFault::Read)
        && drawn == Err(CommandFault::Read)
        && replayed == Err(CommandFault::Read)
        && load_file(rt, path).err() == Some(CommandFault::Read)
        && writer.into_inner().is_empty()
}

#[test]
fn paths_that_are_no_file(rt: HostRuntime) {
    for path in ["/", "no such file", ""] {
        assert!(rt; is_no_file(&rt, path), "{path}");
    }
}

/// Whether the line behind that of a fault of the path is that one.
fn is_reason(
    rt: &HostRuntime,
    path: &str,
    fault: CommandFault,
    wanted: Option<&str>,
) -> Result<bool, Fail> {
    let reason = reason_of(rt, path, fault)?;
    Ok(match &reason {
        Some(line) => wanted == Some(line.as_str()),
        None => wanted.is_none(),
    })
}

#[test]
fn lines_that_name_a_file(rt: HostRuntime) -> Result<(), Fail> {
    let cases = [
        ("/", CommandFault::Read, Some("blink: /: is a folder")),
        (
            "no such file",
            CommandFault::Read,
            Some("blink: no such file: No such file or directory (os error 2)"),
        ),
        (
            "s",
            CommandFault::Script(7),
            Some(
                "blink: s: line 7 is no valid line there, of 69 bytes at most (see blink help replay)",
            ),
        ),
        (
            "i",
            CommandFault::Unsound(8, 3),
            Some("blink: i: not a sound image: page 3 breaks the rule that no page is dead"),
        ),
        ("i", CommandFault::Write, None),
        ("i", CommandFault::Memory, None),
    ];
    for (path, fault, wanted) in cases {
        assert!(rt; is_reason(&rt, path, fault, wanted)?, "{path}");
    }
    Ok(())
}

/// Gives zeros without end.
#[derive(Drop)]
struct Endless;

impl Read for Endless {
    fn read(&mut self, buf: &mut [u8]) -> io::Result<usize> {
        buf.fill(0);
        Ok(buf.len())
    }
}

/// How a script ends of which that is the beginning, and which goes on by zeros without end.
fn replay_endless(alloc: Global, beginning: &[u8]) -> Result<(), CommandFault> {
    let mut writer = Watched::new(Vec::new(alloc));
    let file = ScriptFile::new(beginning.chain(Endless));
    replay_script(alloc, false, &mut Watched::new(file), &mut writer)
}

#[test]
fn a_script_without_end_is_bad(rt: HostRuntime) {
    let alloc = rt.alloc();
    assert_eq!(rt; replay_endless(alloc, b""), Err(CommandFault::Script(1)));
    let begun = replay_endless(alloc, b"pages 4\nfind 5\n");
    assert_eq!(rt; begun, Err(CommandFault::Script(3)));
}

/// A command line of three words.
#[derive(Drop)]
struct Words<'a> {
    alloc: Global,
    words: [&'a [u8]; 3],
}

impl<'a> Alloc for Words<'a> {
    type A = Global;

    fn alloc(&self) -> Global {
        self.alloc
    }
}

impl<'a> Env for Words<'a> {
    fn arg(&self, i: usize, buf: &mut [u8]) -> Result<usize, FillError> {
        let Some(word) = self.words.get(i) else {
            return Err(FillError::NotPresent);
        };
        if word.len() > buf.len() {
            return Err(FillError::TooLong);
        }
        buf[..word.len()].copy_from_slice(word);
        Ok(word.len())
    }

    fn var(&self, _name: &str, _buf: &mut [u8]) -> Result<usize, FillError> {
        Err(FillError::NotPresent)
    }

    fn var_at(&self, _i: usize, _buf: &mut [u8]) -> Result<usize, FillError> {
        Err(FillError::NotPresent)
    }
}

/// Whether the line for a command line of these words is that one.
fn is_argument_line(alloc: Global, words: [&[u8]; 3], wanted: Option<&str>) -> Result<bool, Fail> {
    let line = argument_line(&Words { alloc, words })?;
    Ok(match &line {
        Some(line) => wanted == Some(line.as_str()),
        None => wanted.is_none(),
    })
}

#[test]
fn lines_that_name_an_argument(rt: HostRuntime) -> Result<(), Fail> {
    let alloc = rt.alloc();
    let wrong = Some("blink: argument 2 is no UTF-8 text");
    assert!(rt; is_argument_line(alloc, [b"blink", b"check", b"caf\xe9"], wrong)?);
    assert!(rt; is_argument_line(alloc, [b"blink", b"check", b"caf\xc3\xa9"], None)?);
    Ok(())
}
