//! Scripts in pieces, kinds that are not there, and reads that fail. What each line means stands in `test_worked`.

use bl_model::Watched;
use bl_replay_script::{Kinds, Script, ScriptFault, has_one_reading, read_script};
use std::alloc::Global;
use std::io;
use std::io::{ErrorKind, Read};

/// Every kind of process.
const ALL: Kinds = Kinds {
    part: true,
    compress: true,
    reclaim: true,
    lower: true,
};

/// Searches, insertions, deletions, changes and posts alone.
const FEW: Kinds = Kinds {
    part: false,
    compress: false,
    reclaim: false,
    lower: false,
};

fn script_of(alloc: Global, text: &[u8], kinds: Kinds) -> Result<Script, ScriptFault> {
    read_script(alloc, &mut Watched::new(text), kinds)
}

/// The script is bad at that line.
fn is_bad_at(alloc: Global, text: &[u8], kinds: Kinds, line: u64) -> bool {
    script_of(alloc, text, kinds) == Err(ScriptFault::Line(line))
}

#[test]
fn kinds_that_are_not_there(rt: HostRuntime) {
    let texts: [&[u8]; 5] = [
        b"pages 4\npart 1\n",
        b"pages 4\npartnear 1 0\n",
        b"pages 4\ncompress 1 9\n",
        b"pages 4\nreclaim 1\n",
        b"pages 4\nlower\n",
    ];
    for text in texts {
        assert!(rt; is_of_more_kinds(rt.alloc(), text));
    }
}

/// The second line of the script is bad where there are few kinds, and none is where there are all.
fn is_of_more_kinds(alloc: Global, text: &[u8]) -> bool {
    is_bad_at(alloc, text, FEW, 2) && script_of(alloc, text, ALL).is_ok()
}

/// Gives a text, so many times the same byte, and then another text, in pieces of at most 7 bytes; then it ends, or
/// fails. Each second call is interrupted.
#[derive(Drop)]
struct Slow<'a> {
    front: &'a [u8],
    byte: u8,
    count: usize,
    back: &'a [u8],
    fails: bool,
    interrupts: bool,
}

impl<'a> Read for Slow<'a> {
    fn read(&mut self, buf: &mut [u8]) -> io::Result<usize> {
        self.interrupts = !self.interrupts;
        if self.interrupts {
            return Err(io::Error::from(ErrorKind::Interrupted));
        }
        let most = buf.len().min(7);
        if !self.front.is_empty() {
            let count = most.min(self.front.len());
            buf[..count].copy_from_slice(&self.front[..count]);
            self.front = &self.front[count..];
            return Ok(count);
        }
        if self.count > 0 {
            let count = buf.len().min(self.count);
            buf[..count].fill(self.byte);
            self.count -= count;
            return Ok(count);
        }
        if self.back.is_empty() && self.fails {
            return Err(io::Error::from(ErrorKind::BrokenPipe));
        }
        let count = most.min(self.back.len());
        buf[..count].copy_from_slice(&self.back[..count]);
        self.back = &self.back[count..];
        Ok(count)
    }
}

/// What is read from such a reader.
fn slowly(
    alloc: Global,
    front: &[u8],
    count: usize,
    back: &[u8],
    fails: bool,
) -> Result<Script, ScriptFault> {
    let mut reader = Watched::new(Slow {
        front,
        byte: b'1',
        count,
        back,
        fails,
        interrupts: false,
    });
    read_script(alloc, &mut reader, ALL)
}

/// A script of eight pages was read, and two commands.
fn has_two_commands(read: &Result<Script, ScriptFault>) -> bool {
    match read {
        Ok(script) => script.pages == 8 && script.commands.len() == 2,
        Err(_) => false,
    }
}

/// The second line is bad where it has two million digits before this text.
fn is_too_long(alloc: Global, back: &[u8]) -> bool {
    slowly(alloc, b"pages 8\nfind ", 2_000_000, back, false) == Err(ScriptFault::Line(2))
}

#[test]
fn a_script_in_pieces(rt: HostRuntime) {
    let alloc = rt.alloc();
    let whole = slowly(alloc, b"pages 8\nfind ", 3, b"\nrun 1 9\n", false);
    let at_once = script_of(alloc, b"pages 8\nfind 111\nrun 1 9\n", ALL);
    assert!(rt; whole == at_once && has_two_commands(&at_once));
    // a line of two million bytes, with an LF and without
    assert!(rt; is_too_long(alloc, b"\nrun 1 9\n") && is_too_long(alloc, b""));
}

/// Where the reader fails behind the text, this is the fault.
fn fails_with(alloc: Global, text: &[u8], fault: ScriptFault) -> bool {
    slowly(alloc, text, 0, b"", true) == Err(fault)
}

#[test]
fn a_read_that_fails_in_the_middle(rt: HostRuntime) {
    let alloc = rt.alloc();
    let texts: [&[u8]; 4] = [b"", b"pages", b"pages 8\n", b"pages 8\nfind 1\nru"];
    for text in texts {
        assert!(rt; fails_with(alloc, text, ScriptFault::Read));
    }
    // a bad line comes first
    assert!(rt; fails_with(alloc, b"pages 8\nfind\n", ScriptFault::Line(2)));
}

/// The script has so many commands or this fault, or memory was refused.
fn is_or_wants_memory(alloc: Global, text: &[u8], wanted: Result<usize, ScriptFault>) -> bool {
    match script_of(alloc, text, ALL) {
        Ok(script) => wanted == Ok(script.commands.len()),
        Err(fault) => fault == ScriptFault::Memory || wanted == Err(fault),
    }
}

/// Holds whichever allocation is refused: the answer is Memory, or that of ample memory.
#[test]
fn memory_or_the_script(rt: HostRuntime) {
    let texts: [(&[u8], Result<usize, ScriptFault>); 2] = [
        (
            b"pages 8\nfind 1\nturn 1\nrefuse 1\nrun 1 2\nturn 1\n",
            Ok(5),
        ),
        (b"pages 8\nfind 1\nturn 2\n", Err(ScriptFault::Line(3))),
    ];
    for (text, wanted) in texts {
        assert!(rt; is_or_wants_memory(rt.alloc(), text, wanted));
    }
}

#[test]
fn the_law_of_scripts_does_nothing() {
    has_one_reading();
}
