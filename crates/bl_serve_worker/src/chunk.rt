//! A chunk of lines, which several threads answer, and what each of them does.

ghost use Rattle.std.specs.Prelude.{◌≡◌, ◌+◌, ◌<◌, ◌^◌, length};

use crate::service::Service;
use crate::wakeup::Wakeup;
use bl_changes::Changes;
use bl_serve_lines::request::Request;
use bl_serve_reading::Named;
use crossbeam_channel::Receiver;

/// The replies to the lines of a share, in the order of the lines.
#[derive(Debug, PartialEq, Eq, Drop)]
pub struct ShareOutput {
    pub share: u8,
    pub text: Vec<u8>,
    /// How many bytes of the text each reply has.
    pub lengths: Vec<usize>,
}

/// What a handle does for the chunks of a server.
#[derive(Clone, Copy, Debug, PartialEq, Eq)]
pub enum Role {
    /// It answers lines.
    Serve,
    /// It follows hints.
    Compress,
}

/// Where a handle works on a chunk: what it is to do, and what it has written.
#[derive(Drop)]
pub struct Slot {
    pub role: Role,
    /// It is the last one: where the input ends with the chunk, its handle puts the index in order behind all others.
    pub last: bool,
    pub log: Vec<ShareOutput>,
    /// The rows that its writes have changed in the chunk, where these are noted.
    pub changes: Changes,
    /// How many requests of the handle found no room, in all chunks so far.
    pub norooms: u64,
    /// There was no memory for all that it was to write and to note.
    pub failed: bool,
}

/// Lines that were read together, and what the threads that answer them share.
#[derive(Drop)]
pub struct Chunk<'a, G> {
    pub service: &'a Service<'a, G>,
    pub wakeup: &'a Wakeup,
    /// The shares that nobody has taken yet. All lines of a key are in one share.
    pub shares: &'a Receiver<u8>,
    /// What the lines ask for.
    pub lines: &'a [Option<Request>],
    /// Those of them that name a file.
    pub names: &'a [Named],
    /// The share of each line.
    pub deals: &'a [u8],
    /// How many lines of the input stand before them.
    pub before: u64,
    /// Whether the input ends with them.
    pub last: bool,
    pub ghost room: { before + length lines.now < 2 ^ 64 },
    pub ghost dealt: { length deals.now ≡ length lines.now },
}

impl<G> Chunk<'_, G> {
    /// The name of the file that the line of that number names, and no name where it names none. It is tested, and in no clause.
    pub(crate) fn file_name(&self, number: u64) -> &[u8] {
        let before = number.wrapping_sub(self.before).wrapping_sub(1);
        match self.names.iter().find(|named| named.place as u64 == before) {
            Some(named) => named.name.as_slice(),
            None => b"",
        }
    }
}
