//! The steps of the process that compresses: the way to the parent, the compression of two of its children, and what it answers.

ghost use Rattle.std.specs.Prelude.{◌≡◌, ◌<◌, ◌≤◌, None, Bool, true, false};
ghost use Rattle.bl_page.specs.Pairs.{IsWithin};
ghost use Rattle.bl_proc_compress.specs.declared.compress.CompressStage.TheVariants as compress_stage;
ghost use Rattle.bl_proc_steps.specs.Given.{Gives};
ghost use Rattle.bl_proc_compress.specs.Compresses.{compress_reply, compressed_answer, compress_next_in, compress_needs_in, compress_answer_in, CompressArrives, CompressGoes, compress_next, compress_needs, compress_answer, CompressTakes};

use crate::compress::{Compress, CompressReply, CompressStage};
use crate::compression::{Compressed, Compression, Decision};
use crate::families::siblings;
use bl_page::Inner;
use bl_proc_steps::{Action, Answer, Approach, Came, Process, Reader, Seen, Squeezed};
use std::mem;

/// What a compression answers by what became of the children, if it does not begin again.
fn reply_of(decision: Decision) -> Option<CompressReply>
    ensures { result ≡ compress_reply decision }
{
    match decision {
        Decision::Merged(hint) => Some(CompressReply::Merged(hint)),
        Decision::Evened => Some(CompressReply::Evened),
        Decision::Enough => Some(CompressReply::Enough),
        Decision::Unposted(hint) => Some(CompressReply::Unposted(hint)),
        Decision::Refused => Some(CompressReply::NoRoom),
        Decision::Lost => None,
    }
}

/// At the parent.
fn arrived(key: u64, at: u32, parent: Inner) -> CompressStage
    requires { IsWithin parent.low parent.high key }
    ensures { CompressArrives key at parent result }
{
    match siblings(at, parent, key) {
        Some(family) => CompressStage::Compressing(Compression::LatchingLeft(family)),
        None => CompressStage::Staying(at),
    }
}

/// On the way to the parent.
fn came(level: u32, key: u64, approach: Approach, seen: Seen) -> CompressStage
    requires above_leaves { 0 < level }
    requires given { Gives (compress_next_in (compress_stage.Coming approach)) None seen }
    ensures { (waits : Bool) → CompressGoes level key waits (compress_stage.Coming approach) seen result }
{
    match approach.came(level, key, seen) {
        Came::NoLevel(_) => CompressStage::Ending(CompressReply::Alone),
        Came::On(approach) => CompressStage::Coming(approach),
        Came::ToParent(at, parent) => arrived(key, at, parent),
    }
}

/// On with the children.
fn on_with_children(
    level: u32,
    key: u64,
    waits: bool,
    compression: Compression,
    seen: Seen,
) -> CompressStage
    requires { Gives (compress_next_in (compress_stage.Compressing compression)) (compress_needs_in (compress_stage.Compressing compression)) seen }
    ensures { CompressGoes level key waits (compress_stage.Compressing compression) seen result }
{
    match compression.took(waits, seen) {
        Compressed::On(compression) => CompressStage::Compressing(compression),
        Compressed::Over(decision) => match reply_of(decision) {
            Some(reply) => CompressStage::Ending(reply),
            None => CompressStage::Coming(Approach::Start),
        },
    }
}

/// A compression goes on by what its last event has shown: it comes to the parent and holds it, compresses two children or lets them stay,
/// and ends.
fn went(level: u32, key: u64, waits: bool, stage: CompressStage, seen: Seen) -> CompressStage
    requires above_leaves { 0 < level }
    requires running { compress_answer_in stage ≡ None }
    requires given { Gives (compress_next_in stage) (compress_needs_in stage) seen }
    ensures { CompressGoes level key waits stage seen result }
{
    match stage {
        CompressStage::New => CompressStage::Coming(Approach::Start),
        CompressStage::Coming(approach) => came(level, key, approach, seen),
        CompressStage::Compressing(compression) => on_with_children(
            level,
            key,
            waits,
            compression,
            seen,
        ),
        CompressStage::Staying(_) => CompressStage::Ending(CompressReply::Alone),
        CompressStage::Ending(reply) => CompressStage::Over(reply),
        CompressStage::Over(_) => unreachable!(),
    }
}

/// The answer of a compression.
fn answer_of(reply: &CompressReply) -> Answer
    ensures { result ≡ compressed_answer reply.now }
{
    match reply {
        CompressReply::Merged(hint) => Answer::Compress(Squeezed::Merged, *hint),
        CompressReply::Evened => Answer::Compress(Squeezed::Evened, None),
        CompressReply::Enough => Answer::Compress(Squeezed::Enough, None),
        CompressReply::Alone => Answer::Compress(Squeezed::Alone, None),
        CompressReply::Unposted(hint) => Answer::Compress(Squeezed::Unposted, Some(*hint)),
        CompressReply::NoRoom => Answer::Compress(Squeezed::NoRoom, None),
    }
}

impl Compress {
    /// A compression that is to begin. It waits for the children.
    pub fn new(level: u32, key: u64) -> Compress
        requires least { 0 < level }
        requires most { level ≤ 12 }
        ensures level { result.level ≡ level }
        ensures key { result.key ≡ key }
        ensures waits { result.waits ≡ true }
        ensures stage { result.stage ≡ compress_stage.New }
    {
        Compress {
            level,
            key,
            waits: true,
            stage: CompressStage::New,
        }
    }

    /// A compression that is to begin, and that does not wait for a child while it holds the parent.
    pub fn yielding(level: u32, key: u64) -> Compress
        requires least { 0 < level }
        requires most { level ≤ 12 }
        ensures level { result.level ≡ level }
        ensures key { result.key ≡ key }
        ensures waits { result.waits ≡ false }
        ensures stage { result.stage ≡ compress_stage.New }
    {
        Compress {
            level,
            key,
            waits: false,
            stage: CompressStage::New,
        }
    }
}

impl Process for Compress {
    ghost next_of = { compress_next };

    ghost needs_of = { compress_needs };

    ghost answer_of = { compress_answer };

    ghost Takes = { CompressTakes };

    fn next(&self) -> Action {
        match &self.stage {
            CompressStage::New => Action::Begin,
            CompressStage::Coming(approach) => approach.next(),
            CompressStage::Compressing(compression) => compression.next(),
            CompressStage::Staying(at) => Action::Open(*at),
            CompressStage::Ending(_) | CompressStage::Over(_) => Action::End,
        }
    }

    fn needs(&self) -> Option<(u32, u32)> {
        match &self.stage {
            CompressStage::Compressing(compression) => compression.needs(),
            _ => None,
        }
    }

    fn answer(&self) -> Option<Answer> {
        match &self.stage {
            CompressStage::Over(reply) => Some(answer_of(reply)),
            _ => None,
        }
    }

    fn took(&mut self, seen: Seen) {
        let stage = mem::replace(&mut self.stage, CompressStage::New);
        self.stage = went(self.level, self.key, self.waits, stage, seen);
    }
}

impl Reader for Compress {}
