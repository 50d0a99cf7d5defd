//! The write of one key: an insertion, a deletion or a change.

ghost use Rattle.std.specs.Prelude.{◌≡◌, None, Some, IfSome};
ghost use Rattle.bl_proc_steps.specs.declared.edit.Edit.{Edit};
ghost use Rattle.bl_proc_routes.specs.declared.routes.Step.TheVariants as onward;
ghost use Rattle.bl_proc_steps.specs.Approaches.{IsToLook};
ghost use Rattle.bl_proc_steps.specs.Given.{Gives};
ghost use Rattle.bl_proc_routes.specs.Routes.{Leads};
ghost use Rattle.bl_proc_writes.specs.declared.writing.Noted.{Noted};
ghost use Rattle.bl_proc_writes.specs.declared.writing.WriteStage.TheVariants as write_stage;
ghost use Rattle.bl_proc_writes.specs.Writes.{thin_after, write_reply, write_answer, write_next_in, write_needs_in, WriteArrives, write_next_of, write_needs_of, write_answer_of, WriteTakes};
ghost use Rattle.bl_answers.specs.Hints.{post_hint};

use bl_model::{Effect, KeyWrite, Reply, decide};
use bl_page::{Page, Words};
use bl_proc_routes::listed;
use bl_proc_steps::{
    Action, Answer, Approach, Approached, Edit, Edited, Hint, Level, Outcome, Process, Reader,
    Seen, dropping, entering, hint_of_thin, replacing, thin_low, took_page,
};
use std::mem;

/// The write of one key.
#[derive(Drop)]
pub struct Write {
    pub key: u64,
    /// What it is to do.
    pub write: KeyWrite,
    pub stage: WriteStage,
}

/// How far a write has come.
#[derive(Drop)]
pub enum WriteStage {
    /// It is to begin.
    New,
    /// It is on its way to the leaf that covers its key.
    Coming(Approach),
    /// It holds that leaf, which lists this with the key and stays as it is, and is to open it.
    Keeping(u32, Option<u64>),
    /// It changes the leaf, of which it has noted that.
    Editing(Noted, Edit),
    /// It is to end.
    Ending(WriteReply),
    /// It has ended.
    Over(WriteReply),
}

/// What a write notes of the leaf that it changes.
#[derive(Clone, Copy)]
pub struct Noted {
    /// What the leaf listed with the key.
    pub there: Option<u64>,
    /// The low of the leaf, if it loses the pair and is thin then: it has fewer than 7 pairs, and is not alone on its level.
    pub thin: Option<u64>,
}

/// What became of a write.
#[derive(Clone, Copy)]
pub enum WriteReply {
    /// It has done what it does where the key has that, and leaves this hint.
    Done(Option<u64>, Option<Hint>),
    /// There was no room, and nothing has changed.
    NoRoom,
}

/// The hint to list a page that begins at the separator, in a parent of that level.
pub fn hint_to_post(level: Level, separator: u64) -> Hint
    ensures { Some result ≡ post_hint level (Some separator) }
{
    Hint::Post {
        level,
        key: separator,
    }
}

/// The low of the page that is to be put, if it is thin.
fn thin_after(edit: &Edit) -> Option<u64>
    ensures { result ≡ thin_after edit.now }
{
    match edit {
        Edit::Putting(_, page) => thin_low(page),
        _ => None,
    }
}

/// What a write answers by what became of its leaf.
fn reply_of(noted: Noted, outcome: Outcome) -> WriteReply
    ensures { result ≡ write_reply noted outcome }
{
    let above = Level::new(1);
    match outcome {
        Outcome::Edited => match noted.thin {
            Some(low) => WriteReply::Done(noted.there, Some(hint_of_thin(above, low))),
            None => WriteReply::Done(noted.there, None),
        },
        Outcome::SplitAt(separator) => {
            WriteReply::Done(noted.there, Some(hint_to_post(above, separator)))
        }
        Outcome::Refused => WriteReply::NoRoom,
    }
}

/// At the leaf that covers the key.
fn arrived(key: u64, write: KeyWrite, at: u32, page: Page) -> WriteStage
    requires { Leads page key 0 onward.Here }
    ensures { WriteArrives key write at page result }
{
    let there = listed(&page, key);
    match decide(write, there).effect {
        Effect::Keep => WriteStage::Keeping(at, there),
        Effect::Enter(value) => {
            let edit = entering(at, page, key, value);
            WriteStage::Editing(Noted { there, thin: None }, edit)
        }
        Effect::Remove => {
            let edit = dropping(at, page, key);
            let thin = thin_after(&edit);
            WriteStage::Editing(Noted { there, thin }, edit)
        }
        Effect::Replace(value) => {
            let edit = replacing(at, page, key, value);
            WriteStage::Editing(Noted { there, thin: None }, edit)
        }
    }
}

impl Write {
    /// On the way to the leaf.
    fn came(&mut self, approach: Approach, seen: Seen)
        requires stage { self.old.stage ≡ write_stage.Coming approach }
        requires given { Gives (write_next_in (write_stage.Coming approach)) None seen }
        ensures { WriteTakes self.old seen self.new }
    {
        match approach.took(0, self.key, seen) {
            Approached::On(approach) => self.stage = WriteStage::Coming(approach),
            Approached::Here(at, page) => self.stage = arrived(self.key, self.write, at, page),
        }
    }

    /// On with the change of the leaf.
    fn changed(&mut self, seen: Seen)
        requires stage { (noted : Noted) × (c : Edit) × (self.old.stage ≡ write_stage.Editing noted c) }
        requires given { Gives (write_next_in self.old.stage) (write_needs_in self.old.stage) seen }
        ensures { WriteTakes self.old seen self.new }
    {
        match mem::replace(&mut self.stage, WriteStage::New) {
            WriteStage::Editing(noted, edit) => match edit.took(seen) {
                Edited::On(edit) => self.stage = WriteStage::Editing(noted, edit),
                Edited::Over(outcome) => self.stage = WriteStage::Ending(reply_of(noted, outcome)),
            },
            _ => unreachable!(),
        }
    }
}

/// The answer of a write.
fn answer_of(write: KeyWrite, reply: WriteReply) -> Answer
    ensures { result ≡ write_answer write reply }
{
    match reply {
        WriteReply::Done(there, hint) => Answer::Op(decide(write, there).reply.reply(), hint),
        WriteReply::NoRoom => Answer::Op(Reply::NoRoom, None),
    }
}

impl Write {
    /// A write that is to begin.
    pub fn new(key: u64, write: KeyWrite) -> Write
        ensures key { result.key ≡ key }
        ensures write { result.write ≡ write }
        ensures stage { result.stage ≡ write_stage.New }
    {
        Write {
            key,
            write,
            stage: WriteStage::New,
        }
    }
}

impl Process for Write {
    ghost next_of = { write_next_of };

    ghost needs_of = { write_needs_of };

    ghost answer_of = { write_answer_of };

    ghost Takes = { WriteTakes };

    fn next(&self) -> Action {
        match &self.stage {
            WriteStage::New => Action::Begin,
            WriteStage::Coming(approach) => approach.next(),
            WriteStage::Keeping(at, _) => Action::Open(*at),
            WriteStage::Editing(_, edit) => edit.next(),
            WriteStage::Ending(_) | WriteStage::Over(_) => Action::End,
        }
    }

    fn needs(&self) -> Option<(u32, u32)> {
        match &self.stage {
            WriteStage::Editing(_, edit) => edit.needs(),
            _ => None,
        }
    }

    fn answer(&self) -> Option<Answer> {
        match &self.stage {
            WriteStage::Over(reply) => Some(answer_of(self.write, *reply)),
            _ => None,
        }
    }

    fn took(&mut self, seen: Seen) {
        match &self.stage {
            WriteStage::Coming(approach) => {
                let approach = *approach;
                self.came(approach, seen);
            }
            WriteStage::Editing(_, _) => self.changed(seen),
            WriteStage::New => self.stage = WriteStage::Coming(Approach::Start),
            WriteStage::Keeping(_, there) => {
                self.stage = WriteStage::Ending(WriteReply::Done(*there, None));
            }
            WriteStage::Ending(reply) => self.stage = WriteStage::Over(*reply),
            WriteStage::Over(_) => unreachable!(),
        }
    }
}

impl Write {
    /// Where it is to get a page on its way, and holds none.
    fn way(&self) -> Option<Approach>
        ensures { IfSome result (λ a. (self.now.stage ≡ write_stage.Coming a) × IsToLook a) }
    {
        match &self.stage {
            WriteStage::Coming(Approach::Start) => Some(Approach::Start),
            WriteStage::Coming(Approach::At(at)) => Some(Approach::At(*at)),
            _ => None,
        }
    }
}

impl Reader for Write {
    // On its way a write makes no page of the words: most of its time would go there.
    fn took_words<W: Words>(&mut self, source: &W, hand: &mut W::Hand) {
        let Some(approach) = self.way() else {
            took_page(self, source, hand);
            return;
        };
        let next = approach.took_words(0, self.key, source, hand);
        self.stage = WriteStage::Coming(next);
    }
}
