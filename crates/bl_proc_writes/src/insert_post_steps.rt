//! The steps of a write that posts what it splits.

ghost use Rattle.std.specs.Prelude.{◌≡◌, ◌<◌, ◌≤◌, ℕ, Option, None, MatchOption};
ghost use Rattle.bl_proc_steps.specs.declared.acts.Seen.{Seen};
ghost use Rattle.bl_answers.specs.declared.answers.Hint.TheVariants as hint;
ghost use Rattle.bl_proc_steps.specs.Given.{Gives};
ghost use Rattle.bl_proc_writes.specs.declared.writing.Write.{Write};
ghost use Rattle.bl_proc_writes.specs.declared.writing.WriteStage.TheVariants as write_stage;
ghost use Rattle.bl_proc_writes.specs.declared.writing.WriteReply.TheVariants as written;
ghost use Rattle.bl_proc_writes.specs.declared.post.Post.{Post};
ghost use Rattle.bl_proc_writes.specs.declared.post.PostStage.TheVariants as post_stage;
ghost use Rattle.bl_proc_writes.specs.declared.insert_post.ClimbStage.TheVariants as climb_stage;
ghost use Rattle.bl_proc_writes.specs.Levels.{MayReply};
ghost use Rattle.bl_proc_writes.specs.Paths.{IsBlank};
ghost use Rattle.bl_proc_writes.specs.Stands.{IsWriting, IsPosting, IsClimbing};
ghost use Rattle.bl_proc_writes.specs.Writes.{write_next_of, write_needs_of, WriteGoes, WriteTakes};
ghost use Rattle.bl_proc_writes.specs.Posts.{post_next, post_needs, PostGoes, PostTakes};
ghost use Rattle.bl_proc_writes.specs.InsertPosts.{placed_reply, posted_as, climbed_answer, climb_next, climb_needs, climb_answer, climb_next_in, climb_needs_in, ClimbNotes, PostsFrom, IsUnsplit, ClimbGoes, ClimbTakes, IsToBegin};
ghost use Rattle.bl_answers.specs.Hints.{left_hint};

use crate::insert_post::{ClimbStage, Climbed, InsertPost, Placing};
use crate::paths::Path;
use crate::post::{Post, PostReply, PostStage};
use crate::writing::{Write, WriteReply, WriteStage, hint_to_post};
use bl_model::{Reply, decide};
use bl_proc_steps::{Action, Answer, Hint, Level, Posted, Process, Reader, Seen};
use std::mem;

/// Notes the page from which it goes down, if it does, by what it saw.
fn note(path: &mut Path, stage: &ClimbStage, seen: &Seen)
    ensures { ClimbNotes stage.now seen.now path.old path.new }
{
    match stage {
        ClimbStage::Writing(write) => {
            if let WriteStage::Coming(approach) = &write.stage {
                path.note_way(0, write.key, *approach, seen);
            }
        }
        ClimbStage::Posting(post) => {
            if let PostStage::Coming(approach) = &post.stage {
                path.note_way(post.level, post.key, *approach, seen);
            }
        }
        ClimbStage::Ending(_) | ClimbStage::Over(_) => {}
    }
}

/// The post of that key to that level, from the page that is noted for the level.
fn post_from(path: &Path, level: u32, key: u64) -> Post
    requires least { 0 < level }
    requires most { level ≤ 12 }
    ensures { PostsFrom path.now level key result }
{
    Post {
        level,
        key,
        stage: PostStage::Coming(path.way(level)),
    }
}

/// The level and the key that are to be posted, if a write has split its leaf.
fn split_by(reply: &WriteReply) -> Option<(u32, u64)>
    ensures { MatchOption result (IsUnsplit reply.now)
        (λ p. (0 < p.0) × (p.0 ≤ 12) × ((there : Option ℕ) × (reply.now ≡ written.Done there (Some (hint.Post p.0 p.1))))) }
{
    match reply {
        WriteReply::Done(_, Some(hint)) => match hint {
            Hint::Post { .. } => Some((hint.level(), hint.key())),
            Hint::Thin { .. } => None,
        },
        WriteReply::Done(_, None) | WriteReply::NoRoom => None,
    }
}

/// The write is to end. Where it has split its leaf, that is to be posted.
fn written(path: &Path, reply: WriteReply) -> ClimbStage
    ensures { (w : Write) → (what : Seen) → WriteGoes w.key w.write w.stage what (write_stage.Ending reply)
        → ClimbGoes path.now (climb_stage.Writing w) what result }
{
    match split_by(&reply) {
        Some((level, key)) => ClimbStage::Posting(post_from(path, level, key)),
        None => ClimbStage::Ending(Climbed::Unsplit(reply)),
    }
}

/// By the state of the write after its turn.
fn after_write(path: &Path, write: Write) -> ClimbStage
    ensures { (w : Write) → (what : Seen) → IsWriting w.stage → WriteTakes w what write → ClimbGoes path.now (climb_stage.Writing w) what result }
{
    match &write.stage {
        WriteStage::Ending(reply) => written(path, *reply),
        _ => ClimbStage::Writing(write),
    }
}

/// On with the write.
fn wrote(path: &Path, write: Write, seen: Seen) -> ClimbStage
    requires writing { IsWriting write.stage }
    requires given { Gives (write_next_of write) (write_needs_of write) seen }
    ensures { ClimbGoes path.now (climb_stage.Writing write) seen result }
{
    let mut write = write;
    write.took(seen);
    after_write(path, write)
}

/// The post is to end. Where it has split its parent, that is to be posted one level higher.
fn posted(path: &Path, level: u32, key: u64, reply: PostReply) -> ClimbStage
    requires least { 0 < level }
    requires most { level ≤ 12 }
    requires may { MayReply level reply }
    ensures { (p : Post) → (what : Seen) → p.level ≡ level → p.key ≡ key → PostGoes level key p.stage what (post_stage.Ending reply)
        → ClimbGoes path.now (climb_stage.Posting p) what result }
{
    match reply {
        PostReply::Done(Some(separator)) => {
            ClimbStage::Posting(post_from(path, level + 1, separator))
        }
        PostReply::Done(None)
        | PostReply::Already
        | PostReply::Stale
        | PostReply::NoRoom
        | PostReply::TooTall => ClimbStage::Ending(Climbed::Posted {
            level: Level::new(level),
            key,
            reply,
        }),
    }
}

/// By the state of the post after its turn.
fn after_post(path: &Path, post: Post) -> ClimbStage
    ensures { (p : Post) → (what : Seen) → IsPosting p.stage → PostTakes p what post → ClimbGoes path.now (climb_stage.Posting p) what result }
{
    match &post.stage {
        PostStage::Ending(reply) => posted(path, post.level, post.key, *reply),
        _ => ClimbStage::Posting(post),
    }
}

/// On with the post.
fn climbed(path: &Path, post: Post, seen: Seen) -> ClimbStage
    requires posting { IsPosting post.stage }
    requires given { Gives (post_next post) (post_needs post) seen }
    ensures { ClimbGoes path.now (climb_stage.Posting post) seen result }
{
    let mut post = post;
    post.took(seen);
    after_post(path, post)
}

/// An insertion that posts goes on by what its last event has shown: it writes at its leaf, posts what it has split level by level, and
/// ends.
fn went(path: &Path, stage: ClimbStage, seen: Seen) -> ClimbStage
    requires climbing { IsClimbing stage }
    requires given { Gives (climb_next_in stage) (climb_needs_in stage) seen }
    ensures { ClimbGoes path.now stage seen result }
{
    match stage {
        ClimbStage::Writing(write) => wrote(path, write, seen),
        ClimbStage::Posting(post) => climbed(path, post, seen),
        ClimbStage::Ending(end) => ClimbStage::Over(end),
        ClimbStage::Over(_) => unreachable!(),
    }
}

/// The reply to it, by what became of the write.
fn reply_of(placing: Placing, reply: WriteReply) -> Reply
    ensures { result ≡ placed_reply placing reply }
{
    match reply {
        WriteReply::Done(there, _) => decide(placing.write(), there).reply.reply(),
        WriteReply::NoRoom => Reply::NoRoom,
    }
}

/// What became of a post, as it is told.
fn told(reply: PostReply) -> Posted
    ensures { result ≡ posted_as reply }
{
    match reply {
        PostReply::Done(_) => Posted::Done,
        PostReply::Already => Posted::Already,
        PostReply::Stale => Posted::Stale,
        PostReply::NoRoom => Posted::NoRoom,
        PostReply::TooTall => Posted::TooTall,
    }
}

/// The post of that key to that level, if it met no room.
fn left(level: Level, key: u64, posted: Posted) -> Option<Hint>
    ensures { result ≡ left_hint level key posted }
{
    match posted {
        Posted::NoRoom => Some(hint_to_post(level, key)),
        Posted::Done | Posted::Already | Posted::Stale | Posted::TooTall => None,
    }
}

/// The answer of a write that posts.
fn answer_of(placing: Placing, end: Climbed) -> Answer
    ensures { result ≡ climbed_answer placing end }
{
    match end {
        Climbed::Unsplit(reply) => Answer::InsertPost(reply_of(placing, reply), None, None),
        Climbed::Posted { level, key, reply } => {
            let posted = told(reply);
            Answer::InsertPost(Reply::Inserted, Some(posted), left(level, key, posted))
        }
    }
}

impl InsertPost {
    /// A write that posts, and is to begin.
    pub fn new(key: u64, placing: Placing) -> InsertPost
        ensures key { result.key ≡ key }
        ensures placing { result.placing ≡ placing }
        ensures path { IsBlank result.path }
        ensures stage { IsToBegin result.stage }
    {
        InsertPost {
            key,
            placing,
            path: Path::new(),
            stage: ClimbStage::Writing(Write::new(key, placing.write())),
        }
    }
}

impl Process for InsertPost {
    ghost next_of = { climb_next };

    ghost needs_of = { climb_needs };

    ghost answer_of = { climb_answer };

    ghost Takes = { ClimbTakes };

    fn next(&self) -> Action {
        match &self.stage {
            ClimbStage::Writing(write) => write.next(),
            ClimbStage::Posting(post) => post.next(),
            ClimbStage::Ending(_) | ClimbStage::Over(_) => Action::End,
        }
    }

    fn needs(&self) -> Option<(u32, u32)> {
        match &self.stage {
            ClimbStage::Writing(write) => write.needs(),
            ClimbStage::Posting(post) => post.needs(),
            ClimbStage::Ending(_) | ClimbStage::Over(_) => None,
        }
    }

    fn answer(&self) -> Option<Answer> {
        match &self.stage {
            ClimbStage::Over(end) => Some(answer_of(self.placing, *end)),
            _ => None,
        }
    }

    fn took(&mut self, seen: Seen) {
        let held = ClimbStage::Ending(Climbed::Unsplit(WriteReply::NoRoom));
        let stage = mem::replace(&mut self.stage, held);
        note(&mut self.path, &stage, &seen);
        self.stage = went(&self.path, stage, seen);
    }
}

impl Reader for InsertPost {}
