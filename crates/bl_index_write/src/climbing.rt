//! Insertions and puts that post what they split: from the page that they have noted for each level on their way down, as Lehman and Yao's
//! inserter does.

ghost use Rattle.std.specs.Prelude.{◌≡◌, ◌<◌, ◌≤◌, ℕ, Option, Some, MatchOption};
ghost use Rattle.bl_model.specs.declared.operation.KeyReply.TheVariants as replies;
ghost use Rattle.bl_model.specs.declared.operation.Reply.TheVariants as reply;
ghost use Rattle.bl_model.specs.Replies.{reply_of};
ghost use Rattle.bl_answers.specs.declared.answers.Answer.TheVariants as answers;
ghost use Rattle.bl_answers.specs.declared.answers.Hint.TheVariants as hints;
ghost use Rattle.bl_proc_steps.specs.declared.approach.Approach.TheVariants as approach;
ghost use Rattle.bl_proc_writes.specs.declared.post.PostReply.TheVariants as listed;
ghost use Rattle.bl_proc_writes.specs.declared.post.PostStage.TheVariants as post;
ghost use Rattle.bl_proc_writes.specs.InsertPosts.{IsLast, posted_as};
ghost use Rattle.bl_answers.specs.Hints.{left_hint};
ghost use Rattle.bl_proc_writes.specs.Levels.{MayReply};
ghost use Rattle.bl_proc_writes.specs.Placings.{write_of};
ghost use Rattle.bl_store.specs.Hands.{known, read_words, IsIdle, IsSameHand, HasNoStock, ReadsFrom};
ghost use Rattle.bl_store.specs.Owners.{IsHandOf};
ghost use Rattle.bl_index_rule.specs.declared.known.PassState.{PassState as Knows};
ghost use Rattle.bl_index_events.specs.Rooms.{LacksWrite, LacksPost};
ghost use Rattle.bl_index_events.specs.Runs.{Runs, Rests, IsSince};
ghost use Rattle.bl_index_edit.specs.declared.writers.Left.TheVariants as lefts;
ghost use Rattle.bl_index_edit.specs.Insertions.{climb_opened};
ghost use Rattle.bl_index_write.specs.Climbing.{rises, rose, HasClimbed, IsClimbOver};
ghost use Rattle.bl_index_descend.specs.Events.{HasGotAnchor};
ghost use Rattle.bl_index_write.specs.Kinds.{IsOfInsertion, IsClimbAnswer};

use crate::posting::posted_by;
use crate::rising::{Riser, Rising};
use crate::targets::{AtLeaf, Insertion};
use crate::writing::answer_of;
use bl_index_descend::{Reached, begin_descent, descend, reach};
use bl_index_edit::{Left, post_there, write_there};
use bl_index_events::{FrameView, Tree};
use bl_index_rule::PassState;
use bl_model::{KeyReply, Reply};
use bl_proc::{Answer, Hint, Posted, Process, Reader};
use bl_proc_steps::{Approach, Level};
use bl_proc_writes::{ClimbStage, InsertPost, Path, Placing, Post, PostReply, PostStage};
use bl_store::{Glance, Hand};
use std::sync::Wait;

/// The reply of an insertion or a put.
fn inserted(reply: Reply) -> KeyReply
    requires { IsOfInsertion reply }
    ensures { reply_of result ≡ reply }
{
    match reply {
        Reply::Inserted => KeyReply::Inserted,
        Reply::Present(value) => KeyReply::Present(value),
        Reply::Replaced(value) => KeyReply::Replaced(value),
        Reply::NoRoom => KeyReply::NoRoom,
        _ => unreachable!(),
    }
}

/// What became of a write and of its last post, and the hint.
fn climbed(answer: Option<Answer>) -> (KeyReply, Option<Posted>, Option<Hint>)
    requires { IsClimbAnswer answer }
    ensures { answer ≡ Some (answers.InsertPost (reply_of result.0) result.1 result.2) }
{
    match answer {
        Some(Answer::InsertPost(reply, last, left)) => (inserted(reply), last, left),
        _ => unreachable!(),
    }
}

/// The key at which the upper half begins, where a post has split its parent.
fn split_by(reply: PostReply) -> Option<u64>
    ensures { MatchOption result (IsLast reply) (λ next. reply ≡ listed.Done (Some next)) }
{
    match reply {
        PostReply::Done(next) => next,
        PostReply::Already | PostReply::Stale | PostReply::NoRoom | PostReply::TooTall => None,
    }
}

/// What became of its last post, and the hint.
fn last_posted(level: u32, separator: u64, reply: PostReply) -> (Option<Posted>, Option<Hint>)
    requires least { 0 < level }
    requires most { level ≤ 12 }
    requires may { MayReply level reply }
    ensures { (result.0 ≡ Some (posted_as reply)) × (result.1 ≡ left_hint level separator (posted_as reply)) }
{
    match posted_by(level, reply).0 {
        Posted::NoRoom => {
            let hint = Hint::Post {
                level: Level::new(level),
                key: separator,
            };
            (Some(Posted::NoRoom), Some(hint))
        }
        posted => (Some(posted), None),
    }
}

/// It has opened its last parent, and ends.
fn end_climb(
    tree: &Tree,
    hand: &mut Hand<PassState>,
    rising: &Rising,
    path: &Path,
    reply: PostReply,
) -> (KeyReply, Option<Posted>, Option<Hint>)
    requires empty { HasNoStock hand.old.seat }
    requires last { IsLast reply }
    requires process { (may : MayReply rising.now.level reply)
        × Runs tree.now hand.old (rose rising.now path.now reply may) }
    requires no_room { reply ≡ listed.NoRoom → LacksPost rising.now.level rising.now.separator hand.old.seat }
    ensures same { IsSameHand hand.old.seat hand.new.seat }
    ensures over { IsClimbOver rising.now.insertion.key rising.now.insertion.placing (known hand.old.seat) hand.new.seat (reply_of result.0) result.1 result.2 }
{
    let _ = path;
    tree.conclude(hand);
    let (posted, left) = last_posted(rising.level, rising.separator, reply);
    (KeyReply::Inserted, posted, left)
}

/// The tree has no such level: it gets one more, or the write ends. This is rare, and goes by a process value.
#[inline(never)]
fn climb_above<R: Wait>(
    tree: &Tree,
    rt: &R,
    hand: &mut Hand<PassState>,
    rising: &Rising,
    path: &Path,
    glance: Glance,
) -> (KeyReply, Option<Posted>, Option<Hint>)
    requires runs { Runs tree.now hand.old (known hand.old.seat).state }
    requires empty { HasNoStock hand.old.seat }
    requires reads { ReadsFrom hand.old.seat glance }
    requires since { (pass : ℕ) × (old : Knows) × IsSince pass old (known hand.old.seat) }
    requires anchor { HasGotAnchor (rises rising.now path.now (post.Coming approach.Start) tt tt) (read_words hand.old.seat) (known hand.old.seat) }
    ensures same { IsSameHand hand.old.seat hand.new.seat }
    ensures over { IsClimbOver rising.now.insertion.key rising.now.insertion.placing (known hand.old.seat) hand.new.seat (reply_of result.0) result.1 result.2 }
{
    let shown = FrameView {
        store: &tree.store,
        glance,
    };
    let post = Post {
        level: rising.level,
        key: rising.separator,
        stage: PostStage::Coming(Approach::Start),
    };
    let mut insertion = InsertPost {
        key: rising.insertion.key,
        placing: rising.insertion.placing,
        path: Path { pages: path.pages },
        stage: ClimbStage::Posting(post),
    };
    insertion.took_words(&shown, hand);
    let process = tree.carry_on(rt, hand, insertion);
    climbed(process.answer())
}

/// It posts, level by level, each time from the page that it has noted there.
#[inline(never)]
fn climb<R: Wait>(
    tree: &Tree,
    rt: &R,
    hand: &mut Hand<PassState>,
    insertion: Insertion,
    path: Path,
    separator: u64,
) -> (KeyReply, Option<Posted>, Option<Hint>)
    requires runs { (there : Option ℕ) × Runs tree.now hand.old (climb_opened insertion.key insertion.placing path (lefts.Split there separator)) }
    requires empty { HasNoStock hand.old.seat }
    requires since { (pass : ℕ) × (old : Knows) × IsSince pass old (known hand.old.seat) }
    ensures same { IsSameHand hand.old.seat hand.new.seat }
    ensures over { IsClimbOver insertion.key insertion.placing (known hand.old.seat) hand.new.seat (reply_of result.0) result.1 result.2 }
{
    let mut path = path;
    let mut level = 1;
    let mut separator = separator;
    let mut from = path.way(1);
    for _ in rt.forever() {
        let rising = Rising {
            insertion,
            level,
            separator,
        };
        match reach(tree, rt, hand, &rising, &mut path, from) {
            Reached::Parent(at, glance) => {
                let riser = Riser {
                    rising: &rising,
                    path: &path,
                };
                tree.await_frames(hand);
                let Some(reply) = post_there(tree, rt, hand, &riser, at, glance) else {
                    // Its walk to the child was lost, and it holds nothing.
                    from = Approach::Start;
                    continue;
                };
                let Some(next) = split_by(reply) else {
                    return end_climb(tree, hand, &rising, &path, reply);
                };
                level += 1;
                separator = next;
                from = path.way(level);
            }
            Reached::Again => from = Approach::Start,
            Reached::NoLevel(glance) => {
                return climb_above(tree, rt, hand, &rising, &path, glance);
            }
        }
    }
    unreachable!()
}

/// Carries a write with its posts out, from its begin to its end.
#[inline(always)]
pub fn write_key_posting<R: Wait>(
    tree: &Tree,
    rt: &R,
    hand: &mut Hand<PassState>,
    key: u64,
    placing: Placing,
) -> (KeyReply, Option<Posted>, Option<Hint>)
    requires own { IsHandOf tree.now.store hand.old }
    requires idle { IsIdle hand.old.seat × HasNoStock hand.old.seat }
    ensures same { IsSameHand hand.old.seat hand.new.seat }
    ensures rests { Rests hand.new.seat }
    ensures empty { HasNoStock hand.new.seat }
    ensures climbed { HasClimbed hand.old.number (known hand.old.seat) (known hand.new.seat) key placing (reply_of result.0) result.1 result.2 }
    ensures no_room { result.0 ≡ replies.NoRoom → LacksWrite key (write_of placing) hand.new.seat }
    ensures entered { (level : ℕ) → (separator : ℕ) → result.2 ≡ Some (hints.Post level separator) → reply_of result.0 ≡ reply.Inserted }
    ensures left { (level : ℕ) → (separator : ℕ) → result.2 ≡ Some (hints.Post level separator) → LacksPost level separator hand.new.seat }
{
    let insertion = Insertion { key, placing };
    let mut path = Path::new();
    begin_descent(tree, hand, &insertion);
    let (at, glance) = descend(tree, rt, hand, &insertion, &mut path);
    tree.await_frames(hand);
    let writer = AtLeaf {
        insertion: &insertion,
        path: &path,
    };
    let left = write_there(tree, hand, at, &writer, glance);
    match left {
        Left::Split(_there, separator) => climb(tree, rt, hand, insertion, path, separator),
        _ => {
            tree.conclude(hand);
            let (reply, _) = answer_of(placing.write(), left.reply());
            (reply, None, None)
        }
    }
}
