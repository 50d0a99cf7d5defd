//! The steps of a post.

ghost use Rattle.std.specs.Prelude.{◌≡◌, ◌<◌, ◌≤◌, ◌-◌, None};
ghost use Rattle.bl_page.specs.Pairs.{IsWithin};
ghost use Rattle.bl_proc_steps.specs.declared.approach.Approach.TheVariants as approach;
ghost use Rattle.bl_proc_routes.specs.declared.routes.Step.TheVariants as onward;
ghost use Rattle.bl_proc_writes.specs.declared.post.PostStage.TheVariants as post_stage;
ghost use Rattle.bl_proc_steps.specs.Given.{Gives};
ghost use Rattle.bl_proc_routes.specs.Routes.{Leads};
ghost use Rattle.bl_proc_writes.specs.Levels.{MayReply};
ghost use Rattle.bl_proc_writes.specs.Posts.{post_reply, posted_answer, post_next_in, post_needs_in, post_answer_in, PostLacks, PostArrives, PostWalks, PostGoes, post_next, post_needs, post_answer, PostTakes};

use crate::post::{Post, PostReply, PostStage};
use crate::walking::Walk;
use crate::writing::hint_to_post;
use bl_page::{Inner, Page, Words, listed_with};
use bl_proc_routes::{Step, low_of, way_from};
use bl_proc_steps::{
    Action, Answer, Approach, Came, Edit, Edited, Grew, Growth, Level, Outcome, Posted, Process,
    Reader, Seen, entering, took_page,
};
use std::mem;

/// What a post answers by what became of its parent.
fn reply_of(outcome: Outcome) -> PostReply
    ensures { result ≡ post_reply outcome }
{
    match outcome {
        Outcome::Edited => PostReply::Done(None),
        Outcome::SplitAt(separator) => PostReply::Done(Some(separator)),
        Outcome::Refused => PostReply::NoRoom,
    }
}

/// In a tree that has only that many levels.
fn lacked(level: u32, levels: u32) -> PostStage
    requires { levels ≤ level }
    ensures { PostLacks level levels result }
{
    if levels < level {
        PostStage::Ending(PostReply::Stale)
    } else if level == 12 {
        PostStage::Ending(PostReply::TooTall)
    } else {
        PostStage::Growing(Growth::Latching)
    }
}

/// At the parent.
fn arrived(key: u64, at: u32, parent: Inner) -> PostStage
    requires { IsWithin parent.low parent.high key }
    ensures { PostArrives key at parent result }
{
    match listed_with(parent.children.as_slice(), key) {
        Some(_) => PostStage::Staying(at, PostReply::Already),
        None => {
            let child = parent.child_of(key);
            PostStage::Walking(Walk {
                at,
                key,
                parent,
                child,
            })
        }
    }
}

/// On the way to the parent.
fn came(level: u32, key: u64, approach: Approach, seen: Seen) -> PostStage
    requires above_leaves { 0 < level }
    requires given { Gives (post_next_in (post_stage.Coming approach)) None seen }
    ensures { PostGoes level key (post_stage.Coming approach) seen result }
{
    match approach.came(level, key, seen) {
        Came::NoLevel(levels) => lacked(level, levels),
        Came::On(approach) => PostStage::Coming(approach),
        Came::ToParent(at, parent) => arrived(key, at, parent),
    }
}

/// On with the growth.
fn grew(level: u32, key: u64, growth: Growth, seen: Seen) -> PostStage
    requires least { 0 < level }
    requires given { Gives (post_next_in (post_stage.Growing growth)) (post_needs_in (post_stage.Growing growth)) seen }
    ensures { PostGoes level key (post_stage.Growing growth) seen result }
{
    match growth.took(level, seen) {
        Grew::On(growth) => PostStage::Growing(growth),
        Grew::Grown => PostStage::Coming(Approach::Start),
        Grew::Refused => PostStage::Ending(PostReply::NoRoom),
    }
}

/// The parent is opened, and the way begins again.
fn again(parent: u32) -> PostStage
    ensures { result ≡ post_stage.Coming (approach.Leaving parent None) }
{
    PostStage::Coming(Approach::Leaving(parent, None))
}

/// The walk has got the page that covers the key.
fn found(level: u32, walk: Walk, page: &Page) -> PostStage
    requires { Leads page.now walk.key (level - 1) onward.Here }
    ensures { PostWalks level walk page.now result }
{
    let Walk {
        at,
        key,
        parent,
        child,
    } = walk;
    if low_of(page) == key {
        PostStage::Editing(entering(at, Page::Inner(parent), key, child as u64))
    } else {
        PostStage::Staying(at, PostReply::Stale)
    }
}

/// The walk goes to the right.
fn walk_on(level: u32, walk: Walk, page: &Page, next: u32) -> PostStage
    requires { Leads page.now walk.key (level - 1) (onward.Right next) }
    ensures { PostWalks level walk page.now result }
{
    let Walk {
        at,
        key,
        parent,
        ..
    } = walk;
    if next == 0 {
        return again(at);
    }
    PostStage::Walking(Walk {
        at,
        key,
        parent,
        child: next,
    })
}

/// The walk has got a page.
fn walked(level: u32, walk: Walk, page: &Page) -> PostStage
    requires { 0 < level }
    ensures { PostWalks level walk page.now result }
{
    match way_from(page, walk.key, level - 1) {
        Step::Here => found(level, walk, page),
        Step::Right(next) => walk_on(level, walk, page, next),
        Step::Again | Step::Down(_) => again(walk.at),
    }
}

/// On with the change of the parent.
fn changed(level: u32, key: u64, edit: Edit, seen: Seen) -> PostStage
    requires { Gives (post_next_in (post_stage.Editing edit)) (post_needs_in (post_stage.Editing edit)) seen }
    ensures { PostGoes level key (post_stage.Editing edit) seen result }
{
    match edit.took(seen) {
        Edited::On(edit) => PostStage::Editing(edit),
        Edited::Over(outcome) => PostStage::Ending(reply_of(outcome)),
    }
}

/// A post goes on by what its last event has shown: it comes to the parent and holds it, walks one level lower to the child that is to be
/// listed, changes the parent or lets it stay, and ends. Where the tree has no such level it adds one first.
fn went(level: u32, key: u64, stage: PostStage, seen: Seen) -> PostStage
    requires above_leaves { 0 < level }
    requires running { post_answer_in level stage ≡ None }
    requires given { Gives (post_next_in stage) (post_needs_in stage) seen }
    ensures { PostGoes level key stage seen result }
{
    match stage {
        PostStage::New => PostStage::Coming(Approach::Start),
        PostStage::Coming(approach) => came(level, key, approach, seen),
        PostStage::Growing(growth) => grew(level, key, growth, seen),
        PostStage::Walking(walk) => match seen {
            Seen::Words(page) => walked(level, walk, &page),
            _ => unreachable!(),
        },
        PostStage::Editing(edit) => changed(level, key, edit, seen),
        PostStage::Staying(_, reply) => PostStage::Ending(reply),
        PostStage::Ending(reply) => PostStage::Over(reply),
        PostStage::Over(_) => unreachable!(),
    }
}

/// The answer of a post to that level.
fn answer_of(level: u32, reply: PostReply) -> Answer
    requires { MayReply level reply }
    ensures { result ≡ posted_answer level reply }
{
    match reply {
        PostReply::Done(None) => Answer::Post(Posted::Done, None),
        PostReply::Done(Some(separator)) => {
            let above = Level::new(level + 1);
            Answer::Post(Posted::Done, Some(hint_to_post(above, separator)))
        }
        PostReply::Already => Answer::Post(Posted::Already, None),
        PostReply::Stale => Answer::Post(Posted::Stale, None),
        PostReply::NoRoom => Answer::Post(Posted::NoRoom, None),
        PostReply::TooTall => Answer::Post(Posted::TooTall, None),
    }
}

impl Post {
    /// A post that is to begin.
    pub fn new(level: u32, key: u64) -> Post
        requires least { 0 < level }
        requires most { level ≤ 12 }
        ensures level { result.level ≡ level }
        ensures key { result.key ≡ key }
        ensures stage { result.stage ≡ post_stage.New }
    {
        Post {
            level,
            key,
            stage: PostStage::New,
        }
    }
}

impl Process for Post {
    ghost next_of = { post_next };

    ghost needs_of = { post_needs };

    ghost answer_of = { post_answer };

    ghost Takes = { PostTakes };

    fn next(&self) -> Action {
        match &self.stage {
            PostStage::New => Action::Begin,
            PostStage::Coming(approach) => approach.next(),
            PostStage::Growing(growth) => growth.next(),
            PostStage::Walking(walk) => Action::Get(walk.child),
            PostStage::Editing(edit) => edit.next(),
            PostStage::Staying(at, _) => Action::Open(*at),
            PostStage::Ending(_) | PostStage::Over(_) => Action::End,
        }
    }

    fn needs(&self) -> Option<(u32, u32)> {
        match &self.stage {
            PostStage::Growing(growth) => growth.needs(),
            PostStage::Editing(edit) => edit.needs(),
            _ => None,
        }
    }

    fn answer(&self) -> Option<Answer> {
        match &self.stage {
            PostStage::Over(reply) => Some(answer_of(self.level, *reply)),
            _ => None,
        }
    }

    fn took(&mut self, seen: Seen) {
        let stage = mem::replace(&mut self.stage, PostStage::New);
        self.stage = went(self.level, self.key, stage, seen);
    }
}

impl Reader for Post {
    // No page is made of the words on the way from the top of the tree to the parent.
    #[inline(always)]
    fn took_words<W: Words>(&mut self, source: &W, hand: &mut W::Hand) {
        if let PostStage::Coming(approach) = &mut self.stage {
            if let Approach::At(_) = approach {
                *approach = approach.took_words(self.level, self.key, source, hand);
                return;
            }
        }
        took_page(self, source, hand);
    }
}
