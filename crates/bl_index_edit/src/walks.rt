//! A post at its parent that may not wait: where its walk is long, it comes back and holds the parent still.

ghost use Rattle.std.specs.Prelude.{IfOk, IfErr};
ghost use Rattle.bl_proc_steps.specs.declared.approach.Approach.TheVariants as approach;
ghost use Rattle.bl_proc_writes.specs.declared.post.PostStage.TheVariants as post;
ghost use Rattle.bl_store.specs.Hands.{known, read_words, HasNoStock, ReadsFrom};
ghost use Rattle.bl_index_events.specs.Runs.{Runs};
ghost use Rattle.bl_index_descend.specs.Events.{IsThere};
ghost use Rattle.bl_index_edit.specs.Events.{LeavesParent, WalksStill};

use crate::parents::{begin_walk, stay, walk_within};
use crate::posters::Poster;
use bl_index_events::Tree;
use bl_index_rule::PassState;
use bl_proc_writes::PostReply;
use bl_store::{Glance, Hand};

/// The walk to the child is long: the post holds its parent still.
#[derive(Clone, Copy)]
pub struct Far;

/// At the parent that it holds, which covers the key. It waits for nothing. Where it has not come to the child after so many turns, it
/// holds the parent still, and is on that walk.
pub fn post_there_within<P: Poster>(
    tree: &Tree,
    hand: &mut Hand<PassState>,
    poster: &P,
    at: u32,
    glance: Glance,
    turns: u32,
) -> Result<Option<PostReply>, Far>
    requires runs { Runs tree.now hand.old (known hand.old.seat).state }
    requires empty { HasNoStock hand.old.seat }
    requires reads { ReadsFrom hand.old.seat glance }
    requires there { IsThere (P.level_of poster.now) (P.key_of poster.now) (P.staged poster.now (post.Coming (approach.Latched at)) tt tt)
        (read_words hand.old.seat) (known hand.old.seat) }
    ensures left { IfOk result (λ replies. LeavesParent tree.now hand.old.seat hand.new (P.level_of poster.now) (P.key_of poster.now) (P.staged poster.now)
        (P.opened poster.now) replies) }
    ensures walks { IfErr result (λ far. WalksStill tree.now hand.old.seat hand.new (P.level_of poster.now) (P.staged poster.now) at) }
{
    let mut parent = [0; 32];
    let child = match begin_walk(tree, hand, poster, at, glance, &mut parent) {
        Some(child) => child,
        None => return Ok(stay(tree, hand, poster, at, PostReply::Already)),
    };
    match walk_within(tree, hand, poster, at, &parent, child, turns) {
        Ok(replies) => Ok(replies),
        Err(_next) => Err(Far),
    }
}
