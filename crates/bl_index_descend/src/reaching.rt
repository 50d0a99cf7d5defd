//! The way to a parent, which a tree may not have.

ghost use Rattle.std.specs.Prelude.{◌≡◌, ◌<◌, IfOk, IfErr};
ghost use Rattle.bl_page.specs.declared.page.Page.{Page};
ghost use Rattle.bl_page.specs.Nodes.{roots_of};
ghost use Rattle.bl_proc_steps.specs.declared.approach.Approach.TheVariants as approach;
ghost use Rattle.bl_store.specs.Hands.{known, read_words, ReadsFrom};
ghost use Rattle.bl_index_events.specs.Runs.{Runs, KeepsHand, IsSameProcess};
ghost use Rattle.bl_index_descend.specs.Events.{HasGotAnchor, HasNeared, HasReached, HoldsNone, reached_by};

use crate::coming::{come_from, come_trying};
use crate::targets::Target;
use bl_index_events::{FrameView, Tree};
use bl_index_rule::PassState;
use bl_proc_routes::levels_in;
use bl_proc_steps::Approach;
use bl_store::{Glance, Hand};
use std::sync::Wait;

/// What a writer has come to that looks for a parent.
#[derive(Clone, Copy)]
pub enum Reached {
    /// The page of its level that covers its key, which it holds and has looked at.
    Parent(u32, Glance),
    /// Its way begins again.
    Again,
    /// The anchor of a tree that has no such level, which it has looked at.
    NoLevel(Glance),
}

/// What a writer has come to that looks for a parent and may not wait.
#[derive(Clone, Copy)]
pub enum Neared {
    /// The page of its level that covers its key, which it holds and has looked at.
    Parent(u32, Glance),
    /// It has given up on its way, and holds no page.
    Underway(Approach),
    /// The anchor of a tree that has no such level, which it has looked at.
    NoLevel(Glance),
}

impl Reached {
    /// The same, by what it has come to in a tree that has such a level.
    #[inline(always)]
    fn by(came: Option<(u32, Glance)>) -> Reached
        ensures { result ≡ reached_by came }
    {
        match came {
            Some((at, glance)) => Reached::Parent(at, glance),
            None => Reached::Again,
        }
    }
}

/// It gets the anchor, and goes on by its words, where the tree has its level. Else it has looked at that.
#[inline(always)]
fn look_up<J: Target>(
    tree: &Tree,
    hand: &mut Hand<PassState>,
    target: &J,
    path: &J::Path,
) -> Result<Approach, Glance>
    requires runs { Runs tree.now hand.old (J.at target.now path.now approach.Start) }
    requires led { (c : Page) → J.level_of target.now < (roots_of c).levels → J.IsLedBy target.now c }
    ensures same { KeepsHand hand.old.seat hand.new.seat }
    ensures ok { IfOk result (λ a. HoldsNone a × Runs tree.now hand.new (J.at target.now path.now a)) }
    ensures err { IfErr result (λ glance. ReadsFrom hand.new.seat glance × Runs tree.now hand.new (known hand.new.seat).state
        × HasGotAnchor (J.at target.now path.now approach.Start) (read_words hand.new.seat) (known hand.new.seat)) }
    ensures since { IsSameProcess (known hand.old.seat) (known hand.new.seat) }
{
    let _ = path;
    let level = target.level();
    let glance = tree.look(hand, 0);
    let shown = FrameView {
        store: &tree.store,
        glance,
    };
    if levels_in(&shown, hand) <= level {
        return Err(glance);
    }
    Ok(Approach::Start.took_words(level, target.key(), &shown, hand))
}

/// From the page that it is to latch, or from the anchor, it comes to the page of its level that covers its key, which it holds then
/// and got last, unless the way begins again or the tree has no such level.
pub fn reach<J: Target, R: Wait>(
    tree: &Tree,
    rt: &R,
    hand: &mut Hand<PassState>,
    target: &J,
    path: &mut J::Path,
    from: Approach,
) -> Reached
    requires runs { Runs tree.now hand.old (J.at target.now path.old from) }
    requires free { HoldsNone from }
    requires led { (c : Page) → J.level_of target.now < (roots_of c).levels → J.IsLedBy target.now c }
    ensures same { KeepsHand hand.old.seat hand.new.seat }
    ensures reached { HasReached (J.level_of target.now) (J.key_of target.now) (J.at target.now path.new) tree.now.store.layout hand.new.seat result }
    ensures since { IsSameProcess (known hand.old.seat) (known hand.new.seat) }
{
    match from {
        Approach::Start => match look_up(tree, hand, target, path) {
            Ok(way) => Reached::by(come_from(tree, rt, hand, target, path, way)),
            Err(glance) => Reached::NoLevel(glance),
        },
        _ => Reached::by(come_from(tree, rt, hand, target, path, from)),
    }
}

/// From the anchor it comes to the page of its level that covers its key, as above, unless the tree has no such level. It waits for
/// nothing, and gives up as any writer does that may not wait.
#[inline(always)]
pub fn reach_within<J: Target>(
    tree: &Tree,
    hand: &mut Hand<PassState>,
    target: &J,
    path: &mut J::Path,
    turns: u32,
) -> Neared
    requires runs { Runs tree.now hand.old (J.at target.now path.old approach.Start) }
    requires led { (c : Page) → J.level_of target.now < (roots_of c).levels → J.IsLedBy target.now c }
    ensures same { KeepsHand hand.old.seat hand.new.seat }
    ensures neared { HasNeared (J.level_of target.now) (J.key_of target.now) (J.at target.now path.new) tree.now.store.layout hand.new.seat result }
    ensures since { IsSameProcess (known hand.old.seat) (known hand.new.seat) }
{
    match look_up(tree, hand, target, path) {
        Ok(way) => match come_trying(tree, hand, target, path, way, turns) {
            Ok((at, glance)) => Neared::Parent(at, glance),
            Err(way) => Neared::Underway(way),
        },
        Err(glance) => Neared::NoLevel(glance),
    }
}
