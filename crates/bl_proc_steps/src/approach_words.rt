//! The way of a writer above its level, by the words of the pages on it: it latches none of them, so it makes none of them.

ghost use Rattle.std.specs.Prelude.{◌≡◌, ◌↔◌, IsTrue};
ghost use Rattle.bl_page.specs.declared.page.Page.{Page};
ghost use Rattle.bl_page.specs.Words.{words_of};
ghost use Rattle.bl_page.specs.Nodes.{roots_of};
ghost use Rattle.bl_proc_steps.specs.declared.acts.Seen.TheVariants as seen;
ghost use Rattle.bl_proc_steps.specs.declared.approach.Approach.TheVariants as approach;
ghost use Rattle.bl_proc_steps.specs.declared.approach.Approached.TheVariants as approached;
ghost use Rattle.bl_proc_steps.specs.Approaches.{Enters, Approaches, IsToLook};

use crate::approach::{Approach, approach_by};
use bl_page::Words;
use bl_proc_routes::{level_in, levels_in, step_in, top_in};

/// From the anchor.
#[inline(always)]
fn entered_in<W: Words>(source: &W, hand: &mut W::Hand, level: u32) -> Approach
    requires sees { W.Sees source.now hand.old }
    requires page { (c : Page) × (W.shown source.now hand.old ≡ words_of c) }
    ensures same { hand.new ≡ hand.old }
    ensures enters { (c : Page) → W.shown source.now hand.old ≡ words_of c → Enters level (roots_of c) result }
{
    let levels = levels_in(source, hand);
    if levels <= level {
        return Approach::Start;
    }
    let top = top_in(source, hand);
    if levels - 1 == level {
        Approach::Latching(top)
    } else {
        Approach::At(top)
    }
}

/// From a page that was got without a latch.
#[inline(always)]
fn turned_in<W: Words>(source: &W, hand: &mut W::Hand, level: u32, key: u64, at: u32) -> Approach
    requires sees { W.Sees source.now hand.old }
    requires page { (c : Page) × (W.shown source.now hand.old ≡ words_of c) }
    ensures same { hand.new ≡ hand.old }
    ensures turns { (c : Page) → W.shown source.now hand.old ≡ words_of c → Approaches level key (approach.At at) (seen.Words c) (approached.On result) }
{
    let own = level_in(source, hand);
    approach_by(step_in(source, hand, &mut 0, key, level), level, own, at)
}

impl Approach {
    /// Whether it is to get a page and holds none.
    #[inline(always)]
    pub fn is_to_look(self) -> bool
        ensures { IsTrue result ↔ IsToLook self }
    {
        matches!(self, Approach::Start | Approach::At(_))
    }

    /// What becomes of an approach that is to get a page and holds none, by the page's words.
    #[inline(always)]
    pub fn took_words<W: Words>(
        self,
        level: u32,
        key: u64,
        source: &W,
        hand: &mut W::Hand,
    ) -> Approach
        requires looks { IsToLook self }
        requires sees { W.Sees source.now hand.old }
        requires page { (c : Page) × (W.shown source.now hand.old ≡ words_of c) }
        ensures same { hand.new ≡ hand.old }
        ensures goes { (c : Page) → W.shown source.now hand.old ≡ words_of c → Approaches level key self (seen.Words c) (approached.On result) }
    {
        match self {
            Approach::Start => entered_in(source, hand, level),
            Approach::At(at) => turned_in(source, hand, level, key, at),
            _ => unreachable!(),
        }
    }
}
