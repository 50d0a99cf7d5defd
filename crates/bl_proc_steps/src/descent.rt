//! The way of a search to the leaf that covers its key.

ghost use Rattle.std.specs.Prelude.{◌≡◌};
ghost use Rattle.bl_page.specs.declared.page.Page.{Page as PageIs};
ghost use Rattle.bl_page.specs.Words.{words_of};
ghost use Rattle.bl_proc_steps.specs.Descents.{descent_page, descent_next, Descends};

use crate::acts::Action;
use bl_page::{Page, Words};
use bl_proc_routes::{Step, step_in, top_in, top_page, way_from};

/// How far a search has come on its way. It holds no page.
#[derive(Clone, Copy)]
pub enum Descent {
    /// It is to get the anchor.
    AtAnchor,
    /// It is to get that page.
    At(u32),
}

/// What became of a descent.
#[derive(Clone, Copy)]
pub enum Descended {
    /// It goes on.
    On(Descent),
    /// The page that it got is the leaf that covers the key.
    Here,
}

impl Descent {
    /// The page that it is to get.
    #[inline(always)]
    pub fn page(self) -> u32
        ensures { result ≡ descent_page self }
    {
        match self {
            Descent::AtAnchor => 0,
            Descent::At(page) => page,
        }
    }

    /// The next action.
    pub fn next(self) -> Action
        ensures { result ≡ descent_next self }
    {
        Action::Get(self.page())
    }

    /// What becomes of the descent to the leaf that covers the key, by the page that it got.
    pub fn took(self, key: u64, page: &Page) -> Descended
        ensures { Descends key self page.now result }
    {
        match self {
            Descent::AtAnchor => Descended::On(Descent::At(top_page(page))),
            Descent::At(_) => match way_from(page, key, 0) {
                Step::Again => Descended::On(Descent::AtAnchor),
                Step::Right(next) | Step::Down(next) => Descended::On(Descent::At(next)),
                Step::Here => Descended::Here,
            },
        }
    }

    /// The same by the page's words.
    #[inline(always)]
    pub fn took_words<W: Words>(self, source: &W, hand: &mut W::Hand, key: u64) -> Descended
        requires sees { W.Sees source.now hand.old }
        requires page { (c : PageIs) × (W.shown source.now hand.old ≡ words_of c) }
        ensures same { hand.new ≡ hand.old }
        ensures goes { (c : PageIs) → W.shown source.now hand.old ≡ words_of c → Descends key self c result }
    {
        match self {
            Descent::AtAnchor => Descended::On(Descent::At(top_in(source, hand))),
            Descent::At(_) => match step_in(source, hand, &mut 0, key, 0) {
                Step::Right(next) | Step::Down(next) => Descended::On(Descent::At(next)),
                Step::Here => Descended::Here,
                Step::Again => {
                    // The key has gone to the left since its parent was read.
                    Descended::On(Descent::AtAnchor)
                }
            },
        }
    }
}
