//! What all kinds of processes have in common.

ghost use Rattle.std.specs.Prelude.{◌≡◌, ℕ, Option, None};
ghost use Rattle.bl_proc_steps.specs.declared.acts.Action.{Action};
ghost use Rattle.bl_proc_steps.specs.declared.acts.Seen.{Seen};
ghost use Rattle.bl_answers.specs.declared.answers.Answer.{Answer};
ghost use Rattle.bl_proc_steps.specs.declared.acts.Action.TheVariants as act;
ghost use Rattle.bl_proc_steps.specs.declared.acts.Seen.TheVariants as seen;
ghost use Rattle.bl_proc_steps.specs.Given.{Gives};
ghost use Rattle.bl_page.specs.declared.page.Page.{Page};
ghost use Rattle.bl_page.specs.Words.{words_of};

use crate::acts::{Action, Seen};
use bl_answers::Answer;
use bl_page::{Words, from_wide_words, words_from};

/// A process of one kind: whoever runs it asks for its next action, carries it out, and tells it what the action gave,
/// until it answers.
pub trait Process {
    /// What the process does next, by its state.
    ghost next_of: { Self → Action };

    /// How many pages and frames are reserved before that.
    ghost needs_of: { Self → Option (ℕ × ℕ) };

    /// Its answer, once it has ended.
    ghost answer_of: { Self → Option Answer };

    /// A state, what the action gave in it, and the state that follows.
    ghost Takes: { Self → Seen → Self → Type 0 };

    /// What it does next.
    fn next(&self) -> Action
        requires { answer_of self.now ≡ None }
        ensures { result ≡ next_of self.now };

    /// How many pages and how many frames are reserved before its next action, where any are.
    fn needs(&self) -> Option<(u32, u32)>
        ensures { result ≡ needs_of self.now };

    /// Its answer, once it has ended.
    fn answer(&self) -> Option<Answer>
        ensures { result ≡ answer_of self.now };

    /// Goes on by what its next action gave.
    fn took(&mut self, seen: Seen)
        requires running { answer_of self.old ≡ None }
        requires given { Gives (next_of self.old) (needs_of self.old) seen }
        ensures { Takes self.old seen self.new };
}

/// A process of a kind that gets pages, and may be told of one by its words.
pub trait Reader: Process {
    /// Goes on by the page that it got, by the page's words.
    fn took_words<W: Words>(&mut self, source: &W, hand: &mut W::Hand)
        requires sees { W.Sees source.now hand.old }
        requires running { Self.Process.answer_of self.old ≡ None }
        requires gets { (x : ℕ) × (Self.Process.next_of self.old ≡ act.Get x) }
        requires page { (c : Page) × (W.shown source.now hand.old ≡ words_of c) }
        ensures same { hand.new ≡ hand.old }
        ensures takes { (c : Page) → W.shown source.now hand.old ≡ words_of c → Self.Process.Takes self.old (seen.Words c) self.new }
    {
        took_page(self, source, hand);
    }
}

/// A process goes on by the page that it got, which is made of the page's words.
// Its locals have pages in them, and are zero-filled wherever it is inlined, whether they are used or not.
#[inline(never)]
pub fn took_page<P: Process, W: Words>(process: &mut P, source: &W, hand: &mut W::Hand)
    requires sees { W.Sees source.now hand.old }
    requires running { P.answer_of process.old ≡ None }
    requires gets { (x : ℕ) × (P.next_of process.old ≡ act.Get x) }
    requires page { (c : Page) × (W.shown source.now hand.old ≡ words_of c) }
    ensures same { hand.new ≡ hand.old }
    ensures takes { (c : Page) → W.shown source.now hand.old ≡ words_of c → P.Takes process.old (seen.Words c) process.new }
{
    match from_wide_words(&words_from(source, hand)) {
        Ok(page) => process.took(Seen::Words(page)),
        Err(_) => unreachable!(),
    }
}
