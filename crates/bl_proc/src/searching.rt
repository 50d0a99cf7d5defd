//! The search for a key's value.

ghost use Rattle.std.specs.Prelude.{◌≡◌, None};
ghost use Rattle.bl_proc.specs.declared.searching.FindStage.TheVariants as find_stage;
ghost use Rattle.bl_proc_steps.specs.Given.{Gives};
ghost use Rattle.bl_proc.specs.Searches.{find_next_in, find_answer_in, find_next, find_needs, find_answer, FindGoes, FindTakes};

use crate::parts::first_way;
use bl_model::Reply;
use bl_page::Words;
use bl_proc_routes::{listed, row_in};
use bl_proc_steps::{Action, Answer, Descended, Descent, Process, Reader, Seen};

/// A search for the value of a key.
#[derive(Clone, Copy)]
pub struct Find {
    pub key: u64,
    pub stage: FindStage,
}

/// How far a search has come.
#[derive(Clone, Copy)]
pub enum FindStage {
    /// It is to begin.
    New,
    /// It is to begin, and then to look at that page, from which its way may be short.
    Near(u32),
    /// It is to look whether that page is open.
    Probing(u32),
    /// It is on its way to the leaf that covers its key.
    Descending(Descent),
    /// It is to end, with the key's value, if there is one.
    Ending(Option<u64>),
    /// It has ended, with the key's value, if there is one.
    Over(Option<u64>),
}

/// A search goes on by what its last event has shown: it comes down to the leaf that covers its key, or probes a page that is near, and
/// ends with the value.
#[inline(always)]
fn went(key: u64, stage: FindStage, seen: &Seen) -> FindStage
    requires running { find_answer_in stage ≡ None }
    requires given { Gives (find_next_in stage) None seen.now }
    ensures { FindGoes key stage seen.now result }
{
    match (stage, seen) {
        (FindStage::New, Seen::Done) => FindStage::Descending(Descent::AtAnchor),
        (FindStage::Near(page), Seen::Done) => FindStage::Probing(page),
        (FindStage::Probing(page), Seen::Probed(free)) => {
            FindStage::Descending(first_way(page, *free))
        }
        (FindStage::Descending(descent), Seen::Words(page)) => match descent.took(key, page) {
            Descended::On(next) => FindStage::Descending(next),
            Descended::Here => FindStage::Ending(listed(page, key)),
        },
        (FindStage::Ending(value), Seen::Done) => FindStage::Over(value),
        _ => unreachable!(),
    }
}

impl Find {
    /// A search that is to begin.
    pub fn new(key: u64) -> Find
        ensures key { result.key ≡ key }
        ensures stage { result.stage ≡ find_stage.New }
    {
        Find {
            key,
            stage: FindStage::New,
        }
    }

    /// A search that is to begin, and then to look at that page, from which its way may be short. It may be any page.
    pub fn near(key: u64, page: u32) -> Find
        ensures key { result.key ≡ key }
        ensures stage { result.stage ≡ find_stage.Near page }
    {
        Find {
            key,
            stage: FindStage::Near(page),
        }
    }
}

impl Process for Find {
    ghost next_of = { find_next };

    ghost needs_of = { find_needs };

    ghost answer_of = { find_answer };

    ghost Takes = { FindTakes };

    fn next(&self) -> Action {
        match self.stage {
            FindStage::New | FindStage::Near(_) => Action::Begin,
            FindStage::Probing(page) => Action::Probe(page),
            FindStage::Descending(descent) => descent.next(),
            FindStage::Ending(_) | FindStage::Over(_) => Action::End,
        }
    }

    fn needs(&self) -> Option<(u32, u32)> {
        None
    }

    fn answer(&self) -> Option<Answer> {
        match self.stage {
            FindStage::Over(Some(value)) => Some(Answer::Op(Reply::Found(value), None)),
            FindStage::Over(None) => Some(Answer::Op(Reply::Absent, None)),
            _ => None,
        }
    }

    #[inline(always)]
    fn took(&mut self, seen: Seen) {
        self.stage = went(self.key, self.stage, &seen);
    }
}

impl Reader for Find {
    // A search makes no page of the words, and reads only those that it needs: most of its time would go there.
    #[inline(always)]
    fn took_words<W: Words>(&mut self, source: &W, hand: &mut W::Hand) {
        let FindStage::Descending(descent) = self.stage else {
            unreachable!()
        };
        self.stage = match descent.took_words(source, hand, self.key) {
            Descended::On(next) => FindStage::Descending(next),
            Descended::Here => FindStage::Ending(row_in(source, hand, &mut 0, self.key)),
        };
    }
}
