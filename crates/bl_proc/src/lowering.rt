//! The fall of the height, as a process.

ghost use Rattle.std.specs.Prelude.{◌≡◌, None};
ghost use Rattle.bl_proc.specs.declared.lowering.LowerStage.TheVariants as lower_stage;
ghost use Rattle.bl_proc_steps.specs.Given.{Gives};
ghost use Rattle.bl_proc.specs.Lowers.{lower_next_in, lower_needs_in, lower_answer_in, LowerGoes, lower_next, lower_needs, lower_answer, LowerTakes};

use bl_proc_steps::{Action, Answer, Lowered, Lowering, Process, Reader, Sank, Seen};
use std::mem;

/// A process that takes the top level of the tree away, where that is one page with one pair.
#[derive(Drop)]
pub struct Lower {
    pub stage: LowerStage,
}

/// How far a lowering has come.
#[derive(Drop)]
pub enum LowerStage {
    /// It is to begin.
    New,
    /// It looks whether the top level is needed, and takes it away.
    Sinking(Lowering),
    /// It is to end.
    Ending(Lowered),
    /// It has ended.
    Over(Lowered),
}

/// A lowering goes on by what its last event has shown: it looks whether the top level is needed, takes it away, and ends.
fn went(stage: LowerStage, seen: Seen) -> LowerStage
    requires running { lower_answer_in stage ≡ None }
    requires given { Gives (lower_next_in stage) (lower_needs_in stage) seen }
    ensures { LowerGoes stage seen result }
{
    match stage {
        LowerStage::New => LowerStage::Sinking(Lowering::Looking),
        LowerStage::Sinking(lowering) => match lowering.took(seen) {
            Sank::On(next) => LowerStage::Sinking(next),
            Sank::Over(what) => LowerStage::Ending(what),
        },
        LowerStage::Ending(what) => LowerStage::Over(what),
        LowerStage::Over(_) => unreachable!(),
    }
}

impl Lower {
    /// A lowering that is to begin.
    pub fn new() -> Lower
        ensures { result.stage ≡ lower_stage.New }
    {
        Lower {
            stage: LowerStage::New,
        }
    }
}

impl Process for Lower {
    ghost next_of = { lower_next };

    ghost needs_of = { lower_needs };

    ghost answer_of = { lower_answer };

    ghost Takes = { LowerTakes };

    fn next(&self) -> Action {
        match &self.stage {
            LowerStage::New => Action::Begin,
            LowerStage::Sinking(lowering) => lowering.next(),
            LowerStage::Ending(_) | LowerStage::Over(_) => Action::End,
        }
    }

    fn needs(&self) -> Option<(u32, u32)> {
        match &self.stage {
            LowerStage::Sinking(lowering) => lowering.needs(),
            _ => None,
        }
    }

    fn answer(&self) -> Option<Answer> {
        match &self.stage {
            LowerStage::Over(what) => Some(Answer::Lower(*what)),
            _ => None,
        }
    }

    fn took(&mut self, seen: Seen) {
        let stage = mem::replace(&mut self.stage, LowerStage::New);
        self.stage = went(stage, seen);
    }
}

impl Reader for Lower {}
