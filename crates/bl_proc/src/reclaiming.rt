//! The release of a page that was retired.

ghost use Rattle.std.specs.Prelude.{◌≡◌, None};
ghost use Rattle.bl_proc.specs.declared.reclaiming.ReclaimStage.TheVariants as reclaim_stage;
ghost use Rattle.bl_proc_steps.specs.Given.{Gives};
ghost use Rattle.bl_proc.specs.Reclaims.{reclaim_next_in, reclaim_answer_in, GoesPast, ReclaimGoes, reclaim_next, reclaim_needs, reclaim_answer, ReclaimTakes};

use bl_proc_steps::{Action, Answer, Process, Reclaimed, Seen};

/// A process that releases a page, if that is retired and no process may still read it.
#[derive(Clone, Copy)]
pub struct Reclaim {
    /// The page that it is to release.
    pub page: u32,
    pub stage: ReclaimStage,
}

/// How far a release has come.
#[derive(Clone, Copy)]
pub enum ReclaimStage {
    /// It is to look at the page's owner.
    Seeing,
    /// It is to look at a process.
    Looking(Round),
    /// It is to release the page.
    Releasing,
    /// It is done.
    Over(Reclaimed),
}

/// One look at each other process.
#[derive(Clone, Copy)]
pub struct Round {
    /// The process that is looked at next.
    pub next: usize,
    /// How many processes had been started when the page was seen retired.
    pub started: usize,
    /// The process itself, at which it does not look.
    pub own: usize,
}

/// On to the process behind the one that was looked at last.
fn gone_past(last: usize, started: usize, own: usize) -> ReclaimStage
    ensures { GoesPast last started own result }
{
    if last >= started {
        return ReclaimStage::Releasing;
    }
    let next = last + 1;
    if next != own {
        return ReclaimStage::Looking(Round { next, started, own });
    }
    if next >= started {
        return ReclaimStage::Releasing;
    }
    ReclaimStage::Looking(Round {
        next: next + 1,
        started,
        own,
    })
}

/// A release goes on by what its last event has shown: it sees that the page is retired, looks at each process in turn, and releases the
/// page or keeps it.
fn went(page: u32, stage: ReclaimStage, seen: &Seen) -> ReclaimStage
    requires running { reclaim_answer_in stage ≡ None }
    requires given { Gives (reclaim_next_in page stage) None seen.now }
    ensures { ReclaimGoes stage seen.now result }
{
    match (stage, seen) {
        (
            ReclaimStage::Seeing,
            Seen::Owner {
                retired,
                started,
                own,
            },
        ) => {
            if *retired {
                gone_past(0, *started, *own)
            } else {
                ReclaimStage::Over(Reclaimed::Kept)
            }
        }
        (ReclaimStage::Looking(round), Seen::Blocks(blocks)) => {
            if *blocks {
                ReclaimStage::Over(Reclaimed::Kept)
            } else {
                gone_past(round.next, round.started, round.own)
            }
        }
        (ReclaimStage::Releasing, Seen::Done) => ReclaimStage::Over(Reclaimed::Released),
        (ReclaimStage::Releasing, Seen::Missed) => ReclaimStage::Over(Reclaimed::Kept),
        _ => unreachable!(),
    }
}

impl Reclaim {
    /// A release that is to look at the page's owner.
    pub fn new(page: u32) -> Reclaim
        ensures page { result.page ≡ page }
        ensures stage { result.stage ≡ reclaim_stage.Seeing }
    {
        Reclaim {
            page,
            stage: ReclaimStage::Seeing,
        }
    }
}

impl Process for Reclaim {
    ghost next_of = { reclaim_next };

    ghost needs_of = { reclaim_needs };

    ghost answer_of = { reclaim_answer };

    ghost Takes = { ReclaimTakes };

    fn next(&self) -> Action {
        match self.stage {
            ReclaimStage::Seeing => Action::See(self.page),
            ReclaimStage::Looking(round) => Action::Look(round.next),
            ReclaimStage::Releasing | ReclaimStage::Over(_) => Action::Release(self.page),
        }
    }

    fn needs(&self) -> Option<(u32, u32)> {
        None
    }

    fn answer(&self) -> Option<Answer> {
        match self.stage {
            ReclaimStage::Over(what) => Some(Answer::Reclaim(what)),
            _ => None,
        }
    }

    fn took(&mut self, seen: Seen) {
        self.stage = went(self.page, self.stage, &seen);
    }
}
