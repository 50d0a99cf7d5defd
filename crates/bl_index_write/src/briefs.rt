//! Processes that a call may carry out without waiting: they hold pages for few events.

ghost use Rattle.std.specs.Prelude.{◌≡◌};
ghost use Rattle.bl_index_write.specs.Briefs.{is_way, post_turns, lower_turns};

use bl_index_events::Kind;
use bl_proc::{Lower, LowerStage};
use bl_proc_steps::{Growth, Lowering};
use bl_proc_writes::{Post, PostStage};

/// After how many events a process that may not wait turns back where it may.
const TRIES: u64 = 16;

/// A process that may not wait.
pub trait Brief: Kind {
    ghost use Rattle.std.specs.Prelude.{◌≡◌, ◌+◌, ◌<◌, ℕ, true, false};
    ghost use Rattle.bl_proc_steps.specs.declared.acts.Seen.{Seen};
    ghost use Rattle.bl_proc.specs.Processes.{Takes as TakesIn};
    ghost use Rattle.bl_proc_deterministic.specs.Frames.{frames_wanted};

    // It stands so after so many events.
    ghost IsNear: { Self → ℕ → Type 0 };

    // It holds no page, or one that it has not put and may open.
    ghost IsBack: { Self → Type 0 };

    /// Whether it turns back there, after so many events: where its way begins again, and where it may, after 16. It has made 24 at most then.
    fn turns_back(&self, event: u64) -> bool
        requires near { IsNear self.now event }
        ensures back { result ≡ true → IsBack self.now }
        ensures free { result ≡ true → frames_wanted (Self.Kind.proc_of self.now) ≡ 0 }
        ensures on { result ≡ false → (q : Self) (what : Seen) → TakesIn (Self.Kind.proc_of self.now) what (Self.Kind.proc_of q) → IsNear q (event + 1) }
        ensures ends { result ≡ false → event < 24 };
}

/// Its way begins again.
pub(crate) fn begins_again(stage: &PostStage) -> bool
    ensures { result ≡ is_way stage.now }
{
    matches!(stage, PostStage::Coming(_))
}

/// Its way begins again, or it is to latch the anchor.
fn may_rise_later(stage: &PostStage) -> bool
    ensures { result ≡ post_turns stage.now }
{
    match stage {
        PostStage::Coming(_) => true,
        PostStage::Growing(growth) => matches!(growth, Growth::Latching),
        _ => false,
    }
}

/// It is to look at the anchor or to latch it, or to latch the top page.
fn may_sink_later(stage: &LowerStage) -> bool
    ensures { result ≡ lower_turns stage.now }
{
    match stage {
        LowerStage::Sinking(lowering) => matches!(
            lowering,
            Lowering::Looking | Lowering::LatchingAnchor | Lowering::LatchingTop(_)
        ),
        _ => false,
    }
}

/// A post that makes a new top level.
impl Brief for Post {
    ghost use Rattle.bl_index_write.specs.Briefs.{post_left, IsPostBack, IsRising, IsSoon};

    ghost IsNear = { λ p event. IsRising p.stage × IsSoon (post_left p.stage) event };

    ghost IsBack = { λ p. IsPostBack p.stage };

    fn turns_back(&self, event: u64) -> bool {
        if begins_again(&self.stage) {
            return true;
        }
        if event < TRIES {
            return false;
        }
        may_rise_later(&self.stage)
    }
}

impl Brief for Lower {
    ghost use Rattle.bl_index_write.specs.Briefs.{lower_left, IsLowerBack, IsSoon};

    ghost IsNear = { λ p event. IsSoon (lower_left p.stage) event };

    ghost IsBack = { λ p. IsLowerBack p.stage };

    fn turns_back(&self, event: u64) -> bool {
        if event < TRIES {
            return false;
        }
        may_sink_later(&self.stage)
    }
}
