//! Why a script was broken off.

ghost use Rattle.std.specs.Prelude.{◌≡◌};
ghost use Rattle.bl_replay.specs.declared.fault.ReplayFault.TheVariants.{Memory};

use std::alloc::AllocError;

/// Why a script was broken off.
#[derive(Clone, Copy, Debug, PartialEq, Eq, thiserror::Error)]
pub enum ReplayFault {
    /// The writer failed.
    #[error("write failed")]
    Write,
    /// The world or the buffer of the output couldn't grow.
    #[error("out of memory")]
    Memory,
}

impl From<AllocError> for ReplayFault {
    ghost from_gives = { λ _ fault. fault ≡ Memory };

    fn from(_error: AllocError) -> ReplayFault {
        ReplayFault::Memory
    }
}
