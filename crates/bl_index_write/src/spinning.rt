//! A thread that spins where it has missed a latch.

use bl_index_events::Pause;
use crossbeam_utils::Backoff;

/// It spins, and lets no other thread run: a static library may not.
#[derive(Drop)]
pub struct Spinning {
    backoff: Backoff,
}

impl Spinning {
    /// It has missed no latch.
    pub fn new() -> Spinning {
        Spinning {
            backoff: Backoff::new(),
        }
    }
}

impl Pause for Spinning {
    fn reset(&self) {
        self.backoff.reset();
    }

    fn pause(&self) {
        self.backoff.spin();
    }
}
