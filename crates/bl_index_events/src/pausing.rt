//! What a thread does after it missed the latch of a page.

use crossbeam_utils::Backoff;

/// How a step pauses where it has missed a latch. It waits for nothing.
pub trait Pause {
    /// A latch was had: the next miss is a first one.
    fn reset(&self);

    /// A latch was missed.
    fn pause(&self);
}

/// It spins at first, and then lets other threads run.
impl Pause for Backoff {
    fn reset(&self) {
        Backoff::reset(self);
    }

    fn pause(&self) {
        self.snooze();
    }
}
