//! An index at rest goes on with more pages.

ghost use Rattle.std.specs.Prelude.{IfOk, IfErr};
ghost use Rattle.bl_index.specs.Closed.{AreOf};
ghost use Rattle.bl_index.specs.Lives.{LivesAreOneHistory, SeenIsALife, ResizingAddsALife};
ghost use Rattle.bl_index.specs.Resized.{Resizes, IsNotResized};

use crate::config::{CloseFault, ResizeFault};
use crate::index::{Index, Pass};
use bl_check::Quiet;
use bl_model::limits::MOST_LARGE_PAGES;
use std::alloc::Global;

/// What there is in place of an index that was not resized.
#[derive(Drop)]
pub enum Unresized {
    /// The index and its passes, as they were.
    Kept(Index, Vec<Pass>, ResizeFault),
    /// There was no memory for the larger index behind the close of this one: its image, from which another one may be opened.
    Closed(Quiet),
}

/// Says that the histories of an index that was resized again and again, one behind another, are one history, legal from the map that it
/// began with at first. It does nothing when it runs.
pub fn lives_are_one_history()
    ensures one { LivesAreOneHistory }
    ensures seen { SeenIsALife }
    ensures resized { ResizingAddsALife }
{}

impl Index {
    /// The index goes on with so many pages, as many as it has or more, up to 2^28. It takes all passes, and gives as many
    /// fresh ones: what each of them sees begins anew, with the map after all that has happened so far. Where a pass is missing or
    /// the pages are not within these limits, nothing is closed.
    pub fn resize(
        self,
        alloc: Global,
        passes: Vec<Pass>,
        pages: u32,
    ) -> Result<(Index, Vec<Pass>), Unresized>
        requires own { AreOf self passes.items }
        ensures ok { IfOk result (λ t. Resizes self passes.items pages t.0 t.1.items) }
        ensures fault { IfErr result (IsNotResized self passes.items pages) }
    {
        if pages < self.tree.pages || pages > MOST_LARGE_PAGES {
            return Err(Unresized::Kept(self, passes, ResizeFault::Pages));
        }
        let count = self.tree.passes;
        match self.close(alloc, passes) {
            Ok(quiet) => match Self::open_larger(alloc, quiet, pages, count) {
                Ok(opened) => Ok(opened),
                Err((quiet, _)) => Err(Unresized::Closed(quiet)),
            },
            Err((index, passes, CloseFault::Pass)) => {
                Err(Unresized::Kept(index, passes, ResizeFault::Pass))
            }
            Err((index, passes, CloseFault::Memory)) => {
                Err(Unresized::Kept(index, passes, ResizeFault::Memory))
            }
        }
    }
}
