//! The law. The function does nothing when it runs.

ghost use Rattle.std.specs.Prelude.{◌≡◌, ℕ};
ghost use Rattle.bl_page.specs.Machine.{Name};
ghost use Rattle.bl_page.specs.Machine.Owner.{Held};
ghost use Rattle.bl_store_rule.specs.Pages.{Pages};
ghost use Rattle.bl_index_rule.specs.declared.known.PassState.{PassState};
ghost use Rattle.bl_index_rule.specs.Simulation.{IsRun, Simulates};
ghost use Rattle.bl_proc_progress.specs.Waits.{Ends};

/// Between any two atomic steps of all threads: each wait of a call for a latch ends at a call that waits for nobody; and whoever
/// holds a page is a call that has begun and not ended. So where no call runs, no page is held.
pub fn waits_end()
    ensures ends { (s : Pages PassState) (rule : Simulates s) (p : Name) → Ends rule.world p }
    ensures inside { (s : Pages PassState) (rule : Simulates s) (p : Name) (x : ℕ) → rule.world.now.owner x ≡ Held p
        → (since : ℕ) × IsRun s.hands p since }
{}
