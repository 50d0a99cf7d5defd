//! The law. The function does nothing when it runs.

ghost use Rattle.std.specs.Prelude.{◌≡◌, ◌≢◌, ◌⊎◌, ℕ, ◌+◌, ◌<◌, ◌≤◌};
ghost use Rattle.bl_page.specs.declared.page.Page.{Page as PageSpec};
ghost use Rattle.bl_page.specs.Machine.{Name};
ghost use Rattle.bl_tree.specs.Trees.Status.{Gone};
ghost use Rattle.bl_tree_worlds.specs.Worlds.{World, IsGood};
ghost use Rattle.bl_proc_steps.specs.declared.acts.Action.TheVariants as act;
ghost use Rattle.bl_proc_steps.specs.declared.acts.Seen.{Seen as SeenSpec};
ghost use Rattle.bl_proc_steps.specs.declared.acts.Seen.TheVariants as seen;
ghost use Rattle.bl_proc.specs.declared.kinds.Proc.{Proc as ProcSpec};
ghost use Rattle.bl_proc.specs.Processes.{next_of, Takes};
ghost use Rattle.bl_proc_invariant.specs.Turns.{IsObserved};
ghost use Rattle.bl_proc_invariant.specs.Logs.{AllLogs};
ghost use Rattle.bl_proc_invariant.specs.Knowing.{Run, know};
ghost use Rattle.bl_proc_ends.specs.Left.{IsMeant};
ghost use Rattle.bl_proc_ends.specs.Budget.{puts_of, room_above};
ghost use Rattle.bl_proc_rest.specs.Rests.{patient, IsCounted, SeesStarted, most_left, Rests};

/// In every good world each process, of whatever kind and in whatever state, has so many turns left at most. A turn of it by which no
/// page is put, and that misses no latch but that of a dead page, leaves fewer. A put leaves fewer puts and levels to come, of all
/// processes together, and no other turn leaves more.
pub fn rest_nears()
    ensures few { (w : World Run) (p : Name) (count : ℕ) → IsGood know w → IsCounted count (w.proc p).state
        → (turns : ℕ) × Rests w.size w.now.contents count (w.proc p).state turns × (turns ≤ most_left w.size count) }
    ensures falls { (w next : World Run) (p : Name) (what : SeenSpec) (count turns : ℕ) → IsGood know w → IsGood know next → AllLogs w → next.size ≡ w.size
        → next.now.contents ≡ w.now.contents → Takes (w.proc p).state what (next.proc p).state → IsObserved w.now w.size (next_of (w.proc p).state) what
        → ((x : ℕ) (c : PageSpec) → what ≡ seen.Done → next_of (w.proc p).state ≢ act.Put x c) → SeesStarted count what
        → ((what ≢ seen.Missed) ⊎ ((what ≡ seen.Missed) × (IsMeant (patient (w.proc p).state) → (x : ℕ) × (next_of (w.proc p).state ≡ act.Latch x) × (w.status x ≡ Gone))))
        → Rests w.size w.now.contents count (w.proc p).state turns → (then : ℕ) × Rests w.size w.now.contents count (next.proc p).state then × (then < turns) }
    ensures puts { (w next : World Run) (p : Name) (x : ℕ) (c : PageSpec) → IsGood know w → next_of (w.proc p).state ≡ act.Put x c
        → Takes (w.proc p).state seen.Done (next.proc p).state → next.now.contents x ≡ c → (x ≢ 0 → next.now.contents 0 ≡ w.now.contents 0)
        → puts_of (next.proc p).state + room_above next.now.contents < puts_of (w.proc p).state + room_above w.now.contents }
    ensures kept { (old new : ProcSpec) (what : SeenSpec) → Takes old what new → ((x : ℕ) (c : PageSpec) → what ≡ seen.Done → next_of old ≢ act.Put x c)
        → puts_of new ≤ puts_of old }
{}
