//! The laws. The functions do nothing when they run.

ghost use Rattle.std.specs.Prelude.{◌≡◌, ◌≢◌, ◌⊎◌, ℕ, ◌+◌, ◌<◌, ◌≤◌};
ghost use Rattle.bl_page.specs.declared.page.Page.{Page as PageSpec};
ghost use Rattle.bl_page.specs.Machine.{Name};
ghost use Rattle.bl_tree_worlds.specs.Worlds.{World, IsGood};
ghost use Rattle.bl_proc_steps.specs.declared.acts.Action.TheVariants as act;
ghost use Rattle.bl_proc_steps.specs.declared.acts.Seen.{Seen as SeenSpec};
ghost use Rattle.bl_proc_steps.specs.declared.acts.Seen.TheVariants as seen;
ghost use Rattle.bl_proc.specs.declared.kinds.Proc.{Proc as ProcSpec};
ghost use Rattle.bl_proc.specs.Processes.{next_of, Takes};
ghost use Rattle.bl_proc_invariant.specs.Turns.{IsObserved};
ghost use Rattle.bl_proc_invariant.specs.Knowing.{Run, know};
ghost use Rattle.bl_proc_ends.specs.Left.{most_turns, IsMeant, TurnsLeft};
ghost use Rattle.bl_proc_ends.specs.Budget.{puts_of, IsRaising};

/// In every good world each process has so many turns left at most, and a turn of it by which no page is put leaves fewer, unless it
/// misses a latch: then it leaves one more at most. A process that is `IsMeant` stays so.
pub fn turns_end()
    ensures few { (w : World Run) (p : Name) → IsGood know w → IsMeant (w.proc p).state
        → (turns : ℕ) × TurnsLeft w.size w.now.contents (w.proc p).state turns × (turns ≤ most_turns w.size) }
    ensures fewer { (w next : World Run) (p : Name) (what : SeenSpec) (turns : ℕ) → IsGood know w → IsGood know next → next.size ≡ w.size
        → next.now.contents ≡ w.now.contents → Takes (w.proc p).state what (next.proc p).state → IsObserved w.now w.size (next_of (w.proc p).state) what
        → ((x : ℕ) (c : PageSpec) → what ≡ seen.Done → next_of (w.proc p).state ≢ act.Put x c) → TurnsLeft w.size w.now.contents (w.proc p).state turns
        → (then : ℕ) × TurnsLeft w.size w.now.contents (next.proc p).state then × ((then < turns) ⊎ ((what ≡ seen.Missed) × (then ≤ turns + 1))) }
    ensures meant { (w next : World Run) (p : Name) (what : SeenSpec) → IsGood know w → Takes (w.proc p).state what (next.proc p).state
        → IsObserved w.now w.size (next_of (w.proc p).state) what → IsMeant (w.proc p).state → IsMeant (next.proc p).state }
{}

/// A process puts few pages: each put leaves fewer, and no turn leaves more, but for the put of the anchor of a new top level, which
/// leaves one more at most.
pub fn puts_end()
    ensures few { (p : ProcSpec) → puts_of p ≤ 26 }
    ensures fewer { (old new : ProcSpec) (what : SeenSpec) → Takes old what new
        → ((puts_of new ≤ puts_of old) × ((x : ℕ) (c : PageSpec) → what ≡ seen.Done → next_of old ≡ act.Put x c → puts_of new < puts_of old))
        ⊎ (IsRaising old × (puts_of new ≤ puts_of old + 1)) }
{}
