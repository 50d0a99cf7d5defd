//! The laws. The functions do nothing when they run.

ghost use Rattle.std.specs.Prelude.{◌≡◌, ◌≢◌, ℕ, ◌<◌};
ghost use Rattle.bl_page.specs.declared.page.Page.{Page as PageSpec};
ghost use Rattle.bl_page.specs.Machine.{Name, IsUnderway};
ghost use Rattle.bl_page.specs.Machine.Owner.{Held};
ghost use Rattle.bl_tree_worlds.specs.Worlds.{World, IsGood};
ghost use Rattle.bl_proc_steps.specs.declared.acts.Action.TheVariants as act;
ghost use Rattle.bl_proc_steps.specs.declared.acts.Seen.{Seen as SeenSpec};
ghost use Rattle.bl_rearrange.specs.declared.families.Family.{Family as FamilySpec};
ghost use Rattle.bl_rearrange.specs.declared.families.Siblings.{Siblings as SiblingsSpec};
ghost use Rattle.bl_proc_compress.specs.declared.compression.Decision.TheVariants.{Lost};
ghost use Rattle.bl_proc_compress.specs.declared.compression.Compression.TheVariants.{LatchedRight, OpeningRight};
ghost use Rattle.bl_proc_compress.specs.declared.compress.Compress.{Compress as CompressSpec};
ghost use Rattle.bl_proc_compress.specs.declared.compress.CompressStage.TheVariants.{Compressing};
ghost use Rattle.bl_proc_compress.specs.Compressions.{Decides};
ghost use Rattle.bl_proc.specs.declared.kinds.Proc.{Proc as ProcSpec};
ghost use Rattle.bl_proc.specs.declared.kinds.Proc.TheVariants as proc;
ghost use Rattle.bl_proc.specs.Processes.{next_of, Takes};
ghost use Rattle.bl_proc_invariant.specs.Knowing.{Run, know};
ghost use Rattle.bl_proc_progress.specs.Order.{StandsBelow};
ghost use Rattle.bl_proc_progress.specs.Waits.{Ends};
ghost use Rattle.bl_proc_progress.specs.Holds.{hold_of, Nears};

/// Whoever holds a page, and is to latch another one, latches one that stands below it. So no processes wait for one another in
/// a circle: each wait ends at a process that waits for nobody.
pub fn no_circle()
    ensures order { (w : World Run) (p : Name) (x y : ℕ) → IsGood know w → next_of (w.proc p).state ≡ act.Latch x → w.now.owner y ≡ Held p
        → StandsBelow w.now x y }
    ensures ends { (w : World Run) (p : Name) → IsGood know w → Ends w p }
{}

/// A process holds pages only while it runs, and where turns are left until it holds none. Each of its turns leaves fewer of them, but for a missed
/// latch of a child and a get by which a post walks on.
pub fn holds_end()
    ensures none { (w : World Run) (p : Name) (x : ℕ) → IsGood know w → hold_of (w.proc p).state ≡ 0 → w.now.owner x ≢ Held p }
    ensures runs { (w : World Run) (p : Name) (x : ℕ) → IsGood know w → w.now.owner x ≡ Held p → IsUnderway w.now p }
    ensures nears { (old new : ProcSpec) (what : SeenSpec) → Takes old what new → 0 < hold_of old → Nears (hold_of old) what (hold_of new) }
{}

/// A compression that has got both children has something to do with them: it never begins again for what it got.
pub fn never_lost()
    ensures { (w : World Run) (p : Name) (a : CompressSpec) (f : FamilySpec) (c : PageSpec) (at : SiblingsSpec) → IsGood know w
        → (w.proc p).state ≡ proc.Compress a → a.stage ≡ Compressing (LatchedRight f c)
        → ¬ Decides f c (w.now.contents f.at.right) (OpeningRight at Lost) }
{}
