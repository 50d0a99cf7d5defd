//! What writers come to pages for.

use bl_proc_routes::Step;

/// What a writer comes to a page for: a leaf to write, a parent to list a child in, or a parent to compress below. A value has the numbers
/// alone. For which process it stands is said by ghost members, and those from `acts` to `goes` are what is proved of that process, so that
/// `descend` may carry it out.
pub trait Target {
    ghost use Rattle.std.specs.Prelude.{◌≡◌, ℕ, None};
    ghost use Rattle.bl_page.specs.Nodes.{node_of};
    ghost use Rattle.bl_proc_steps.specs.declared.acts.Seen.{Seen};
    ghost use Rattle.bl_proc_steps.specs.declared.acts.Seen.TheVariants as seen;
    ghost use Rattle.bl_proc_steps.specs.declared.approach.Approach.{Approach};
    ghost use Rattle.bl_proc_steps.specs.declared.approach.Approach.TheVariants as way;
    ghost use Rattle.bl_proc_steps.specs.declared.approach.Approached.TheVariants as came;
    ghost use Rattle.bl_proc_routes.specs.declared.routes.Step.{Step as StepIs};
    ghost use Rattle.bl_page.specs.declared.page.Page.{Page};
    ghost use Rattle.bl_proc_steps.specs.Approaches.{approach_next, Approaches, Turns};
    ghost use Rattle.bl_proc_steps.specs.Given.{Gives};
    ghost use Rattle.bl_proc_routes.specs.Routes.{Leads};
    ghost use Rattle.bl_proc.specs.declared.kinds.Proc.{Proc};
    ghost use Rattle.bl_proc.specs.Processes.{next_of, Takes};
    ghost use Rattle.bl_proc_deterministic.specs.Courses.{GoesOn};
    ghost use Rattle.bl_index_descend.specs.Ways.{IsToHold};

    /// The pages that are noted on its way.
    type Path;

    // The process as it is when it has noted these pages and come so far.
    ghost at: { Self → Self.Path → Approach → Proc };

    // The level of the page, and the key that it is to cover.
    ghost level_of: { Self → ℕ };

    ghost key_of: { Self → ℕ };

    // Whether the anchor, which is such a page, leads it on.
    ghost IsLedBy: { Self → Page → Type 0 };

    // What is noted of a page with that number, which was got without a latch and leads it so.
    ghost Notes: { Self → ℕ → Page → StepIs → Self.Path → Self.Path → Type 0 };

    /// The level of the page that it comes to.
    fn level(&self) -> u32
        ensures { result ≡ level_of self.now };

    /// The key that the page is to cover.
    fn key(&self) -> u64
        ensures { result ≡ key_of self.now };

    /// Notes the page, of the level `own`, where the way goes down from it.
    fn note(&self, path: &mut Self::Path, page: u32, own: u32, way: Step)
        requires { (c : Page) × Leads c (key_of self.now) (level_of self.now) way × (own ≡ (node_of c).shape.level) }
        ensures { (c : Page) → own ≡ (node_of c).shape.level → Notes self.now page c way path.old path.new };

    ghost acts: { (j : Self) (n : Self.Path) (a : Approach) → next_of (at j n a) ≡ approach_next a };

    ghost courses: { (j : Self) (n : Self.Path) (a : Approach) (what : Seen) → Gives (approach_next a) None what → GoesOn (at j n a) what };

    ghost enters: { (j : Self) (n : Self.Path) (a : Approach) (c : Page) → IsLedBy j c
        → Approaches (level_of j) (key_of j) way.Start (seen.Words c) (came.On a) → Takes (at j n way.Start) (seen.Words c) (at j n a) };

    ghost turns: { (j : Self) (n m : Self.Path) (x : ℕ) (c : Page) (o : StepIs) (a : Approach) → Leads c (key_of j) (level_of j) o
        → Turns (level_of j) x c o a → Notes j x c o n m → Takes (at j n (way.At x)) (seen.Words c) (at j m a) };

    ghost goes: { (j : Self) (n : Self.Path) (a b : Approach) (what : Seen) → IsToHold a
        → Approaches (level_of j) (key_of j) a what (came.On b) → Takes (at j n a) what (at j n b) };
}

/// What a process begins for, of which there is no value.
pub trait Unborn {
    ghost use Rattle.std.specs.Prelude.{◌≡◌};
    ghost use Rattle.bl_proc_steps.specs.declared.acts.Action.TheVariants as act;
    ghost use Rattle.bl_proc_steps.specs.declared.acts.Seen.TheVariants as seen;
    ghost use Rattle.bl_proc.specs.declared.kinds.Proc.{Proc};
    ghost use Rattle.bl_proc.specs.Processes.{next_of, Takes};
    ghost use Rattle.bl_proc_deterministic.specs.Courses.{GoesOn};

    // The process that is to begin, and what it is when it has begun.
    ghost unborn: { Self → Proc };

    ghost begun: { Self → Proc };

    ghost begins: { (j : Self) → next_of (unborn j) ≡ act.Begin };

    ghost starts: { (j : Self) → GoesOn (unborn j) seen.Done };

    ghost started: { (j : Self) → Takes (unborn j) seen.Done (begun j) };
}
