//! Who changes a page that it holds.

ghost use Rattle.std.specs.Prelude.{◌≡◌, ◌<◌, None};
ghost use Rattle.bl_model.specs.declared.deciding.Effect.TheVariants as effects;
ghost use Rattle.bl_model.specs.Writes.{effect_of};

use crate::posters::Poster;
use crate::writers::Writer;

/// Who changes a page that it holds and has got. There is a process that does so, of which there is no value.
pub(crate) trait Editor {
    ghost use Rattle.std.specs.Prelude.{◌≡◌, ℕ};
    ghost use Rattle.bl_proc_steps.specs.declared.acts.Seen.{Seen};
    ghost use Rattle.bl_proc_steps.specs.declared.edit.Edit.{Edit};
    ghost use Rattle.bl_proc_steps.specs.declared.edit.Edited.TheVariants as changed;
    ghost use Rattle.bl_proc_steps.specs.Edits.{edit_next, edit_needs, Changes};
    ghost use Rattle.bl_proc_steps.specs.Given.{Gives};
    ghost use Rattle.bl_proc.specs.declared.kinds.Proc.{Proc};
    ghost use Rattle.bl_proc.specs.Processes.{next_of, Takes};
    ghost use Rattle.bl_proc_deterministic.specs.Courses.{GoesOn};
    ghost use Rattle.bl_claims.specs.Trails.{Trail};
    ghost use Rattle.bl_index_events.specs.Held.{edit_held, proc_held};

    // The process that has come so far with its change.
    ghost editing: { Self → Edit → Proc };

    // The level of the page, and the key that it covers.
    ghost level_at: { Self → ℕ };

    ghost key_at: { Self → ℕ };

    ghost acts: { (j : Self) (c : Edit) → next_of (editing j c) ≡ edit_next c };

    ghost courses: { (j : Self) (c : Edit) (what : Seen) → Gives (edit_next c) (edit_needs c) what → GoesOn (editing j c) what };

    ghost goes: { (j : Self) (c d : Edit) (what : Seen) → Changes c what (changed.On d) → Takes (editing j c) what (editing j d) };

    ghost holds: { (j : Self) (c : Edit) (marks : Trail) → proc_held (editing j c) marks → edit_held (level_at j) (key_at j) c marks };
}

/// The entry of a pair in its leaf.
#[derive(Drop)]
pub(crate) struct Entering<'a, W: Writer> {
    pub(crate) writer: &'a W,
    pub(crate) value: u64,
    pub(crate) ghost enters: { effect_of (W.write_of writer.now) None ≡ effects.Enter value },
}

impl<'a, W: Writer> Editor for Entering<'a, W> {
    ghost use Rattle.std.specs.Prelude.{refl, None};
    ghost use Rattle.bl_proc_writes.specs.declared.writing.WriteStage.TheVariants as stages;
    ghost use Rattle.bl_index_events.proofs.Held.{enters_held};

    ghost editing = { λ j c. W.staged j.writer.now (stages.Editing (record { there = None; thin = None }) c) };

    ghost level_at = { λ j. 0 };

    ghost key_at = { λ j. W.key_of j.writer.now };

    ghost acts = { λ j c. (W.writes j.writer.now).acts (stages.Editing (record { there = None; thin = None }) c) tt };

    ghost courses = { λ j c what g. (W.writes j.writer.now).courses (stages.Editing (record { there = None; thin = None }) c) what tt g };

    ghost goes = { λ j c d what t. (W.writes j.writer.now).goes (stages.Editing (record { there = None; thin = None }) c)
        (stages.Editing (record { there = None; thin = None }) d) what tt tt (refl, t) };

    ghost holds = { λ j c marks held. enters_held (W.key_of j.writer.now) (W.write_of j.writer.now) j.value c marks j.enters
        ((W.writes j.writer.now).held (stages.Editing (record { there = None; thin = None }) c) marks tt held) };
}

/// The listing of a child in its parent, which is below the last level that a tree may have.
#[derive(Drop)]
pub(crate) struct Listing<'a, P: Poster> {
    pub(crate) poster: &'a P,
    pub(crate) ghost below: { P.level_of poster.now < 12 },
}

impl<'a, P: Poster> Editor for Listing<'a, P> {
    ghost use Rattle.bl_proc_writes.specs.declared.post.PostStage.TheVariants as post;

    ghost editing = { λ j c. P.staged j.poster.now (post.Editing c) j.below tt };

    ghost level_at = { λ j. P.level_of j.poster.now };

    ghost key_at = { λ j. P.key_of j.poster.now };

    ghost acts = { λ j c. (P.posts j.poster.now).acts (post.Editing c) j.below tt tt };

    ghost courses = { λ j c what g. (P.posts j.poster.now).courses (post.Editing c) j.below tt what tt g };

    ghost goes = { λ j c d what t. (P.posts j.poster.now).goes (post.Editing c) (post.Editing d) j.below j.below tt tt what tt t };

    ghost holds = { λ j c marks held. (P.posts j.poster.now).held (post.Editing c) j.below tt marks tt held };
}
