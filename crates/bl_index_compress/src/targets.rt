//! What a compression comes to a parent for.

ghost use Rattle.std.specs.Prelude.{◌<◌, ◌≤◌};

use bl_index_descend::{Target, Unborn};
use bl_proc_compress::Siblings;
use bl_proc_routes::Step;

/// The compression of two children of a parent, by a key that it covers.
#[derive(Clone, Copy)]
pub(crate) struct CompressTarget {
    /// The level of the parent, 1 to 12.
    pub(crate) level: u32,
    pub(crate) key: u64,
    /// Whether it holds the parent, and tries again, where it misses the latch of a child. One that does not opens what it holds.
    pub(crate) waits: bool,
    pub(crate) ghost least: { 0 < level },
    pub(crate) ghost most: { level ≤ 12 },
}

/// Two children of a parent that stand side by side.
#[derive(Clone, Copy)]
pub(crate) struct Kin {
    pub(crate) at: Siblings,
    /// The key by which the parent lists the right one.
    pub(crate) key: u64,
}

impl Target for CompressTarget {
    ghost use Rattle.std.specs.Prelude.{refl, ◌<◌};
    ghost use Rattle.bl_page.specs.Nodes.{roots_of};
    ghost use Rattle.bl_proc.specs.declared.kinds.Proc.TheVariants as proc;
    ghost use Rattle.bl_proc_compress.specs.declared.compress.CompressStage.TheVariants as stages;
    ghost use Rattle.bl_proc_steps.specs.declared.approach.Came.TheVariants as descend;
    ghost use Rattle.bl_proc_deterministic.proofs.Compressions.{compress_goes};
    ghost use Rattle.bl_index_compress.specs.Ways.{nears};

    type Path = ();

    ghost at = { λ j n a. proc.Compress (record { level = j.level; key = j.key; waits = j.waits; stage = stages.Coming a; least = j.least; most = j.most }) };

    ghost level_of = { λ j. j.level };

    ghost key_of = { λ j. j.key };

    // In a tree that has no such level it ends.
    ghost IsLedBy = { λ j c. j.level < (roots_of c).levels };

    ghost Notes = { λ j x c o n m. Unit {0} };

    #[inline(always)]
    fn level(&self) -> u32 {
        self.level
    }

    #[inline(always)]
    fn key(&self) -> u64 {
        self.key
    }

    #[inline(always)]
    fn note(&self, _path: &mut (), _page: u32, _own: u32, _way: Step) {}

    ghost acts = { λ j n a. refl };

    ghost courses = { λ j n a what g.
        compress_goes (record { level = j.level; key = j.key; waits = j.waits; stage = stages.Coming a; least = j.least; most = j.most }) what refl g };

    ghost enters = { λ j n a c led t. (refl, refl, refl, (descend.On a, (led, t), refl)) };

    ghost turns = { λ j n m x c o a leads turns noted. (refl, refl, refl, (descend.On a, (tt, (o, leads, turns)), refl)) };

    ghost goes = { λ j n a b what hold t. (refl, refl, refl, nears j.level j.key j.waits a b what hold t) };
}

impl Unborn for CompressTarget {
    ghost use Rattle.std.specs.Prelude.{refl};
    ghost use Rattle.bl_proc.specs.declared.kinds.Proc.TheVariants as proc;
    ghost use Rattle.bl_proc_compress.specs.declared.compress.CompressStage.TheVariants as stages;
    ghost use Rattle.bl_proc_steps.specs.declared.acts.Seen.TheVariants as seen;
    ghost use Rattle.bl_proc_steps.specs.declared.approach.Approach.TheVariants as approach;
    ghost use Rattle.bl_proc_deterministic.proofs.Compressions.{compress_goes};

    ghost unborn = { λ j. proc.Compress (record { level = j.level; key = j.key; waits = j.waits; stage = stages.New; least = j.least; most = j.most }) };

    ghost begun = { λ j.
        proc.Compress (record { level = j.level; key = j.key; waits = j.waits; stage = stages.Coming approach.Start; least = j.least; most = j.most }) };

    ghost begins = { λ j. refl };

    ghost starts = { λ j.
        compress_goes (record { level = j.level; key = j.key; waits = j.waits; stage = stages.New; least = j.least; most = j.most }) seen.Done refl tt };

    ghost started = { λ j. (refl, refl, refl, refl) };
}
