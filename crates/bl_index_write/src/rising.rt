//! The posts of an insertion.

ghost use Rattle.std.specs.Prelude.{◌<◌, ◌≤◌};

use crate::targets::Insertion;
use bl_index_descend::Target;
use bl_index_edit::Poster;
use bl_proc_routes::Step;
use bl_proc_writes::Path;

/// The post of an insertion to a level.
#[derive(Clone, Copy)]
pub(crate) struct Rising {
    pub(crate) insertion: Insertion,
    /// The level of the parent, 1 to 12.
    pub(crate) level: u32,
    /// The key that is to be listed there.
    pub(crate) separator: u64,
    pub(crate) ghost least: { 0 < level },
    pub(crate) ghost most: { level ≤ 12 },
}

impl Target for Rising {
    ghost use Rattle.std.specs.Prelude.{refl, ◌<◌};
    ghost use Rattle.std.proofs.Common.{inl};
    ghost use Rattle.bl_page.specs.Nodes.{roots_of};
    ghost use Rattle.bl_proc_writes.specs.declared.insert_post.ClimbStage.TheVariants as stages;
    ghost use Rattle.bl_proc_writes.specs.declared.post.PostStage.TheVariants as post;
    ghost use Rattle.bl_proc_writes.specs.Paths.{NotesBy};
    ghost use Rattle.bl_proc_steps.specs.declared.acts.Seen.TheVariants as seen;
    ghost use Rattle.bl_proc_steps.specs.declared.approach.Approach.TheVariants as approach;
    ghost use Rattle.bl_proc_steps.specs.declared.approach.Came.TheVariants as descend;
    ghost use Rattle.bl_proc_deterministic.proofs.Climbs.{climb_goes};
    ghost use Rattle.bl_index_edit.proofs.AtLeaf.{unnoted};
    ghost use Rattle.bl_index_write.specs.Climbing.{rises};
    ghost use Rattle.bl_index_edit.proofs.Nearing.{nears, past_held};

    type Path = Path;

    ghost at = { λ j n a. rises j n (post.Coming a) tt tt };

    ghost level_of = { λ j. j.level };

    ghost key_of = { λ j. j.separator };

    // A tree that has no such level may be to get it.
    ghost IsLedBy = { λ j c. j.level < (roots_of c).levels };

    ghost Notes = { λ j x c o n m. NotesBy x c o n m };

    #[inline(always)]
    fn level(&self) -> u32 {
        self.level
    }

    #[inline(always)]
    fn key(&self) -> u64 {
        self.separator
    }

    #[inline(always)]
    fn note(&self, path: &mut Path, page: u32, own: u32, way: Step) {
        if let Step::Down(_child) = way {
            path.note(own, page);
        }
    }

    ghost acts = { λ j n a. refl };

    ghost courses = { λ j n a what g.
        climb_goes (record {
          key = j.insertion.key;
          placing = j.insertion.placing;
          path = n;
          stage = stages.Posting (record {
            level = j.level;
            key = j.separator;
            stage = post.Coming a;
            least = j.least;
            most = j.most;
            below = tt;
          });
          stands = tt;
        }) what refl g };

    ghost enters = { λ j n a c led t. (refl, refl, refl, inl ((refl, refl, (descend.On a, (led, t), refl)), tt)) };

    ghost turns = { λ j n m x c o a leads turns noted.
        (refl, refl, (o, leads, noted), inl ((refl, refl, nears j.level j.separator (approach.At x) a (seen.Words c) tt (o, leads, turns)), tt)) };

    ghost goes = { λ j n a b what hold t.
        (refl, refl, unnoted j.level j.separator a what n hold, inl ((refl, refl, nears j.level j.separator a b what (past_held a hold) t), tt)) };
}

/// The same, at the parent.
#[derive(Drop)]
pub(crate) struct Riser<'a> {
    pub(crate) rising: &'a Rising,
    pub(crate) path: &'a Path,
}

impl<'a> Poster for Riser<'a> {
    ghost use Rattle.bl_index_edit.proofs.AtParent.{posts_rising};
    ghost use Rattle.bl_index_write.specs.Climbing.{rises, rose};

    ghost level_of = { λ p. p.rising.now.level };

    ghost key_of = { λ p. p.rising.now.separator };

    ghost staged = { λ p. rises p.rising.now p.path.now };

    ghost opened = { λ p. rose p.rising.now p.path.now };

    #[inline(always)]
    fn level(&self) -> u32 {
        self.rising.level
    }

    #[inline(always)]
    fn key(&self) -> u64 {
        self.rising.separator
    }

    ghost posts = { λ p. posts_rising p.rising.now.insertion.key p.rising.now.insertion.placing p.rising.now.level p.rising.now.separator
        p.rising.now.least p.rising.now.most p.path.now };
}
