//! What a write, a post and an insertion come to pages for.

ghost use Rattle.std.specs.Prelude.{◌<◌, ◌≤◌};

use bl_index_descend::{Target, Unborn};
use bl_index_edit::{Poster, Writer};
use bl_model::KeyWrite;
use bl_proc_routes::Step;
use bl_proc_writes::{Path, Placing};

/// The write of a key.
#[derive(Clone, Copy)]
pub(crate) struct Writing {
    pub(crate) key: u64,
    pub(crate) write: KeyWrite,
}

impl Target for Writing {
    ghost use Rattle.std.specs.Prelude.{refl};
    ghost use Rattle.bl_proc_writes.specs.declared.writing.WriteStage.TheVariants as stages;
    ghost use Rattle.bl_proc_deterministic.proofs.Writings.{write_goes};
    ghost use Rattle.bl_index_write.specs.Events.{writing};

    type Path = ();

    ghost at = { λ j n a. writing j.key j.write (stages.Coming a) };

    ghost level_of = { λ j. 0 };

    ghost key_of = { λ j. j.key };

    ghost IsLedBy = { λ j c. Unit {0} };

    ghost Notes = { λ j x c o n m. Unit {0} };

    #[inline(always)]
    fn level(&self) -> u32 {
        0
    }

    #[inline(always)]
    fn key(&self) -> u64 {
        self.key
    }

    #[inline(always)]
    fn note(&self, _path: &mut (), _page: u32, _own: u32, _way: Step) {}

    ghost acts = { λ j n a. refl };

    ghost courses = { λ j n a what g. write_goes (record { key = j.key; write = j.write; stage = stages.Coming a }) what refl g };

    ghost enters = { λ j n a c led t. (refl, refl, t) };

    ghost turns = { λ j n m x c o a leads turns noted. (refl, refl, (o, leads, turns)) };

    ghost goes = { λ j n a b what hold t. (refl, refl, t) };
}

impl Unborn for Writing {
    ghost use Rattle.std.specs.Prelude.{refl};
    ghost use Rattle.bl_proc_writes.specs.declared.writing.WriteStage.TheVariants as stages;
    ghost use Rattle.bl_proc_steps.specs.declared.acts.Seen.TheVariants as seen;
    ghost use Rattle.bl_proc_steps.specs.declared.approach.Approach.TheVariants as approach;
    ghost use Rattle.bl_proc_deterministic.proofs.Writings.{write_goes};
    ghost use Rattle.bl_index_write.specs.Events.{writing};

    ghost unborn = { λ j. writing j.key j.write stages.New };

    ghost begun = { λ j. writing j.key j.write (stages.Coming approach.Start) };

    ghost begins = { λ j. refl };

    ghost starts = { λ j. write_goes (record { key = j.key; write = j.write; stage = stages.New }) seen.Done refl tt };

    ghost started = { λ j. (refl, refl, refl) };
}

/// The post of a key to a level.
#[derive(Clone, Copy)]
pub(crate) struct Posting {
    /// The level of the parent, 1 to 12.
    pub(crate) level: u32,
    pub(crate) key: u64,
    pub(crate) ghost least: { 0 < level },
    pub(crate) ghost most: { level ≤ 12 },
}

impl Target for Posting {
    ghost use Rattle.std.specs.Prelude.{refl, ◌<◌};
    ghost use Rattle.bl_page.specs.Nodes.{roots_of};
    ghost use Rattle.bl_proc.specs.declared.kinds.Proc.TheVariants as proc;
    ghost use Rattle.bl_proc_writes.specs.declared.post.PostStage.TheVariants as post;
    ghost use Rattle.bl_proc_steps.specs.declared.acts.Seen.TheVariants as seen;
    ghost use Rattle.bl_proc_steps.specs.declared.approach.Approach.TheVariants as approach;
    ghost use Rattle.bl_proc_steps.specs.declared.approach.Came.TheVariants as descend;
    ghost use Rattle.bl_proc_deterministic.proofs.Posts.{post_goes};
    ghost use Rattle.bl_index_edit.proofs.Nearing.{nears, past_held};

    type Path = ();

    ghost at = { λ j n a. proc.Post (record { level = j.level; key = j.key; stage = post.Coming a; least = j.least; most = j.most; below = tt }) };

    ghost level_of = { λ j. j.level };

    ghost key_of = { λ j. j.key };

    // A tree that has no such level may be to get it.
    ghost IsLedBy = { λ j c. j.level < (roots_of c).levels };

    ghost Notes = { λ j x c o n m. Unit {0} };

    #[inline(always)]
    fn level(&self) -> u32 {
        self.level
    }

    #[inline(always)]
    fn key(&self) -> u64 {
        self.key
    }

    #[inline(always)]
    fn note(&self, _path: &mut (), _page: u32, _own: u32, _way: Step) {}

    ghost acts = { λ j n a. refl };

    ghost courses = { λ j n a what g.
        post_goes (record { level = j.level; key = j.key; stage = post.Coming a; least = j.least; most = j.most; below = tt }) what refl g };

    ghost enters = { λ j n a c led t. (refl, refl, (descend.On a, (led, t), refl)) };

    ghost turns = { λ j n m x c o a leads turns noted.
        (refl, refl, nears j.level j.key (approach.At x) a (seen.Words c) tt (o, leads, turns)) };

    ghost goes = { λ j n a b what hold t. (refl, refl, nears j.level j.key a b what (past_held a hold) t) };
}

impl Unborn for Posting {
    ghost use Rattle.std.specs.Prelude.{refl};
    ghost use Rattle.bl_proc.specs.declared.kinds.Proc.TheVariants as proc;
    ghost use Rattle.bl_proc_writes.specs.declared.post.PostStage.TheVariants as post;
    ghost use Rattle.bl_proc_steps.specs.declared.acts.Seen.TheVariants as seen;
    ghost use Rattle.bl_proc_steps.specs.declared.approach.Approach.TheVariants as approach;
    ghost use Rattle.bl_proc_deterministic.proofs.Posts.{post_goes};

    ghost unborn = { λ j. proc.Post (record { level = j.level; key = j.key; stage = post.New; least = j.least; most = j.most; below = tt }) };

    ghost begun = { λ j.
        proc.Post (record { level = j.level; key = j.key; stage = post.Coming approach.Start; least = j.least; most = j.most; below = tt }) };

    ghost begins = { λ j. refl };

    ghost starts = { λ j.
        post_goes (record { level = j.level; key = j.key; stage = post.New; least = j.least; most = j.most; below = tt }) seen.Done refl tt };

    ghost started = { λ j. (refl, refl, refl) };
}

impl Writer for Writing {
    ghost use Rattle.bl_proc_writes.specs.declared.writing.WriteStage.TheVariants as stages;
    ghost use Rattle.bl_index_write.specs.Events.{writing};
    ghost use Rattle.bl_index_edit.specs.Writers.{left_reply};
    ghost use Rattle.bl_index_edit.proofs.AtLeaf.{writes_alone};

    ghost key_of = { λ w. w.key };

    ghost write_of = { λ w. w.write };

    ghost staged = { λ w stage. writing w.key w.write stage };

    ghost opened = { λ w left. writing w.key w.write (stages.Ending (left_reply left)) };

    #[inline(always)]
    fn key(&self) -> u64 {
        self.key
    }

    #[inline(always)]
    fn write(&self) -> KeyWrite {
        self.write
    }

    ghost writes = { λ w. writes_alone w.key w.write };
}

impl Poster for Posting {
    ghost use Rattle.bl_index_edit.specs.Posters.{alone, alone_opened};
    ghost use Rattle.bl_index_edit.proofs.AtParent.{posts_alone};

    ghost level_of = { λ p. p.level };

    ghost key_of = { λ p. p.key };

    ghost staged = { λ p. alone p.level p.key p.least p.most };

    ghost opened = { λ p. alone_opened p.level p.key p.least p.most };

    #[inline(always)]
    fn level(&self) -> u32 {
        self.level
    }

    #[inline(always)]
    fn key(&self) -> u64 {
        self.key
    }

    ghost posts = { λ p. posts_alone p.level p.key p.least p.most };
}

/// The insertion or the put of a key, which notes its way and posts what it splits.
#[derive(Clone, Copy)]
pub(crate) struct Insertion {
    pub(crate) key: u64,
    pub(crate) placing: Placing,
}

impl Target for Insertion {
    ghost use Rattle.std.specs.Prelude.{refl};
    ghost use Rattle.bl_proc_writes.specs.declared.insert_post.ClimbStage.TheVariants as stages;
    ghost use Rattle.bl_proc_writes.specs.declared.writing.WriteStage.TheVariants as write;
    ghost use Rattle.bl_proc_writes.specs.Paths.{NotesBy};
    ghost use Rattle.bl_proc_writes.specs.Placings.{write_of};
    ghost use Rattle.bl_proc_deterministic.proofs.Climbs.{climb_goes};
    ghost use Rattle.bl_index_edit.specs.Insertions.{climb_coming};
    ghost use Rattle.bl_index_edit.proofs.AtLeaf.{unnoted};

    type Path = Path;

    ghost at = { λ j n a. climb_coming j.key j.placing n a };

    ghost level_of = { λ j. 0 };

    ghost key_of = { λ j. j.key };

    ghost IsLedBy = { λ j c. Unit {0} };

    ghost Notes = { λ j x c o n m. NotesBy x c o n m };

    #[inline(always)]
    fn level(&self) -> u32 {
        0
    }

    #[inline(always)]
    fn key(&self) -> u64 {
        self.key
    }

    #[inline(always)]
    fn note(&self, path: &mut Path, page: u32, own: u32, way: Step) {
        if let Step::Down(_child) = way {
            path.note(own, page);
        }
    }

    ghost acts = { λ j n a. refl };

    ghost courses = { λ j n a what g.
        climb_goes (record {
          key = j.key;
          placing = j.placing;
          path = n;
          stage = stages.Writing (record { key = j.key; write = write_of j.placing; stage = write.Coming a });
          stands = (refl, refl, tt, tt);
        }) what refl g };

    ghost enters = { λ j n a c led t. (refl, refl, refl, ((refl, refl, t), tt)) };

    ghost turns = { λ j n m x c o a leads turns noted. (refl, refl, (o, leads, noted), ((refl, refl, (o, leads, turns)), tt)) };

    ghost goes = { λ j n a b what hold t. (refl, refl, unnoted 0 j.key a what n hold, ((refl, refl, t), tt)) };
}

// It begins with no page noted.
impl Unborn for Insertion {
    ghost use Rattle.std.specs.Prelude.{refl};
    ghost use Rattle.bl_proc_steps.specs.declared.approach.Approach.TheVariants as approach;
    ghost use Rattle.bl_proc_writes.specs.Paths.{blank};
    ghost use Rattle.bl_proc_writes.proofs.Blank.{is_blank};
    ghost use Rattle.bl_index_edit.specs.Insertions.{climb_unborn, climb_coming};
    ghost use Rattle.bl_index_edit.proofs.AtLeaf.{unborn_goes, unborn_starts};

    ghost unborn = { λ j. climb_unborn j.key j.placing blank is_blank };

    ghost begun = { λ j. climb_coming j.key j.placing blank approach.Start };

    ghost begins = { λ j. refl };

    ghost starts = { λ j. unborn_goes j.key j.placing blank is_blank };

    ghost started = { λ j. unborn_starts j.key j.placing blank is_blank };
}

/// An insertion at its leaf, with the path that it has noted.
#[derive(Drop)]
pub(crate) struct AtLeaf<'a> {
    pub(crate) insertion: &'a Insertion,
    pub(crate) path: &'a Path,
}

impl<'a> Writer for AtLeaf<'a> {
    ghost use Rattle.bl_proc_writes.specs.Placings.{write_of as placed};
    ghost use Rattle.bl_index_edit.specs.Insertions.{climb_staged, climb_opened};
    ghost use Rattle.bl_index_edit.proofs.AtLeaf.{writes_climbing};

    ghost key_of = { λ w. w.insertion.now.key };

    ghost write_of = { λ w. placed w.insertion.now.placing };

    ghost staged = { λ w stage. climb_staged w.insertion.now.key w.insertion.now.placing w.path.now stage };

    ghost opened = { λ w left. climb_opened w.insertion.now.key w.insertion.now.placing w.path.now left };

    #[inline(always)]
    fn key(&self) -> u64 {
        self.insertion.key
    }

    #[inline(always)]
    fn write(&self) -> KeyWrite {
        self.insertion.placing.write()
    }

    ghost writes = { λ w. writes_climbing w.insertion.now.key w.insertion.now.placing w.path.now };
}
