//! How often each kind of thing was met.

use bl_model::Reply;
use bl_page::Page;
use bl_proc::{Answer, Hint, Lowered, Posted, Reclaimed, Squeezed};
use bl_world::Owner;
use test_world_running::{Compression, Job, Running, Way, is_to_post};

/// Answers of operations, but for changes of a value.
#[derive(Clone, Copy, Debug)]
struct Operations {
    found: u32,
    absent: u32,
    inserted: u32,
    replaced: u32,
    present: u32,
    deleted: u32,
    parts: u32,
    without_room: u32,
}

/// Answers of changes of a value.
#[derive(Clone, Copy, Debug)]
struct Changes {
    changed: u32,
    /// Those that have put the value that was there.
    put_again: u32,
    differs: u32,
    absent: u32,
    without_room: u32,
}

/// Answers of posts.
#[derive(Clone, Copy, Debug)]
struct Posts {
    done: u32,
    already: u32,
    stale: u32,
    refused: u32,
}

/// Last posts of insertions that have split a page.
#[derive(Clone, Copy, Debug)]
struct OwnPosts {
    done: u32,
    already: u32,
    stale: u32,
    refused: u32,
}

/// Answers of compressions, and by their way those that put all.
#[derive(Clone, Copy, Debug)]
struct Compressions {
    merged: u32,
    evened: u32,
    enough: u32,
    alone: u32,
    unlisted: u32,
    refused: u32,
    to_the_left: u32,
    to_the_right: u32,
}

/// Answers of those that were to take the top level away.
#[derive(Clone, Copy, Debug)]
struct Lowerings {
    lowered: u32,
    needed: u32,
    refused: u32,
}

/// Pages that were to be released, and what came of dead pages.
#[derive(Clone, Copy, Debug)]
pub struct Pages {
    released: u32,
    kept: u32,
    /// Those that were kept since a process may have read them, and those whose release was missed.
    pub read: u32,
    pub missed: u32,
    /// Dead pages that were got, and released pages that were taken again.
    pub dead_pages_got: u32,
    pub taken_again: u32,
}

/// What parts saw of the pages that they had in mind.
#[derive(Clone, Copy, Debug)]
struct Minds {
    anchors: u32,
    leaves: u32,
    /// Pages above the leaves, as one is that was a leaf and was taken anew.
    inner_pages: u32,
    held: u32,
    retired: u32,
    released: u32,
    /// Numbers of no page.
    nowhere: u32,
}

/// What befell pages of one kind: leaves, or pages above them.
#[derive(Clone, Copy, Debug)]
struct Shapes {
    /// Pages that were left thin, and pages that were split.
    thin: u32,
    split: u32,
    /// Compressions of such pages that put all.
    merged: u32,
    evened: u32,
}

/// How many answers of each kind there were, and what else was met.
#[derive(Clone, Copy, Debug)]
pub struct Tally {
    operations: Operations,
    changes: Changes,
    posts: Posts,
    own_posts: OwnPosts,
    compressions: Compressions,
    lowerings: Lowerings,
    pub pages: Pages,
    minds: Minds,
    leaves: Shapes,
    inner_pages: Shapes,
    /// Latches that were missed in a compression.
    pub waits: u32,
    levels: usize,
}

const NO_SHAPES: Shapes = Shapes {
    thin: 0,
    split: 0,
    merged: 0,
    evened: 0,
};

/// Nothing was met.
pub const NONE: Tally = Tally {
    operations: Operations {
        found: 0,
        absent: 0,
        inserted: 0,
        replaced: 0,
        present: 0,
        deleted: 0,
        parts: 0,
        without_room: 0,
    },
    changes: Changes {
        changed: 0,
        put_again: 0,
        differs: 0,
        absent: 0,
        without_room: 0,
    },
    posts: Posts {
        done: 0,
        already: 0,
        stale: 0,
        refused: 0,
    },
    own_posts: OwnPosts {
        done: 0,
        already: 0,
        stale: 0,
        refused: 0,
    },
    compressions: Compressions {
        merged: 0,
        evened: 0,
        enough: 0,
        alone: 0,
        unlisted: 0,
        refused: 0,
        to_the_left: 0,
        to_the_right: 0,
    },
    lowerings: Lowerings {
        lowered: 0,
        needed: 0,
        refused: 0,
    },
    pages: Pages {
        released: 0,
        kept: 0,
        read: 0,
        missed: 0,
        dead_pages_got: 0,
        taken_again: 0,
    },
    minds: Minds {
        anchors: 0,
        leaves: 0,
        inner_pages: 0,
        held: 0,
        retired: 0,
        released: 0,
        nowhere: 0,
    },
    leaves: NO_SHAPES,
    inner_pages: NO_SHAPES,
    waits: 0,
    levels: 0,
};

/// Counts one more.
pub fn one_more(count: &mut u32) {
    *count = count.saturating_add(1);
}

impl Operations {
    fn answered(&mut self, reply: &Reply) {
        let count = match reply {
            Reply::Found(_) => &mut self.found,
            Reply::Absent => &mut self.absent,
            Reply::Inserted => &mut self.inserted,
            Reply::Present(_) => &mut self.present,
            Reply::Replaced(_) => &mut self.replaced,
            Reply::Deleted(_) => &mut self.deleted,
            Reply::Rows(_, _) => &mut self.parts,
            Reply::NoRoom => &mut self.without_room,
            Reply::Changed | Reply::Differs(_) => return,
        };
        one_more(count);
    }

    fn least(&self) -> u32 {
        self.found
            .min(self.absent)
            .min(self.inserted)
            .min(self.present)
            .min(self.replaced)
            .min(self.deleted)
            .min(self.parts)
            .min(self.without_room)
    }
}

impl Changes {
    /// It was to put that value in place of the other, or of the same.
    fn answered(&mut self, is_same: bool, reply: &Reply) {
        let count = match reply {
            Reply::Changed if is_same => &mut self.put_again,
            Reply::Changed => &mut self.changed,
            Reply::Differs(_) => &mut self.differs,
            Reply::Absent => &mut self.absent,
            _ => &mut self.without_room,
        };
        one_more(count);
    }

    fn least(&self) -> u32 {
        let puts = self.changed.min(self.put_again).min(self.without_room);
        puts.min(self.differs).min(self.absent)
    }
}

impl Posts {
    fn answered(&mut self, posted: &Posted) {
        let count = match posted {
            Posted::Done => &mut self.done,
            Posted::Already => &mut self.already,
            Posted::Stale => &mut self.stale,
            _ => &mut self.refused,
        };
        one_more(count);
    }
}

impl OwnPosts {
    fn answered(&mut self, posted: &Posted) {
        let count = match posted {
            Posted::Done => &mut self.done,
            Posted::Already => &mut self.already,
            Posted::Stale => &mut self.stale,
            _ => &mut self.refused,
        };
        one_more(count);
    }
}

impl Compressions {
    fn answered(&mut self, squeezed: &Squeezed) {
        let count = match squeezed {
            Squeezed::Merged => &mut self.merged,
            Squeezed::Evened => &mut self.evened,
            Squeezed::Enough => &mut self.enough,
            Squeezed::Alone => &mut self.alone,
            Squeezed::Unposted => &mut self.unlisted,
            Squeezed::NoRoom => &mut self.refused,
        };
        one_more(count);
    }

    fn least(&self) -> u32 {
        let done = self.merged.min(self.to_the_left).min(self.to_the_right);
        let others = self.enough.min(self.alone).min(self.unlisted);
        done.min(others).min(self.refused)
    }
}

impl Lowerings {
    fn answered(&mut self, lowered: &Lowered) {
        match lowered {
            Lowered::Lowered => one_more(&mut self.lowered),
            Lowered::Needed => one_more(&mut self.needed),
            Lowered::NoRoom => one_more(&mut self.refused),
        }
    }

    fn least(&self) -> u32 {
        self.lowered.min(self.needed).min(self.refused)
    }
}

impl Pages {
    fn answered(&mut self, reclaimed: &Reclaimed) {
        match reclaimed {
            Reclaimed::Released => one_more(&mut self.released),
            Reclaimed::Kept => one_more(&mut self.kept),
        }
    }

    fn least(&self) -> u32 {
        self.released
            .min(self.kept)
            .min(self.read)
            .min(self.missed)
            .min(self.dead_pages_got)
            .min(self.taken_again)
    }
}

impl Minds {
    /// A part has looked at its page, which had this owner and held this.
    fn looked(&mut self, owner: Option<Owner>, page: Option<&Page>) {
        let count = match owner {
            None => &mut self.nowhere,
            Some(Owner::Released) => &mut self.released,
            Some(Owner::Retired(_)) => &mut self.retired,
            Some(Owner::Held(_)) => &mut self.held,
            Some(Owner::Open) => match page {
                Some(Page::Anchor(_)) => &mut self.anchors,
                Some(Page::Leaf(_)) => &mut self.leaves,
                _ => &mut self.inner_pages,
            },
        };
        one_more(count);
    }

    fn least(&self) -> u32 {
        let open = self.anchors.min(self.leaves).min(self.inner_pages);
        let others = self.held.min(self.retired).min(self.released);
        open.min(others).min(self.nowhere)
    }
}

impl Shapes {
    fn hinted(&mut self, is_split: bool) {
        if is_split {
            one_more(&mut self.split);
        } else {
            one_more(&mut self.thin);
        }
    }

    fn compressed(&mut self, way: Way) {
        if way == Way::Merged {
            one_more(&mut self.merged);
        } else {
            one_more(&mut self.evened);
        }
    }

    fn least(&self) -> u32 {
        self.thin.min(self.split).min(self.merged).min(self.evened)
    }
}

impl Tally {
    /// A process that was to do this has answered.
    pub fn answered(&mut self, job: Job, answer: &Answer) {
        match answer {
            Answer::Op(reply, _) => match job {
                Job::Change(_, old, new) => self.changes.answered(old == new, reply),
                _ => self.operations.answered(reply),
            },
            Answer::Post(posted, _) => self.posts.answered(posted),
            Answer::Compress(squeezed, _) => self.compressions.answered(squeezed),
            Answer::Reclaim(reclaimed) => self.pages.answered(reclaimed),
            Answer::Lower(lowered) => self.lowerings.answered(lowered),
            Answer::InsertPost(reply, last, _) => {
                self.operations.answered(reply);
                if let Some(posted) = last {
                    self.own_posts.answered(posted);
                }
            }
        }
    }

    /// Who was to do this has looked at a page, which had this owner and held this.
    pub fn looked(&mut self, job: Job, owner: Option<Owner>, page: Option<&Page>) {
        if let Job::FindNear(_, _) | Job::PartNear(_, _) = job {
            self.minds.looked(owner, page);
        }
    }

    fn shapes(&mut self, are_leaves: bool) -> &mut Shapes {
        if are_leaves {
            &mut self.leaves
        } else {
            &mut self.inner_pages
        }
    }

    /// An answer had this hint.
    pub fn hinted(&mut self, answer: &Answer, hint: &Hint) {
        let is_split = is_to_post(hint);
        if is_split && matches!(answer, Answer::Compress(_, _)) {
            // another process has split it
            return;
        }
        self.shapes(hint.level() == 1).hinted(is_split);
    }

    /// A write that posts has split the named page from another one, of which it tells nobody.
    pub fn split_by(&mut self, running: &Running, named: Option<u32>) {
        if running.job.is_posting()
            && let Some((level, _)) = running.split
            && named.is_some()
        {
            self.shapes(level == 1).hinted(true);
        }
    }

    /// A compression has put all.
    pub fn compressed(&mut self, compression: &Compression) {
        let way = compression.way();
        match way {
            Way::Merged => {}
            Way::ToTheLeft => one_more(&mut self.compressions.to_the_left),
            Way::ToTheRight => one_more(&mut self.compressions.to_the_right),
        }
        self.shapes(compression.level() == 0).compressed(way);
    }

    /// A tree had so many levels.
    pub fn meet_levels(&mut self, levels: usize) {
        self.levels = self.levels.max(levels);
    }

    /// Enough of all that small worlds are to meet.
    pub fn is_of_small_worlds(&self) -> bool {
        let posts = self
            .posts
            .done
            .min(self.posts.already)
            .min(self.posts.stale);
        let shapes = self.leaves.split.min(self.leaves.thin);
        let others = self.compressions.least().min(self.pages.least());
        let operations = self.operations.least().min(self.changes.least());
        operations.min(posts).min(shapes) > 9
            && others.min(self.waits).min(self.posts.refused) > 3
            && self.lowerings.least() > 1
            && self.own_posts.done > 9
            && self.minds.least() > 3
    }

    /// Enough of all that wide worlds are to meet.
    pub fn is_of_wide_worlds(&self) -> bool {
        self.inner_pages.least() > 0 && self.levels > 2
    }
}
