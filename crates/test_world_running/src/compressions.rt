//! What a compression is to do, by the pages before its first put.

use bl_page::Dead;
use bl_proc::{Answer, Hint, Level, Squeezed};
use std::alloc::Global;
use test_world_walks::{Law, Listed, Lists, Live, Tree, add, found, holds, keep};

/// Two neighbouring children, as their parent lists them.
#[derive(Clone, Copy)]
pub struct Family {
    parent: u32,
    left: u32,
    right: u32,
    /// The key by which the right one is listed.
    key: u64,
}

fn family_of(left: Listed, right: Listed) -> Option<Family> {
    Some(Family {
        parent: left.parent,
        left: u32::try_from(left.child).ok()?,
        right: u32::try_from(right.child).ok()?,
        key: right.key,
    })
}

/// The children that the parent lists up to that key, of which the last two stand here, and the first one behind it.
#[derive(Clone, Copy)]
struct Around {
    before: Option<Listed>,
    own: Option<Listed>,
    after: Option<Listed>,
}

impl Around {
    fn meet(&mut self, listed: Listed, key: u64) {
        if listed.key <= key {
            self.before = self.own;
            self.own = Some(listed);
        } else if self.after.is_none() {
            self.after = Some(listed);
        }
    }
}

/// What the parent lists around that key.
fn listed_around(tree: &Tree, parent: u32, key: u64) -> Around {
    let mut around = Around {
        before: None,
        own: None,
        after: None,
    };
    for listed in tree.listed.as_slice() {
        if listed.parent == parent {
            around.meet(*listed, key);
        }
    }
    around
}

/// The children that a compression by that key takes: the one of the greatest key up to it and the next one, or the one
/// before where there is no next one. None where there is one child.
fn siblings(tree: &Tree, parent: u32, key: u64) -> Result<Option<Family>, Law> {
    let around = listed_around(tree, parent, key);
    let (left, right) = if around.after.is_some() {
        (around.own, around.after)
    } else {
        (around.before, around.own)
    };
    let (Some(left), Some(right)) = (left, right) else {
        return Ok(None);
    };
    let family = found!(family_of(left, right), "a child is a page");
    Ok(Some(family))
}

/// Both children.
fn children_of(tree: &Tree, family: &Family) -> Result<(Live, Live), Law> {
    let left = found!(tree.live_at(family.left), "a child is live");
    let right = found!(tree.live_at(family.right), "a child is live");
    Ok((left, right))
}

fn level_of(number: usize) -> Result<Level, Law> {
    let number = found!(u32::try_from(number).ok(), "a level is small");
    if number == 0 || number > 12 {
        return Err("a hint is of a level of 1 to 12");
    }
    Ok(Level::new(number))
}

/// What a compression comes to that changes nothing, and its hint.
#[derive(Clone, Copy)]
struct Outcome {
    squeezed: Squeezed,
    hint: Option<Hint>,
}

/// The children are too many for one page, and neither is thin.
fn has_enough(left: &Live, right: &Live) -> bool {
    left.count.saturating_add(right.count) > 14 && left.count > 6 && right.count > 6
}

/// The hint to post the key at which the left child ends.
fn hint_to_post(parent: &Live, left: &Live) -> Result<Hint, Law> {
    let level = level_of(parent.level)?;
    let key = left.high;
    Ok(Hint::Post { level, key })
}

/// What is right of a compression that holds this parent, and changes nothing.
fn right_at(tree: &Tree, parent: &Live, key: u64) -> Result<Option<Outcome>, Law> {
    let Some(family) = siblings(tree, parent.page, key)? else {
        return Ok(outcome_of(Squeezed::Alone, None));
    };
    let (left, right) = children_of(tree, &family)?;
    if left.right != right.page {
        let hint = hint_to_post(parent, &left)?;
        return Ok(outcome_of(Squeezed::Unposted, Some(hint)));
    }
    if has_enough(&left, &right) {
        return Ok(outcome_of(Squeezed::Enough, None));
    }
    Ok(None)
}

fn outcome_of(squeezed: Squeezed, hint: Option<Hint>) -> Option<Outcome> {
    Some(Outcome { squeezed, hint })
}

/// Adds what are right answers in this tree of a compression that changes nothing.
pub fn rights_of(tree: &Tree, level: u32, key: u64, right: &mut Vec<Answer>) -> Result<(), Law> {
    let level = level as usize;
    if tree.levels <= level {
        return add(right, Answer::Compress(Squeezed::Alone, None));
    }
    for live in tree.live.as_slice() {
        if live.level == level
            && live.covers(key)
            && let Some(so) = right_at(tree, live, key)?
        {
            add(right, Answer::Compress(so.squeezed, so.hint))?;
        }
    }
    Ok(())
}

/// The hint of that page to its parent, which is of that level, if the page is thin.
fn hint_of_thin(tree: &Tree, page: u32, parent: usize) -> Result<Option<Hint>, Law> {
    let Some(key) = tree.thin_low(page)? else {
        return Ok(None);
    };
    let level = level_of(parent)?;
    Ok(Some(Hint::Thin { level, key }))
}

fn begins_with_first_key(alloc: Global, tree: &Tree, right: &Live) -> Result<(), Law> {
    let pairs = tree.pairs_of(alloc, right)?;
    holds(
        pairs.as_slice().first().map(|pair| pair.0) == Some(right.low),
        "the right child begins with its first key",
    )
}

/// A compression from its first put on, and what stood there before.
#[derive(Drop)]
pub struct Compression {
    family: Family,
    left: Live,
    right: Live,
    /// The pairs of both children, and those of the parent.
    pairs: Vec<(u64, u64)>,
    listed: Vec<(u64, u64)>,
    /// How many pages it has put.
    pub puts: usize,
}

/// What a compression has come to.
#[derive(Clone, Copy, PartialEq, Eq)]
pub enum Way {
    Merged,
    ToTheLeft,
    ToTheRight,
}

impl Compression {
    /// The compression of the children of the page of that level that covers the key, which is the parent if it is that page.
    fn at_parent(alloc: Global, tree: &Tree, parent: &Live, key: u64) -> Result<Compression, Law> {
        let family = siblings(tree, parent.page, key)?;
        let family = found!(family, "who compresses has two children");
        let (left, right) = children_of(tree, &family)?;
        keep!(
            left.right == right.page,
            "the left child leads to the right one"
        );
        let mut compression = Compression {
            family,
            left,
            right,
            pairs: Vec::new(alloc),
            listed: Vec::new(alloc),
            puts: 0,
        };
        compression.meet_pairs(tree, parent)?;
        Ok(compression)
    }

    /// Adds the pairs that stand there.
    fn meet_pairs(&mut self, tree: &Tree, parent: &Live) -> Result<(), Law> {
        tree.add_pairs(&self.left, &mut self.pairs)?;
        tree.add_pairs(&self.right, &mut self.pairs)?;
        tree.add_pairs(parent, &mut self.listed)
    }

    /// What a compression does in this tree, before its first put.
    pub fn new(alloc: Global, tree: &Tree, level: u32, key: u64) -> Result<Compression, Law> {
        for live in tree.live.as_slice() {
            if live.level == level as usize && live.covers(key) {
                return Compression::at_parent(alloc, tree, live, key);
            }
        }
        Err("who compresses has a parent")
    }

    fn count(&self) -> usize {
        self.left.count.saturating_add(self.right.count)
    }

    /// How many pairs the left child gets in an evening.
    fn half(&self) -> usize {
        self.count().saturating_add(1) / 2
    }

    /// What it is to come to, by how many pairs its children have.
    pub fn way(&self) -> Way {
        if self.count() <= 14 {
            Way::Merged
        } else if self.left.count < self.half() {
            Way::ToTheLeft
        } else {
            Way::ToTheRight
        }
    }

    /// It puts that page as its next one: the child that gains, the parent, and the other child.
    pub fn puts(&mut self, page: u32) -> Result<(), Law> {
        let thin = self.left.count < 7 || self.right.count < 7;
        keep!(
            thin || self.way() == Way::Merged,
            "children with enough pairs are left alone"
        );
        let (first, last) = if self.way() == Way::ToTheRight {
            (self.family.right, self.family.left)
        } else {
            (self.family.left, self.family.right)
        };
        let next = match self.puts {
            0 => Some(first),
            1 => Some(self.family.parent),
            2 => Some(last),
            _ => None,
        };
        keep!(
            next == Some(page),
            "a compression puts who gains, the parent, who loses"
        );
        self.puts = self.puts.saturating_add(1);
        Ok(())
    }

    /// After the last put of a merge the right child is dead and the left one has its pairs.
    fn has_merged(&self, alloc: Global, lists: &Lists, tree: &Tree) -> Result<(), Law> {
        let dead = found!(lists.dead(self.right.page), "a merged page is dead");
        self.leaves(dead)?;
        let left = found!(tree.live_at(self.left.page), "the left child is live");
        keep!(
            left.low == self.left.low
                && left.high == self.right.high
                && left.right == self.right.right,
            "a merged page has the bounds and the link of both"
        );
        let pairs = tree.pairs_of(alloc, &left)?;
        holds(
            pairs.as_slice() == self.pairs.as_slice() && left.count == self.count(),
            "a merged page has the pairs of both",
        )
    }

    /// The dead page that a merge leaves.
    fn leaves(&self, dead: &Dead) -> Result<(), Law> {
        keep!(
            dead.level as usize == self.right.level && dead.low == self.right.low,
            "a dead page keeps its level and its low"
        );
        holds(
            dead.right == self.left.page,
            "a dead page names who took its pairs",
        )
    }

    /// After the last put of an evening each child has its half of the pairs.
    fn has_evened(&self, alloc: Global, tree: &Tree) -> Result<u64, Law> {
        let left = found!(tree.live_at(self.left.page), "the left child is live");
        let right = found!(tree.live_at(self.right.page), "the right child is live");
        self.has_halves(&left, &right)?;
        self.has_bounds(&left, &right)?;
        begins_with_first_key(alloc, tree, &right)?;
        let pairs = tree.pairs_of_both(alloc, &left, &right)?;
        keep!(
            pairs.as_slice() == self.pairs.as_slice(),
            "evened pages have the pairs of both"
        );
        Ok(right.low)
    }

    /// These are the children after an evening, by how many pairs they have.
    fn has_halves(&self, left: &Live, right: &Live) -> Result<(), Law> {
        holds(
            left.count == self.half() && left.count > 6 && right.count > 6,
            "the left child has half of the pairs, and neither is thin",
        )
    }

    /// The same by their bounds and links.
    fn has_bounds(&self, left: &Live, right: &Live) -> Result<(), Law> {
        keep!(
            left.low == self.left.low && left.high == right.low && left.right == right.page,
            "the left child ends where the right one begins"
        );
        holds(
            right.high == self.right.high && right.right == self.right.right,
            "the right child ends as before",
        )
    }

    /// After its last put all is done. In an evening the parent lists the right child by that new low, else not at all.
    pub fn is_done(&self, alloc: Global, lists: &Lists, tree: &Tree) -> Result<(), Law> {
        let mut low = None;
        if self.way() == Way::Merged {
            self.has_merged(alloc, lists, tree)?;
        } else {
            low = Some(self.has_evened(alloc, tree)?);
        }
        let mut wanted = Vec::new(alloc);
        self.add_wanted(low, &mut wanted)?;
        self.lists_children(alloc, tree, wanted.as_slice())
    }

    /// Adds what the parent is to list, the right child by that low or not at all.
    fn add_wanted(&self, low: Option<u64>, wanted: &mut Vec<(u64, u64)>) -> Result<(), Law> {
        for pair in self.listed.as_slice() {
            let key = if pair.0 == self.family.key {
                low
            } else {
                Some(pair.0)
            };
            if let Some(key) = key {
                add(wanted, (key, pair.1))?;
            }
        }
        Ok(())
    }

    fn lists_children(&self, alloc: Global, tree: &Tree, wanted: &[(u64, u64)]) -> Result<(), Law> {
        let parent = found!(tree.live_at(self.family.parent), "the parent is live");
        let listed = tree.pairs_of(alloc, &parent)?;
        holds(
            listed.as_slice() == wanted,
            "the parent lists the right child as it is, and all others as before",
        )
    }

    /// The hint of a merge in this tree: the parent is thin, or else the left child.
    fn hint_in(&self, tree: &Tree) -> Result<Option<Hint>, Law> {
        let below = self.left.level.saturating_add(1);
        let hint = hint_of_thin(tree, self.family.parent, below.saturating_add(1))?;
        if hint.is_some() {
            return Ok(hint);
        }
        hint_of_thin(tree, self.left.page, below)
    }

    /// What it is to answer, when all is done.
    pub fn answer_in(&self, tree: &Tree) -> Result<Answer, Law> {
        if self.way() == Way::Merged {
            return Ok(Answer::Compress(Squeezed::Merged, self.hint_in(tree)?));
        }
        Ok(Answer::Compress(Squeezed::Evened, None))
    }

    /// The level of the children.
    pub fn level(&self) -> usize {
        self.left.level
    }

    /// The page that a merge retires.
    pub fn retires(&self, page: u32) -> bool {
        self.way() == Way::Merged && self.puts == 3 && page == self.right.page
    }
}
