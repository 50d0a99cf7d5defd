//! The laws of the tree, by plain walks over the pages. They hold at every moment, also in the middle of the work of any
//! process, with these exceptions and no others: a page is fresh, and not of the tree yet, until the page is put that is to
//! name it; while a process is between the first and the last put of a compression, two pages that it holds may cover a
//! key in common, and a child that it holds may begin before the key by which it is listed, which is so in an evening alone; and
//! while a process is between the two puts by which it takes the top level away, it holds the anchor and the page that was the top.

use crate::laws::{Law, add, holds};
use crate::lists::Lists;
use crate::{found, keep};
use arrayvec::ArrayVec;
use bl_model::{Next, Reply};
use bl_page::{Dead, Inner, Leaf, Page};
use bl_world::Owner;
use std::alloc::Global;

/// A page that was taken and is to be named by another one, which the same process holds.
#[derive(Clone, Copy, PartialEq, Eq)]
pub struct Fresh {
    pub page: u32,
    pub holder: usize,
    pub named_by: u32,
}

/// Where processes stand with work that changes more than one page.
#[derive(Drop)]
pub struct Moment {
    pub fresh: Vec<Fresh>,
    /// Numbers of those that are between the first and the last put of a compression.
    pub compressing: Vec<usize>,
}

impl Moment {
    pub fn is_fresh(&self, page: u32) -> bool {
        for fresh in self.fresh.as_slice() {
            if fresh.page == page {
                return true;
            }
        }
        false
    }

    /// The fresh page that this one is to name, which the same process holds.
    pub fn named_by(&self, holder: usize, page: u32) -> Option<u32> {
        let mut named = None;
        for fresh in self.fresh.as_slice() {
            if fresh.holder == holder && fresh.named_by == page {
                named = Some(fresh.page);
            }
        }
        named
    }

    /// The number of the process that holds the page and is in the middle of a compression.
    fn compressor_of(&self, lists: &Lists, page: u32) -> Option<usize> {
        let owner = lists.owners.as_slice().get(page as usize).copied();
        for number in self.compressing.as_slice() {
            if owner == Some(Owner::Held(*number)) {
                return Some(*number);
            }
        }
        None
    }

    /// One process holds both pages, and is in the middle of a compression.
    fn compresses_both(&self, lists: &Lists, page: u32, other: u32) -> bool {
        let compressor = self.compressor_of(lists, page);
        compressor.is_some() && compressor == self.compressor_of(lists, other)
    }
}

/// A live page: a leaf or an inner page that is open or held, and not fresh.
#[derive(Clone, Copy, PartialEq, Eq)]
pub struct Live {
    pub page: u32,
    pub level: usize,
    pub low: u64,
    pub high: u64,
    pub right: u32,
    /// How many pairs it has.
    pub count: usize,
}

impl Live {
    pub fn covers(&self, key: u64) -> bool {
        self.low <= key && (self.high == 0 || key < self.high)
    }

    pub fn is_alone(&self) -> bool {
        self.low == 0 && self.high == 0
    }

    /// They are of one level and cover a key in common.
    fn overlaps(&self, other: &Live) -> bool {
        let low = self.low.max(other.low);
        self.level == other.level && self.covers(low) && other.covers(low)
    }
}

/// A child that a live inner page lists.
#[derive(Clone, Copy, PartialEq, Eq)]
pub struct Listed {
    pub level: usize,
    pub parent: u32,
    pub key: u64,
    pub child: u64,
}

/// What stands on the live pages.
#[derive(Drop)]
pub struct Tree {
    pub levels: usize,
    pub live: Vec<Live>,
    pub listed: Vec<Listed>,
    /// The rows of the leaves along their chain, each key by the first leaf that covers it.
    pub rows: Vec<(u64, u64)>,
    /// Numbers of processes that are in the middle of an evening, as their children show.
    pub evening: Vec<usize>,
}

fn keys_rise_within(pairs: &[(u64, u64)], low: u64, high: u64) -> Result<(), Law> {
    let mut last = None;
    for pair in pairs {
        keep!(Some(pair.0) > last, "the keys of a page rise");
        keep!(low <= pair.0, "no key is below the page");
        keep!(high == 0 || pair.0 < high, "no key is past the page");
        last = Some(pair.0);
    }
    Ok(())
}

fn live_leaf(page: u32, leaf: &Leaf) -> Result<Live, Law> {
    keys_rise_within(leaf.rows.as_slice(), leaf.low, leaf.high)?;
    Ok(Live {
        page,
        level: 0,
        low: leaf.low,
        high: leaf.high,
        right: leaf.right,
        count: leaf.rows.as_slice().len(),
    })
}

fn live_inner(page: u32, inner: &Inner) -> Result<Live, Law> {
    let children = inner.children.as_slice();
    keys_rise_within(children, inner.low, inner.high)?;
    keep!(
        children.first().map(|child| child.0) == Some(inner.low),
        "the first child begins with the page"
    );
    Ok(Live {
        page,
        level: inner.level as usize,
        low: inner.low,
        high: inner.high,
        right: inner.right,
        count: children.len(),
    })
}

/// Adds what a live inner page lists.
fn list_children(parent: &Live, inner: &Inner, listed: &mut Vec<Listed>) -> Result<(), Law> {
    for child in inner.children.as_slice() {
        let child = Listed {
            level: parent.level,
            parent: parent.page,
            key: child.0,
            child: child.1,
        };
        add(listed, child)?;
    }
    Ok(())
}

/// Adds the rows of a leaf from that key on.
fn add_rows(leaf: &Leaf, from: u64, rows: &mut Vec<(u64, u64)>) -> Result<(), Law> {
    for row in leaf.rows.as_slice() {
        if from <= row.0 {
            add(rows, *row)?;
        }
    }
    Ok(())
}

/// The page with that number, which is open or held, and not fresh.
fn words_of_live<'a>(
    lists: &'a Lists,
    moment: &Moment,
    page: u32,
    owner: Owner,
) -> Option<&'a Page> {
    if matches!(owner, Owner::Open | Owner::Held(_)) && !moment.is_fresh(page) {
        lists.pages.as_slice().get(page as usize)
    } else {
        None
    }
}

impl Tree {
    fn new(alloc: Global) -> Tree {
        Tree {
            levels: 0,
            live: Vec::new(alloc),
            listed: Vec::new(alloc),
            rows: Vec::new(alloc),
            evening: Vec::new(alloc),
        }
    }

    /// Adds a page that is open or held, and not fresh.
    fn enter(&mut self, page: u32, owner: Owner, words: &Page) -> Result<(), Law> {
        match words {
            Page::Leaf(leaf) => {
                let live = live_leaf(page, leaf)?;
                add(&mut self.live, live)
            }
            Page::Inner(inner) => {
                let live = live_inner(page, inner)?;
                add(&mut self.live, live)?;
                list_children(&live, inner, &mut self.listed)
            }
            Page::Dead(_) => holds(owner != Owner::Open, "a dead page is not open"),
            Page::Anchor(_) => holds(page == 0, "page 0 alone is the anchor"),
        }
    }

    fn enter_all(&mut self, lists: &Lists, moment: &Moment) -> Result<(), Law> {
        for (at, owner) in lists.owners.as_slice().iter().enumerate() {
            let page = found!(u32::try_from(at).ok(), "a page has a number");
            if let Some(words) = words_of_live(lists, moment, page, *owner) {
                self.enter(page, *owner, words)?;
            }
        }
        Ok(())
    }

    /// The low of the live page at that place of the list, if it is a leaf.
    pub fn low_of_leaf(&self, place: usize) -> Option<u64> {
        match self.live.as_slice().get(place) {
            Some(live) if live.level == 0 => Some(live.low),
            _ => None,
        }
    }

    /// The live page with that number.
    pub fn live_at(&self, page: u32) -> Option<Live> {
        for live in self.live.as_slice() {
            if live.page == page {
                return Some(*live);
            }
        }
        None
    }

    /// The page has no level any more, since the process that holds it and the anchor takes the top level away.
    fn is_uprooted(&self, lists: &Lists, live: &Live) -> bool {
        let owners = lists.owners.as_slice();
        let owner = owners.get(live.page as usize).copied();
        live.level == self.levels
            && matches!(owner, Some(Owner::Held(_)))
            && owner == owners.first().copied()
    }

    /// The tree has a top level that it does not need: one page with one pair, without bound and link.
    pub fn is_too_high(&self) -> bool {
        let top = self.levels.saturating_sub(1);
        for live in self.live.as_slice() {
            if live.level == top && top > 0 && live.is_alone() {
                return live.count == 1 && live.right == 0;
            }
        }
        false
    }

    /// Of all live pages, two that cover a key in common are in the hands of one compression, and each is of a level of the
    /// tree, or was its top.
    fn overlap_in_compressions_alone(&self, lists: &Lists, moment: &Moment) -> Result<(), Law> {
        for (at, live) in self.live.as_slice().iter().enumerate() {
            keep!(
                live.level < self.levels || self.is_uprooted(lists, live),
                "a page is of a level of the tree"
            );
            self.overlaps_in_compression(lists, moment, at, live)?;
        }
        Ok(())
    }

    /// Those live pages behind that place which cover a key of this one are in the hands of one compression with it.
    fn overlaps_in_compression(
        &self,
        lists: &Lists,
        moment: &Moment,
        at: usize,
        live: &Live,
    ) -> Result<(), Law> {
        for other in self.live.as_slice().iter().skip(at.saturating_add(1)) {
            keep!(
                !live.overlaps(other) || moment.compresses_both(lists, live.page, other.page),
                "two pages of a level cover no key in common"
            );
        }
        Ok(())
    }

    /// The pages of a level, from its leftmost one by the links.
    fn walk_level(
        &mut self,
        lists: &Lists,
        moment: &Moment,
        level: usize,
        first: u32,
    ) -> Result<(), Law> {
        let mut at = first;
        let mut before = first;
        let mut from = 0;
        for _ in 0..lists.pages.len() {
            let live = self.live_on(level, at)?;
            keep!(
                live.low == from || (live.low < from && moment.compresses_both(lists, before, at)),
                "a page begins where the one before it ends"
            );
            if let Some(leaf) = lists.leaf(at) {
                add_rows(leaf, from, &mut self.rows)?;
            }
            if live.high == 0 {
                return holds(live.right == 0, "the last page has no link");
            }
            keep!(from < live.high, "a page ends past its beginning");
            before = at;
            at = live.right;
            from = live.high;
        }
        Err("a level has an end")
    }

    /// The live page of a chain of that level.
    fn live_on(&self, level: usize, page: u32) -> Result<Live, Law> {
        let live = found!(self.live_at(page), "a chain goes by live pages");
        keep!(live.level == level, "a page is of its level");
        Ok(live)
    }

    fn walk_levels(&mut self, lists: &Lists, moment: &Moment, firsts: &[u32]) -> Result<(), Law> {
        for (level, first) in firsts.iter().enumerate() {
            self.walk_level(lists, moment, level, *first)?;
        }
        Ok(())
    }

    /// A child is live, a level below, and begins with the key by which it is listed, or before it in an evening.
    fn is_child(&mut self, lists: &Lists, moment: &Moment, listed: Listed) -> Result<(), Law> {
        let child = u32::try_from(listed.child).ok();
        let child = found!(child, "a child has a number");
        let live = found!(self.live_at(child), "a child is live");
        keep!(
            live.level.wrapping_add(1) == listed.level,
            "a child is one level lower"
        );
        keep!(live.low <= listed.key, "a child begins with its key");
        if live.low == listed.key {
            return Ok(());
        }
        let compressor = moment.compressor_of(lists, child);
        let compressor = found!(compressor, "a child begins with its key");
        add(&mut self.evening, compressor)
    }

    fn children_are_listed(&mut self, lists: &Lists, moment: &Moment) -> Result<(), Law> {
        for at in 0..self.listed.len() {
            if let Some(listed) = self.listed.as_slice().get(at).copied() {
                self.is_child(lists, moment, listed)?;
            }
        }
        Ok(())
    }

    /// The leaf has the rows of the keys that it covers.
    fn agrees(&self, live: &Live, leaf: &Leaf) -> Result<(), Law> {
        let mut place = 0usize;
        for row in self.rows.as_slice() {
            if live.covers(row.0) {
                keep!(
                    leaf.rows.as_slice().get(place) == Some(row),
                    "a leaf has the rows of the keys that it covers"
                );
                place = place.wrapping_add(1);
            }
        }
        holds(place == leaf.rows.len(), "leaves agree on their rows")
    }

    /// Each leaf has the rows of the keys that it covers.
    fn leaves_agree(&self, lists: &Lists) -> Result<(), Law> {
        for live in self.live.as_slice() {
            if let Some(leaf) = lists.leaf(live.page) {
                self.agrees(live, leaf)?;
            }
        }
        Ok(())
    }

    /// Adds what stands on the pages.
    fn enter_levels(&mut self, lists: &Lists, moment: &Moment, firsts: &[u32]) -> Result<(), Law> {
        self.levels = firsts.len();
        self.enter_all(lists, moment)?;
        self.overlap_in_compressions_alone(lists, moment)?;
        self.walk_levels(lists, moment, firsts)
    }

    /// Children are where they are listed, and leaves have the rows of their keys.
    fn is_sound(&mut self, lists: &Lists, moment: &Moment) -> Result<(), Law> {
        self.children_are_listed(lists, moment)?;
        keys_rise_within(self.rows.as_slice(), 0, 0)?;
        self.leaves_agree(lists)
    }

    /// A page of that level begins with the key.
    pub fn has_low(&self, level: usize, key: u64) -> bool {
        for live in self.live.as_slice() {
            if live.level == level && live.low == key {
                return true;
            }
        }
        false
    }

    /// A page of that level lists the key.
    pub fn lists(&self, level: usize, key: u64) -> bool {
        for listed in self.listed.as_slice() {
            if listed.level == level && listed.key == key {
                return true;
            }
        }
        false
    }

    /// The low of the page, if it has fewer than 7 pairs and is not alone on its level.
    pub fn thin_low(&self, page: u32) -> Result<Option<u64>, Law> {
        let live = found!(self.live_at(page), "a page that is put is live");
        Ok(if live.count < 7 && !live.is_alone() {
            Some(live.low)
        } else {
            None
        })
    }

    /// The same pages are live, with the same rows and children.
    pub fn is_as(&self, other: &Tree) -> bool {
        self.levels == other.levels
            && self.live.as_slice() == other.live.as_slice()
            && self.listed.as_slice() == other.listed.as_slice()
            && self.rows.as_slice() == other.rows.as_slice()
    }

    pub fn value_at(&self, key: u64) -> Option<u64> {
        for row in self.rows.as_slice() {
            if row.0 == key {
                return Some(row.1);
            }
        }
        None
    }

    /// What a part from that key may answer at that leaf.
    pub fn part_from(&self, from: u64, leaf: &Live) -> Reply {
        let mut part = ArrayVec::new();
        for row in self.rows.as_slice() {
            if from <= row.0 && leaf.covers(row.0) {
                let _ = part.try_push(*row);
            }
        }
        let next = if leaf.high == 0 {
            Next::End
        } else {
            Next::More(leaf.high)
        };
        Reply::Rows(part, next)
    }

    /// What a part from that key on downwards may answer at that leaf.
    pub fn part_down(&self, from: u64, leaf: &Live) -> Reply {
        let mut part = ArrayVec::new();
        for row in self.rows.as_slice().iter().rev() {
            if row.0 <= from && leaf.covers(row.0) {
                let _ = part.try_push(*row);
            }
        }
        let next = if leaf.low == 0 {
            Next::End
        } else {
            Next::More(leaf.low.wrapping_sub(1))
        };
        Reply::Rows(part, next)
    }

    /// The pairs of a live page: the rows of a leaf, or the keys and numbers of children.
    pub fn pairs_of(&self, alloc: Global, live: &Live) -> Result<Vec<(u64, u64)>, Law> {
        let mut pairs = Vec::new(alloc);
        self.add_pairs(live, &mut pairs)?;
        Ok(pairs)
    }

    /// The pairs of both live pages, one after the other.
    pub fn pairs_of_both(
        &self,
        alloc: Global,
        left: &Live,
        right: &Live,
    ) -> Result<Vec<(u64, u64)>, Law> {
        let mut pairs = self.pairs_of(alloc, left)?;
        self.add_pairs(right, &mut pairs)?;
        Ok(pairs)
    }

    /// Adds the pairs of a live page.
    pub fn add_pairs(&self, live: &Live, pairs: &mut Vec<(u64, u64)>) -> Result<(), Law> {
        if live.level > 0 {
            return self.add_children(live.page, pairs);
        }
        for row in self.rows.as_slice() {
            if live.covers(row.0) {
                add(pairs, *row)?;
            }
        }
        Ok(())
    }

    /// Adds the keys and numbers of a page's children.
    fn add_children(&self, parent: u32, pairs: &mut Vec<(u64, u64)>) -> Result<(), Law> {
        for listed in self.listed.as_slice() {
            if listed.parent == parent {
                add(pairs, (listed.key, listed.child))?;
            }
        }
        Ok(())
    }
}

/// What stands on the pages, which keep the laws at that moment.
pub fn walked(alloc: Global, lists: &Lists, moment: &Moment) -> Result<Tree, Law> {
    let anchor = lists.anchor()?;
    let mut tree = Tree::new(alloc);
    tree.enter_levels(lists, moment, anchor.leftmost.as_slice())?;
    tree.is_sound(lists, moment)?;
    Ok(tree)
}

/// Where a lone descent for the key goes from a page. None where it has come to the leaf that covers the key.
fn onwards(lists: &Lists, at: u32, key: u64) -> Result<Option<u32>, Law> {
    match lists.pages.as_slice().get(at as usize) {
        Some(Page::Leaf(leaf)) => onwards_from_leaf(leaf, key),
        Some(Page::Inner(inner)) => onwards_from_inner(inner, key),
        // without a link it leads to page 0, and the way begins again
        Some(Page::Dead(dead)) => Ok(Some(dead.right)),
        Some(Page::Anchor(anchor)) => Ok(anchor.leftmost.as_slice().last().copied()),
        None => Err("a descent goes by pages of the tree"),
    }
}

fn onwards_from_leaf(leaf: &Leaf, key: u64) -> Result<Option<u32>, Law> {
    keep!(leaf.low <= key, "a descent comes to no page past its key");
    let is_past = leaf.high != 0 && leaf.high <= key;
    Ok(if is_past { Some(leaf.right) } else { None })
}

fn onwards_from_inner(inner: &Inner, key: u64) -> Result<Option<u32>, Law> {
    if inner.high != 0 && inner.high <= key {
        return Ok(Some(inner.right));
    }
    let mut child = None;
    for pair in inner.children.as_slice() {
        if pair.0 <= key {
            child = u32::try_from(pair.1).ok();
        }
    }
    keep!(child.is_some(), "a descent comes to no page past its key");
    Ok(child)
}

/// A lone descent for the key comes to a live leaf that covers it, and to no page twice. Gives that leaf, and how many pages
/// were got, page 0 included.
pub fn descends(lists: &Lists, tree: &Tree, key: u64) -> Result<(u32, u32), Law> {
    let mut at = 0u32;
    let mut gets = 0u32;
    for _ in 0..lists.pages.len() {
        gets = gets.saturating_add(1);
        match onwards(lists, at, key)? {
            Some(next) => at = next,
            None => {
                keep!(tree.live_at(at).is_some(), "a descent ends at a live leaf");
                return Ok((at, gets));
            }
        }
    }
    Err("a descent ends")
}

/// From a dead page the links lead to a live page of its level. That one may begin later, after an evening; then a search
/// starts again. It does so too where the page has no link, which was the top of the tree.
pub fn leads_back(lists: &Lists, tree: &Tree, dead: u32) -> Result<(), Law> {
    let first = found!(lists.dead(dead), "a retired page is dead");
    if first.right == 0 {
        return holds(first.level > 0, "a leaf that is dead has a link");
    }
    let mut at = first.right;
    for _ in 0..lists.pages.len() {
        let Some(next) = lists.dead(at) else {
            let live = found!(tree.live_at(at), "a dead page leads to a live one");
            return holds(
                live.level == first.level as usize,
                "a dead page leads to one of its level",
            );
        };
        at = next.right;
    }
    Err("a dead page leads to a live one")
}

fn is_same_leaf(page: &Leaf, other: &Leaf) -> bool {
    page.low == other.low
        && page.high == other.high
        && page.right == other.right
        && page.rows.as_slice() == other.rows.as_slice()
}

fn is_same_inner(page: &Inner, other: &Inner) -> bool {
    page.level == other.level
        && page.low == other.low
        && page.high == other.high
        && page.right == other.right
        && page.children.as_slice() == other.children.as_slice()
}

fn is_same_dead(page: &Dead, other: &Dead) -> bool {
    page.level == other.level && page.low == other.low && page.right == other.right
}

/// The pages are the same.
pub fn is_same_page(page: &Page, other: &Page) -> bool {
    match (page, other) {
        (Page::Leaf(page), Page::Leaf(other)) => is_same_leaf(page, other),
        (Page::Inner(page), Page::Inner(other)) => is_same_inner(page, other),
        (Page::Dead(page), Page::Dead(other)) => is_same_dead(page, other),
        (Page::Anchor(page), Page::Anchor(other)) => {
            page.leftmost.as_slice() == other.leftmost.as_slice()
        }
        _ => false,
    }
}
