//! What is drawn by lot: which process starts, and whose turn it is.

use bl_proc::Hint;
use bl_world::Turn;
use std::alloc::Global;
use test_world_running::{Job, is_to_post};
use test_world_walks::{Law, Tree, add};
use test_world_watched::{Crew, Twins};

/// How large a world is, and how its processes are drawn.
#[derive(Clone, Copy)]
pub(crate) struct Size {
    pub pages: u32,
    /// Keys are below this, or the greatest one.
    pub keys: u64,
    /// That many processes are started between a time of mostly insertions and one of mostly deletions.
    pub season: usize,
    /// How many processes run at a time at most.
    pub crowd: usize,
    pub turns: usize,
    /// So many keys are inserted first.
    pub filled: u64,
    /// One of so many processes is to release a page, and one of so many where a page was just retired.
    pub releases: u64,
    pub releases_of_retired: u64,
}

impl Size {
    /// How many times insertions and deletions have prevailed in turn.
    fn seasons(&self, started: usize) -> usize {
        started.checked_div(self.season).unwrap_or(0)
    }
}

/// Numbers that look random, each world's its own.
#[derive(Drop)]
struct Draws {
    state: u64,
}

/// A compression above the first page from that place on which is not alone on its level.
fn compression_above(tree: &Tree, place: usize) -> Option<Job> {
    for live in tree.live.as_slice().iter().skip(place) {
        if !live.is_alone() {
            let level = u32::try_from(live.level).unwrap_or(0).min(11);
            return Some(Job::Compress(level.saturating_add(1), live.low));
        }
    }
    None
}

impl Draws {
    /// A number below the bound.
    fn below(&mut self, bound: u64) -> u64 {
        self.state = self
            .state
            .wrapping_mul(6_364_136_223_846_793_005)
            .wrapping_add(1_442_695_040_888_963_407);
        (self.state >> 33).checked_rem(bound).unwrap_or(0)
    }

    /// A number of a page below the bound.
    fn page(&mut self, bound: u64) -> u32 {
        u32::try_from(self.below(bound)).unwrap_or(0)
    }

    fn key(&mut self, keys: u64) -> u64 {
        if self.below(40) == 0 {
            u64::MAX
        } else {
            self.below(keys)
        }
    }

    fn level(&mut self) -> u32 {
        match self.below(12) {
            0 => 3,
            1 => 2,
            _ => 1,
        }
    }

    /// A post of the low of a page, by that way to draw, or of any key.
    fn post(&mut self, tree: &Tree, way: u64, keys: u64) -> Job {
        let level = self.level();
        let place = self.below(tree.live.len() as u64);
        let key = match tree.live.as_slice().get(place as usize) {
            Some(live) if way < 3 => live.low,
            _ => self.key(keys),
        };
        Job::Post(level, key)
    }

    /// A compression above some page, by that way to draw, or by any key.
    fn compression(&mut self, tree: &Tree, way: u64, keys: u64) -> Job {
        let key = self.key(keys);
        let place = self.below(tree.live.len() as u64);
        if way < 3
            && let Some(job) = compression_above(tree, place as usize)
        {
            return job;
        }
        Job::Compress(1, key)
    }

    /// A key that has a value, of that quarter of them, or any key.
    fn key_of(&mut self, tree: &Tree, keys: u64, quarter: usize) -> u64 {
        let key = self.key(keys);
        let count = tree.rows.len() / 4;
        let place = self.below((count as u64).saturating_add(1)) as usize;
        let first = count.saturating_mul(quarter % 4);
        match tree.rows.as_slice().get(first.saturating_add(place)) {
            Some(row) if self.below(8) > 0 => row.0,
            _ => key,
        }
    }

    /// An insertion, a put or a deletion, by the season. Most deletions are from one quarter of the rows, and many insertions into
    /// the one before or behind it.
    fn change(&mut self, tree: &Tree, size: &Size, started: usize) -> Job {
        let seasons = size.seasons(started);
        let quarter = (seasons / 2).wrapping_add(size.pages as usize);
        let insertions = if seasons & 1 == 0 { 15 } else { 4 };
        if self.below(16) >= insertions {
            return Job::Delete(self.key_of(tree, size.keys, quarter));
        }
        let behind = if size.crowd & 1 == 0 { 1 } else { 3 };
        let key = self.key_of(tree, size.keys, quarter.wrapping_add(behind));
        let key = key.saturating_add(self.below(3));
        let value = started as u64;
        match (self.below(2) == 0, started % 3 == 0) {
            (true, false) => Job::InsertPost(key, value),
            (false, false) => Job::Insert(key, value),
            (true, true) => Job::PutPost(key, value),
            (false, true) => Job::Put(key, value),
        }
    }

    /// A change of a key. Mostly the key has a value, and mostly the change is from that one; now and then it is to the same.
    fn change_of_value(&mut self, tree: &Tree, keys: u64, started: usize) -> Job {
        let quarter = self.below(4) as usize;
        let key = self.key_of(tree, keys, quarter);
        let old = match tree.value_at(key) {
            Some(value) if self.below(3) > 0 => value,
            _ => self.below((started as u64).saturating_add(1)),
        };
        let new = if self.below(6) == 0 {
            old
        } else {
            started as u64
        };
        Job::Change(key, old, new)
    }
}

/// The process that goes on alone for so many turns.
#[derive(Clone, Copy)]
struct Alone {
    number: usize,
    turns: u64,
}

/// What is drawn from.
#[derive(Drop)]
pub(crate) struct Lots {
    pub size: Size,
    draws: Draws,
    /// Levels and keys of hints to post, and of hints of thin pages.
    pub hints: Vec<(u32, u64)>,
    thin: Vec<(u32, u64)>,
    /// Pages that were retired and are to be released.
    pub retired: Vec<u32>,
    alone: Alone,
}

impl Lots {
    pub(crate) fn new(alloc: Global, seed: u64, size: Size) -> Lots {
        Lots {
            size,
            draws: Draws { state: seed },
            hints: Vec::new(alloc),
            thin: Vec::new(alloc),
            retired: Vec::new(alloc),
            alone: Alone {
                number: 0,
                turns: 0,
            },
        }
    }

    /// Adds what a hint names.
    pub(crate) fn meet(&mut self, hint: &Hint) -> Result<(), Law> {
        let named = (hint.level(), hint.key());
        let list = if is_to_post(hint) {
            &mut self.hints
        } else {
            &mut self.thin
        };
        add(list, named)
    }

    /// The process that goes on alone has missed its turn.
    pub(crate) fn missed(&mut self) {
        self.alone.turns = 0;
    }

    /// A new process is to start.
    pub(crate) fn starts(&mut self, crew: &Crew) -> bool {
        crew.list.len() < self.size.crowd && self.draws.below(3) == 0
    }

    /// A post of a hint, or of the low of a page, or of any key.
    fn post(&mut self, tree: &Tree) -> Job {
        let way = self.draws.below(4);
        if way < 1
            && let Some((level, key)) = self.hints.pop()
        {
            return Job::Post(level, key);
        }
        self.draws.post(tree, way, self.size.keys)
    }

    /// A compression by a hint of a thin page, or of that page and the one before, or above some page, or by any key.
    fn compression(&mut self, tree: &Tree) -> Job {
        let way = self.draws.below(4);
        if way > 0
            && let Some((level, key)) = self.thin.pop()
        {
            // the key before it is of the page to the left
            let less = if way == 1 { 1 } else { 0 };
            return Job::Compress(level, key.saturating_sub(less));
        }
        self.draws.compression(tree, way, self.size.keys)
    }

    /// A release of a page that was retired, if there is one, or of any page.
    fn release(&mut self) -> Job {
        if let Some(page) = self.retired.pop() {
            // now and then there are two of them
            if self.draws.below(4) == 0 {
                let _ = self.retired.push(page);
            }
            return Job::Reclaim(page);
        }
        Job::Reclaim(self.draws.page(self.size.pages as u64))
    }

    /// What a new process is to do.
    pub(crate) fn job(&mut self, tree: &Tree, started: usize) -> Job {
        if !self.retired.is_empty() && self.draws.below(self.size.releases_of_retired) == 0 {
            return self.release();
        }
        if tree.is_too_high() && self.draws.below(4) == 0 {
            return Job::Lower;
        }
        if !self.thin.is_empty() && self.draws.below(3) == 0 {
            return self.compression(tree);
        }
        if self.draws.below(self.size.releases) == 0 {
            return self.release();
        }
        self.job_on_tree(tree, started)
    }

    fn job_on_tree(&mut self, tree: &Tree, started: usize) -> Job {
        let key = self.draws.key(self.size.keys);
        match self.draws.below(30) {
            0..=3 => self.find(key),
            4 | 5 => self.part(key),
            6 | 7 => self.post(tree),
            8..=11 => self.compression(tree),
            12 => Job::Lower,
            13 | 14 => self.draws.change_of_value(tree, self.size.keys, started),
            _ => self.draws.change(tree, &self.size, started),
        }
    }

    /// A page to have in mind, mostly: any one, a number of no page, or the last one that was retired.
    fn page_in_mind(&mut self) -> Option<u32> {
        let page = self.draws.page((self.size.pages as u64).wrapping_add(3));
        match self.draws.below(4) {
            0 => None,
            1 => Some(self.retired.last().copied().unwrap_or(page)),
            _ => Some(page),
        }
    }

    fn find(&mut self, key: u64) -> Job {
        match self.page_in_mind() {
            Some(page) => Job::FindNear(key, page),
            None => Job::Find(key),
        }
    }

    fn part(&mut self, key: u64) -> Job {
        if self.draws.below(2) == 0 {
            return Job::PartDown(key);
        }
        match self.page_in_mind() {
            Some(page) => Job::PartNear(key, page),
            None => Job::Part(key),
        }
    }

    /// A process that runs, which now and then goes on alone for some time, or seldom any number.
    fn number(&mut self, crew: &Crew) -> usize {
        if self.alone.turns > 0 && crew.is_running(self.alone.number) {
            self.alone.turns = self.alone.turns.saturating_sub(1);
            return self.alone.number;
        }
        if self.draws.below(24) == 0 {
            return self.draws.below(crew.started.wrapping_add(3) as u64) as usize;
        }
        if self.draws.below(2) == 0
            && let Some(number) = crew.releasing()
        {
            return number;
        }
        self.number_of_running(crew)
    }

    fn number_of_running(&mut self, crew: &Crew) -> usize {
        let place = self.draws.below(crew.list.len() as u64);
        let Some(number) = crew.number_at(place as usize) else {
            return crew.started;
        };
        let turns = if self.draws.below(8) == 0 {
            self.draws.below(160)
        } else {
            0
        };
        self.alone = Alone { number, turns };
        number
    }

    /// A turn of a process that runs, or now and then of any number.
    pub(crate) fn turn(&mut self, crew: &Crew, twins: &Twins) -> Turn {
        let number = self.number(crew);
        let page = self.draws.page((self.size.pages as u64).wrapping_add(3));
        if twins.is_reserving(number) && self.draws.below(8) == 0 {
            return Turn::Refuse(number);
        }
        match self.draws.below(32) {
            0 => Turn::Refuse(number),
            1 | 2 => Turn::Take(number, page),
            3 | 4 => Turn::Step(number),
            5 | 6 => twins.turn_of(number, Some(page)),
            _ => twins.turn_of(number, None),
        }
    }
}
