//! Small worlds with processes of all kinds, in an order of turns that is drawn by lot. After each turn the laws of the tree
//! are checked by plain walks over the pages, apart from all definitions and proofs.

use crate::draws::{Lots, Size};
use bl_model::{Next, Op, PlainMap, Reply};
use bl_page::Page;
use bl_proc::Answer;
use bl_world::{Act, Event, Owner, Turn};
use std::alloc::Global;
use test_world_running::{Job, Running, hint_of};
use test_world_walks::{
    Fresh, Law, Lists, Moment, Tree, add, found, holds, is_same_page, keep, leads_back, walked,
};
use test_world_watched::{
    Crew, NONE, Tally, Twins, change_of, goes_on, held_page, keeps_owners, lists_first, lists_own,
    lowers, number_of, one_more, owns, page_of, parts, puts_in_compression,
};

/// What stands in a world, as the events so far have left it.
#[derive(Drop)]
struct Standing {
    map: PlainMap,
    tree: Tree,
    moment: Moment,
    /// All pages, as the last put has left them.
    pages: Vec<Page>,
    /// Pages that were released.
    released: Vec<u32>,
}

/// A world under test.
#[derive(Drop)]
struct Trial {
    twins: Twins,
    crew: Crew,
    lots: Lots,
    standing: Standing,
    tally: Tally,
}

/// Adds rows of the map from that key on. The key from which there are more.
fn add_part(map: &mut PlainMap, from: u64, rows: &mut Vec<(u64, u64)>) -> Result<Option<u64>, Law> {
    let reply = found!(map.apply(&Op::Part(from)).ok(), "there is memory");
    let Reply::Rows(part, next) = &reply else {
        return Err("a part is answered by rows");
    };
    for row in part.as_slice() {
        add(rows, *row)?;
    }
    Ok(match next {
        Next::More(key) => Some(*key),
        Next::End => None,
    })
}

/// Adds all rows of the map.
fn add_rows(map: &mut PlainMap, rows: &mut Vec<(u64, u64)>) -> Result<(), Law> {
    let mut from = 0;
    for _ in 0..1000 {
        match add_part(map, from, rows)? {
            Some(key) => from = key,
            None => return Ok(()),
        }
    }
    Err("a map has an end")
}

/// The map has the rows of this tree.
fn has_rows_of(alloc: Global, map: &mut PlainMap, tree: &Tree) -> Result<(), Law> {
    let mut rows = Vec::new(alloc);
    add_rows(map, &mut rows)?;
    let same = rows.as_slice() == tree.rows.as_slice();
    holds(same, "the leaves have the rows of the map")
}

/// The rows have changed to those of this tree, by what the process has done.
fn changed(running: &mut Running, map: &mut PlainMap, act: Act, tree: &Tree) -> Result<(), Law> {
    let op = change_of(running, act, tree)?;
    let reply = found!(map.apply(&op).ok(), "there is memory");
    keep!(running.own.is_none(), "a process changes rows once");
    running.own = Some(Answer::Op(reply, None));
    Ok(())
}

/// A compression that has put all has done so as the pages show, and what it is to answer is known.
fn has_compressed(
    alloc: Global,
    running: &mut Running,
    lists: &Lists,
    tree: &Tree,
    tally: &mut Tally,
) -> Result<(), Law> {
    if let Some(compression) = &running.compression
        && compression.puts == 3
    {
        compression.is_done(alloc, lists, tree)?;
        running.own = Some(compression.answer_in(tree)?);
        tally.compressed(compression);
    }
    Ok(())
}

/// Adds copies of the pages.
fn add_copies(pages: &[Page], copies: &mut Vec<Page>) -> Result<(), Law> {
    for page in pages {
        add(copies, page.copied())?;
    }
    Ok(())
}

/// A page as the last put has left it, which an event has put or has not changed.
fn keeps_page(old: &mut Page, page: &Page, is_put: bool) -> Result<(), Law> {
    if is_put {
        *old = page.copied();
        return Ok(());
    }
    holds(is_same_page(page, old), "only a put changes pages")
}

/// No page has changed but the one that an event puts.
fn keeps_pages(old: &mut [Page], pages: &[Page], act: Act) -> Result<(), Law> {
    keep!(
        pages.len() == old.len(),
        "there are as many pages as before"
    );
    for (at, old) in old.iter_mut().enumerate() {
        let page = found!(pages.get(at), "there are as many pages as before");
        keeps_page(old, page, puts_at(act, at))?;
    }
    Ok(())
}

/// The act is a put of the page at that place.
fn puts_at(act: Act, at: usize) -> bool {
    match act {
        Act::Put(page) => page as usize == at,
        _ => false,
    }
}

impl Standing {
    fn new(alloc: Global, lists: &Lists) -> Result<Standing, Law> {
        let moment = Moment {
            fresh: Vec::new(alloc),
            compressing: Vec::new(alloc),
        };
        let tree = walked(alloc, lists, &moment)?;
        let mut standing = Standing {
            map: PlainMap::new(alloc),
            tree,
            moment,
            pages: Vec::new(alloc),
            released: Vec::new(alloc),
        };
        add_copies(lists.pages.as_slice(), &mut standing.pages)?;
        Ok(standing)
    }

    /// The process has put a page that names its fresh one, which is of the tree from then on.
    fn names_fresh(&mut self, number: usize, page: u32) -> Option<u32> {
        let named = self.moment.named_by(number, page);
        if named.is_some() {
            self.moment
                .fresh
                .retain(|fresh| fresh.holder != number || fresh.named_by != page);
        }
        named
    }

    /// The process has taken a page, while it held one. Whether the page was released before.
    fn takes(&mut self, holder: usize, page: u32, before: &[Owner]) -> Result<bool, Law> {
        let named_by = held_page(holder, before)?;
        let fresh = Fresh {
            page,
            holder,
            named_by,
        };
        add(&mut self.moment.fresh, fresh)?;
        Ok(self.was_released(page))
    }

    fn was_released(&self, page: u32) -> bool {
        for released in self.released.as_slice() {
            if *released == page {
                return true;
            }
        }
        false
    }

    /// No process may still read a page that is released.
    fn is_released(&mut self, crew: &Crew, page: u32, before: &[Owner]) -> Result<(), Law> {
        if let Some(Owner::Retired(place)) = before.get(page as usize).copied()
            && crew.is_read(place)
        {
            return Err("no page is released that may be read");
        }
        add(&mut self.released, page)
    }

    /// Dead pages that may be read lead to live ones.
    fn dead_pages_lead_back(&self, lists: &Lists, crew: &Crew) -> Result<(), Law> {
        for (at, owner) in lists.owners.as_slice().iter().enumerate() {
            if let Owner::Retired(place) = owner
                && crew.is_read(*place)
            {
                let page = found!(u32::try_from(at).ok(), "a page has a number");
                leads_back(lists, &self.tree, page)?;
            }
        }
        Ok(())
    }
}

impl Trial {
    fn new(alloc: Global, seed: u64, size: Size) -> Result<Trial, Law> {
        let twins = Twins::open(alloc, size.pages)?;
        let standing = Standing::new(alloc, twins.lists())?;
        Ok(Trial {
            twins,
            crew: Crew::new(alloc),
            lots: Lots::new(alloc, seed, size),
            standing,
            tally: NONE,
        })
    }

    fn start(&mut self, alloc: Global, job: Job) -> Result<(), Law> {
        let number = self.twins.enter(job)?;
        self.crew.start(alloc, number, job)
    }

    /// A post lists its key now; a compression has put all; and a page was split from the one that was put.
    fn has_put(
        &mut self,
        alloc: Global,
        event: Event,
        tree: &Tree,
        named: Option<u32>,
    ) -> Result<(), Law> {
        let Some(running) = self.crew.of(event.process) else {
            return Ok(());
        };
        lists_first(running, &self.standing.tree, tree);
        lists_own(running, &self.standing.tree, tree);
        if let Act::Put(page) = event.act {
            lowers(running, page, &self.standing.tree, tree)?;
        }
        if event.act != Act::Put(0) {
            parts(running, tree, named)?;
            self.tally.split_by(running, named);
        }
        has_compressed(alloc, running, self.twins.lists(), tree, &mut self.tally)
    }

    /// The rows have changed to those of this tree by that event, and the map has them too.
    fn has_changed(&mut self, alloc: Global, event: Event, tree: &Tree) -> Result<(), Law> {
        let running = self.crew.of(event.process);
        let running = found!(running, "only a running process changes rows");
        changed(running, &mut self.standing.map, event.act, tree)?;
        has_rows_of(alloc, &mut self.standing.map, tree)
    }

    /// The tree may be this one, after that event, by which a fresh page may have come to be named.
    fn goes_to(
        &mut self,
        alloc: Global,
        event: Event,
        tree: &Tree,
        named: Option<u32>,
    ) -> Result<(), Law> {
        let puts = matches!(event.act, Act::Put(_));
        let old = &self.standing.tree;
        keep!(puts || tree.is_as(old), "only a put changes pages");
        if tree.rows.as_slice() != old.rows.as_slice() {
            self.has_changed(alloc, event, tree)?;
        }
        if puts {
            self.has_put(alloc, event, tree, named)
        } else {
            Ok(())
        }
    }

    /// The tree has changed: what is a right answer now is noted, and each key and each dead page still leads to its leaf.
    fn looks_on(&mut self) -> Result<(), Law> {
        let tree = &self.standing.tree;
        self.crew.look(tree)?;
        self.twins.all_descend(tree, self.lots.size.keys)?;
        self.standing
            .dead_pages_lead_back(self.twins.lists(), &self.crew)
    }

    /// What stands on the pages after that event.
    fn walked_to(&mut self, alloc: Global, event: Event, named: Option<u32>) -> Result<Tree, Law> {
        let tree = walked(alloc, self.twins.lists(), &self.standing.moment)?;
        self.goes_to(alloc, event, &tree, named)?;
        Ok(tree)
    }

    /// The same, as it stands from then on.
    fn went_to(&mut self, alloc: Global, event: Event, named: Option<u32>) -> Result<(), Law> {
        let tree = self.walked_to(alloc, event, named)?;
        self.crew.evens(&tree);
        self.tally.meet_levels(tree.levels);
        self.standing.tree = tree;
        if matches!(event.act, Act::Put(_)) {
            self.looks_on()
        } else {
            Ok(())
        }
    }

    /// What a put does in a compression, and the fresh page that it names.
    fn puts(&mut self, alloc: Global, number: usize, page: u32) -> Result<Option<u32>, Law> {
        let standing = &mut self.standing;
        if let Some(running) = self.crew.of(number) {
            let compressing = &mut standing.moment.compressing;
            puts_in_compression(alloc, running, &standing.tree, page, compressing)?;
        }
        Ok(standing.names_fresh(number, page))
    }

    /// What an event that puts nothing does beside the tree, and who may do it.
    fn goes_after(&mut self, act: Act, number: usize, before: &[Owner]) -> Result<(), Law> {
        match act {
            Act::Take(page) => self.takes(number, page, before),
            Act::Retire(page) => add(&mut self.lots.retired, page),
            Act::Latch(_) => self.crew.latches(number, before),
            Act::Release(page) => self.standing.is_released(&self.crew, page, before),
            Act::Look(other) => {
                self.looks_at(number, other);
                Ok(())
            }
            Act::Get(page) => {
                self.gets(page);
                Ok(())
            }
            Act::See(page) => {
                self.sees(number, page, before);
                Ok(())
            }
            _ => Ok(()),
        }
    }

    fn takes(&mut self, number: usize, page: u32, before: &[Owner]) -> Result<(), Law> {
        if self.standing.takes(number, page, before)? {
            one_more(&mut self.tally.pages.taken_again);
        }
        Ok(())
    }

    fn looks_at(&mut self, number: usize, other: usize) {
        if self.crew.looks_at(number, other) {
            one_more(&mut self.tally.pages.read);
        }
    }

    fn sees(&mut self, number: usize, page: u32, before: &[Owner]) {
        let owner = before.get(page as usize).copied();
        let held = self.standing.pages.as_slice().get(page as usize);
        if let Some(running) = self.crew.of(number) {
            self.tally.looked(running.job, owner, held);
        }
    }

    fn gets(&mut self, page: u32) {
        if self.twins.lists().dead(page).is_some() {
            one_more(&mut self.tally.pages.dead_pages_got);
        }
    }

    /// Processes that have answered run no more.
    fn judge(&mut self, number: usize) -> Result<(), Law> {
        for place in 0..self.crew.list.len() {
            if self.has_answered(place, number)? {
                if place < self.crew.list.len() {
                    self.crew.list.remove(place);
                }
                return Ok(());
            }
        }
        Ok(())
    }

    /// Whether the running process at that place has answered, which only the one with that number may have.
    fn has_answered(&mut self, place: usize, number: usize) -> Result<bool, Law> {
        let running = self.crew.list.as_slice().get(place);
        let running = found!(running, "who runs has a place");
        let Some(answer) = self.twins.answer(running.number) else {
            goes_on(running)?;
            return Ok(false);
        };
        keep!(
            running.number == number,
            "a process answers in its own turn"
        );
        answered(running, answer, &mut self.lots, &mut self.tally)?;
        Ok(true)
    }

    /// One turn, and all that is to hold after it.
    fn give(&mut self, alloc: Global, turn: Turn) -> Result<(), Law> {
        let number = number_of(turn);
        if number == 0 || number > self.crew.started {
            return self.twins.gives_nobody(turn);
        }
        if matches!(turn, Turn::Refuse(_)) && self.twins.is_reserving(number) {
            self.crew.is_refused(number);
        }
        let before = Vec::from_slice(alloc, self.twins.owners());
        let before = found!(before.ok(), "there is memory");
        self.takes_turn(alloc, turn, before.as_slice())
    }

    /// A turn of a process that was started, before which these were the owners.
    fn takes_turn(&mut self, alloc: Global, turn: Turn, before: &[Owner]) -> Result<(), Law> {
        let event = self.twins.run(turn)?;
        self.keeps_owners(event, before)?;
        self.note(turn, event.act, before)?;
        self.went_on(alloc, event, before)?;
        self.judge(event.process)?;
        self.crew.holds_all(self.twins.owners())
    }

    /// The owners are right after the last event.
    fn keeps_owners(&self, event: Event, before: &[Owner]) -> Result<(), Law> {
        let place = self.twins.events().wrapping_sub(1);
        let page = page_of(event.act);
        owns(
            event,
            place,
            owner_in(before, page),
            self.twins.owner_of(page),
        )?;
        keeps_owners(self.twins.owners(), before, page)
    }

    /// What a process has done in this turn by the last event.
    fn note(&mut self, turn: Turn, act: Act, before: &[Owner]) -> Result<(), Law> {
        let place = self.twins.events().wrapping_sub(1);
        let old = owner_in(before, page_of(act));
        if self.crew.note(turn, act, place, old)? {
            one_more(&mut self.tally.waits);
        }
        if act == Act::Miss {
            self.lots.missed();
        }
        Ok(())
    }

    /// What the last event has done to the pages and the tree.
    fn went_on(&mut self, alloc: Global, event: Event, before: &[Owner]) -> Result<(), Law> {
        let mut named = None;
        if let Act::Put(page) = event.act {
            named = self.puts(alloc, event.process, page)?;
        } else {
            self.goes_after(event.act, event.process, before)?;
        }
        let pages = self.twins.lists().pages.as_slice();
        keeps_pages(self.standing.pages.as_mut_slice(), pages, event.act)?;
        self.changes_tree(alloc, event, named)
    }

    /// What stands on the pages after an event that changes pages or owners, or what a process sees that begins.
    fn changes_tree(&mut self, alloc: Global, event: Event, named: Option<u32>) -> Result<(), Law> {
        match event.act {
            Act::Put(_) | Act::Open(_) | Act::Take(_) | Act::Retire(_) | Act::Release(_) => {
                self.went_to(alloc, event, named)
            }
            Act::Begin => self.crew.looks_from(event.process, &self.standing.tree),
            _ => Ok(()),
        }
    }

    /// The next turn of the first process that runs, or of the one at that place. Whether there is one.
    fn goes_on(&mut self, alloc: Global, place: usize) -> Result<bool, Law> {
        let Some(number) = self.crew.number_at(place) else {
            return Ok(false);
        };
        let turn = self.twins.turn_of(number, None);
        self.give(alloc, turn)?;
        Ok(true)
    }

    /// A process that is alone, up to its answer.
    fn carry_out(&mut self, alloc: Global, job: Job) -> Result<(), Law> {
        self.start(alloc, job)?;
        for _ in 0..100 {
            if !self.goes_on(alloc, 0)? {
                return Ok(());
            }
        }
        Err("a process that is alone answers")
    }

    /// Posts what was split.
    fn post(&mut self, alloc: Global) -> Result<(), Law> {
        for _ in 0..12 {
            if let Some((level, key)) = self.lots.hints.pop() {
                self.carry_out(alloc, Job::Post(level, key))?;
            }
        }
        Ok(())
    }

    /// Inserts even keys in rising order, and posts what they part, where they do not so themselves.
    fn fill(&mut self, alloc: Global) -> Result<(), Law> {
        for count in 0..self.lots.size.filled {
            let key = count.saturating_mul(2);
            let job = if count % 3 == 0 {
                Job::Insert(key, count)
            } else {
                Job::InsertPost(key, count)
            };
            self.carry_out(alloc, job)?;
            self.post(alloc)?;
        }
        Ok(())
    }

    /// Reads each leaf by a part of the map, so that the world shows what stands on its own pages in the end.
    fn read_all(&mut self, alloc: Global) -> Result<(), Law> {
        for place in 0..self.standing.tree.live.len() {
            if let Some(low) = self.standing.tree.low_of_leaf(place) {
                self.carry_out(alloc, Job::Part(low))?;
            }
        }
        Ok(())
    }

    /// A turn that is drawn, and now and then a process that starts before it.
    fn play_turn(&mut self, alloc: Global) -> Result<(), Law> {
        if self.lots.starts(&self.crew) {
            let job = self.lots.job(&self.standing.tree, self.crew.started);
            self.start(alloc, job)?;
        }
        let turn = self.lots.turn(&self.crew, &self.twins);
        self.give(alloc, turn)
    }

    /// Turns for all that run until each has answered.
    fn end(&mut self, alloc: Global) -> Result<(), Law> {
        for round in 0..10_000usize {
            let place = round.checked_rem(self.crew.list.len()).unwrap_or(0);
            if !self.goes_on(alloc, place)? {
                return self.read_all(alloc);
            }
        }
        Err("each process answers in the end")
    }

    /// All turns of a world, and then turns for all that run.
    fn play(&mut self, alloc: Global) -> Result<(), Law> {
        self.fill(alloc)?;
        for _ in 0..self.lots.size.turns {
            self.play_turn(alloc)?;
        }
        self.end(alloc)
    }
}

/// The owner of that page in a list of them.
fn owner_in(owners: &[Owner], page: Option<u32>) -> Option<Owner> {
    owners.get(page? as usize).copied()
}

/// A running process has answered, as it may, perhaps with a hint.
fn answered(
    running: &Running,
    answer: Answer,
    lots: &mut Lots,
    tally: &mut Tally,
) -> Result<(), Law> {
    if running.missed {
        one_more(&mut tally.pages.missed);
    }
    tally.answered(running.job, &answer);
    let hint = hint_of(&answer);
    if let Some(hint) = &hint {
        tally.hinted(&answer, hint);
    }
    running.judge(answer)?;
    match &hint {
        Some(hint) => lots.meet(hint),
        None => Ok(()),
    }
}

/// The first broken law of that world, and after how many events. What was met is added up.
fn broken(alloc: Global, seed: u64, size: Size, tally: &mut Tally) -> Option<(usize, Law)> {
    let mut trial = match Trial::new(alloc, seed, size) {
        Ok(trial) => trial,
        Err(law) => return Some((0, law)),
    };
    trial.tally = *tally;
    match trial.play(alloc) {
        Ok(()) => {
            *tally = trial.tally;
            None
        }
        Err(law) => Some((trial.twins.events(), law)),
    }
}

/// A small world, whose number of pages and of processes the seed gives.
fn small(seed: u64) -> Size {
    let pages = 4 + (seed % 9) as u32;
    Size {
        pages,
        keys: 72,
        season: 40,
        crowd: 2 + (seed % 7) as usize,
        turns: 800,
        filled: 14 + 3 * u64::from(pages),
        releases: 48,
        releases_of_retired: 3,
    }
}

const WIDE: Size = Size {
    pages: 48,
    keys: 320,
    season: 170,
    crowd: 6,
    turns: 3500,
    filled: 150,
    releases: 500,
    releases_of_retired: 40,
};

// Each kind of answer was met, pages were merged and evened both ways, dead pages were read, and pages came back.
#[test]
fn small_worlds_keep_the_laws(rt: HostRuntime) {
    let mut tally = NONE;
    for seed in 0..600u64 {
        let law = broken(rt.alloc(), seed, small(seed), &mut tally);
        assert_eq!(rt; law, None, "world {seed}");
    }
    assert!(rt; tally.is_of_small_worlds(), "{tally:?}");
}

// Pages above the leaves were split, merged, evened and left thin.
#[test]
fn wide_worlds_keep_the_laws(rt: HostRuntime) {
    let mut tally = NONE;
    for seed in 0..3u64 {
        let law = broken(rt.alloc(), seed, WIDE, &mut tally);
        assert_eq!(rt; law, None, "world {seed}");
    }
    assert!(rt; tally.is_of_wide_worlds(), "{tally:?}");
}
