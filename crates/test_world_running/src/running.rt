//! Processes that run, and what they may do and answer.

use crate::compressions::{Compression, rights_of};
use bl_model::Reply;
use bl_proc::{Answer, Hint, Lowered, Posted, Reclaimed, Squeezed};
use bl_world::{Act, Owner, Turn};
use std::alloc::Global;
use test_world_walks::{Law, Tree, add, holds, keep};

/// What a process is to do.
#[derive(Clone, Copy)]
pub enum Job {
    Find(u64),
    /// A search of that key that has a page in mind.
    FindNear(u64, u32),
    Insert(u64, u64),
    /// An insertion that posts what it splits.
    InsertPost(u64, u64),
    Put(u64, u64),
    /// A put that posts what it splits.
    PutPost(u64, u64),
    Delete(u64),
    /// A change of that key from the one value to the other.
    Change(u64, u64, u64),
    Post(u32, u64),
    Part(u64),
    /// A part from that key on that has a page in mind.
    PartNear(u64, u32),
    /// A part from that key on downwards.
    PartDown(u64),
    Compress(u32, u64),
    Reclaim(u32),
    Lower,
}

impl Job {
    /// It posts what it splits.
    pub fn is_posting(self) -> bool {
        matches!(self, Job::InsertPost(_, _) | Job::PutPost(_, _))
    }
}

/// A process that has not answered.
#[derive(Drop)]
pub struct Running {
    pub number: usize,
    pub job: Job,
    /// The event by which it began.
    pub begun: Option<usize>,
    /// Something that it was about to reserve was refused.
    pub refused: bool,
    /// What it is to answer, since it has changed the tree.
    pub own: Option<Answer>,
    /// The low of the leaf that its deletion left thin.
    pub thin: Option<u64>,
    /// The level and the low of the page that it has split from another one.
    pub split: Option<(usize, u64)>,
    /// The same of one that an insertion has listed itself.
    pub listed: Option<(usize, u64)>,
    /// It compresses, and has put a page.
    pub compression: Option<Compression>,
    /// Its children have shown that it is in the middle of an evening.
    pub evens: bool,
    /// The pages that it has put, of a process that takes the top level away.
    pub sunk: Vec<u32>,
    /// It has retired a page.
    pub retired: bool,
    /// It is to release a page, and the owner that it has seen; how many processes had been started then; and the process at
    /// which it is to look next.
    pub saw: Option<Owner>,
    pub started: usize,
    pub looks: usize,
    /// It has looked at a process that may read its page; its release missed; it has released its page.
    pub blocked: bool,
    pub missed: bool,
    pub released: bool,
    /// What was a right answer of an unchanged tree at some moment since it began.
    pub right: Vec<Answer>,
}

/// What is right of an operation on a key with that value, if it changes nothing.
fn reply_in(job: Job, value: Option<u64>) -> Option<Reply> {
    match (job, value) {
        (Job::Find(_) | Job::FindNear(_, _), Some(value)) => Some(Reply::Found(value)),
        (Job::Find(_) | Job::FindNear(_, _) | Job::Delete(_) | Job::Change(_, _, _), None) => Some(
            Reply::Absent,
        ),
        (Job::Insert(_, _) | Job::InsertPost(_, _), Some(value)) => Some(Reply::Present(value)),
        (Job::Change(_, old, _), Some(value)) if value != old => Some(Reply::Differs(value)),
        // it puts the value that is there
        (Job::Put(_, new) | Job::PutPost(_, new), Some(old)) if old == new => Some(Reply::Replaced(
            old,
        )),
        (Job::Change(_, old, new), Some(_)) if old == new => Some(Reply::Changed),
        _ => None,
    }
}

/// What is right of a post in this tree, if it changes nothing.
fn posted_in(tree: &Tree, level: usize, key: u64) -> Option<Posted> {
    if tree.lists(level, key) {
        Some(Posted::Already)
    } else if tree.has_low(level.wrapping_sub(1), key) {
        None
    } else {
        Some(Posted::Stale)
    }
}

/// Adds what are right answers of a part in this tree.
fn rights_of_part(tree: &Tree, from: u64, right: &mut Vec<Answer>) -> Result<(), Law> {
    for live in tree.live.as_slice() {
        if live.level == 0 && live.covers(from) {
            add(right, Answer::Op(tree.part_from(from, live), None))?;
        }
    }
    Ok(())
}

/// The same of a part downwards.
fn rights_of_part_down(tree: &Tree, from: u64, right: &mut Vec<Answer>) -> Result<(), Law> {
    for live in tree.live.as_slice() {
        if live.level == 0 && live.covers(from) {
            add(right, Answer::Op(tree.part_down(from, live), None))?;
        }
    }
    Ok(())
}

/// Adds what are right answers in this tree, of a process that changes nothing.
fn rights_in(tree: &Tree, job: Job, right: &mut Vec<Answer>) -> Result<(), Law> {
    match job {
        Job::Find(key)
        | Job::FindNear(key, _)
        | Job::Insert(key, _)
        | Job::InsertPost(key, _)
        | Job::Put(key, _)
        | Job::PutPost(key, _)
        | Job::Delete(key)
        | Job::Change(key, _, _) => {
            match reply_in(job, tree.value_at(key)) {
                Some(reply) => add(right, Answer::Op(reply, None)),
                None => Ok(()),
            }
        }
        Job::Part(from) | Job::PartNear(from, _) => rights_of_part(tree, from, right),
        Job::PartDown(from) => rights_of_part_down(tree, from, right),
        // it looks at owners, not at the tree
        Job::Reclaim(_) => Ok(()),
        Job::Compress(level, key) => rights_of(tree, level, key, right),
        Job::Lower => {
            if tree.is_too_high() {
                return Ok(());
            }
            add(right, Answer::Lower(Lowered::Needed))
        }
        Job::Post(level, key) => match posted_in(tree, level as usize, key) {
            Some(posted) => add(right, Answer::Post(posted, None)),
            None => Ok(()),
        },
    }
}

/// Whether the answer at that place is that before it.
fn repeats(answers: &[Answer], place: usize) -> bool {
    place > 0 && answers.get(place) == answers.get(place.wrapping_sub(1))
}

/// The answer, of an operation or a post without its hint, and of an insertion without its posts.
fn without_hint(answer: Answer) -> Answer {
    match answer {
        Answer::Op(reply, _) => Answer::Op(reply, None),
        Answer::Post(posted, _) => Answer::Post(posted, None),
        Answer::Compress(squeezed, hint) => Answer::Compress(squeezed, hint),
        Answer::Reclaim(what) => Answer::Reclaim(what),
        Answer::Lower(what) => Answer::Lower(what),
        Answer::InsertPost(reply, _, _) => Answer::Op(reply, None),
    }
}

/// The hint that an answer leaves.
pub fn hint_of(answer: &Answer) -> Option<Hint> {
    match answer {
        Answer::Op(_, hint) => *hint,
        Answer::Post(_, hint) => *hint,
        Answer::Compress(_, hint) => *hint,
        Answer::InsertPost(_, _, hint) => *hint,
        Answer::Reclaim(_) | Answer::Lower(_) => None,
    }
}

/// The hint names a page that its parent does not list yet.
pub fn is_to_post(hint: &Hint) -> bool {
    match hint {
        Hint::Post { .. } => true,
        Hint::Thin { .. } => false,
    }
}

fn is_no_room(answer: &Answer) -> bool {
    match answer {
        Answer::Op(reply, _) => *reply == Reply::NoRoom,
        Answer::Post(posted, _) => *posted == Posted::NoRoom,
        Answer::Compress(squeezed, _) => *squeezed == Squeezed::NoRoom,
        Answer::Lower(what) => *what == Lowered::NoRoom,
        Answer::Reclaim(_) => false,
        Answer::InsertPost(reply, _, _) => *reply == Reply::NoRoom,
    }
}

fn is_retired(owner: Option<Owner>) -> bool {
    matches!(owner, Some(Owner::Retired(_)))
}

impl Running {
    /// A process that has that number and is to begin.
    pub fn new(alloc: Global, number: usize, job: Job) -> Running {
        Running {
            number,
            job,
            begun: None,
            refused: false,
            own: None,
            thin: None,
            split: None,
            listed: None,
            compression: None,
            evens: false,
            sunk: Vec::new(alloc),
            retired: false,
            saw: None,
            started: 0,
            looks: 0,
            blocked: false,
            missed: false,
            released: false,
            right: Vec::new(alloc),
        }
    }

    /// Adds what is a right answer now.
    pub fn look(&mut self, tree: &Tree) -> Result<(), Law> {
        if self.begun.is_none() {
            return Ok(());
        }
        let before = self.right.len();
        self.look_for_own(tree)?;
        // the same as the last one need not stand there twice
        if self.right.len() == before.saturating_add(1) && repeats(self.right.as_slice(), before) {
            self.right.pop();
        }
        Ok(())
    }

    /// Of a write that posts and has split a page, what is right of its post; else of its job.
    fn look_for_own(&mut self, tree: &Tree) -> Result<(), Law> {
        if self.job.is_posting()
            && let Some((level, key)) = self.split
        {
            return match posted_in(tree, level, key) {
                Some(posted) => add(&mut self.right, Answer::Post(posted, None)),
                None => Ok(()),
            };
        }
        rights_in(tree, self.job, &mut self.right)
    }

    /// It has done this in its turn by the event at that place, and that was the owner of the page that the event names.
    pub fn note(
        &mut self,
        turn: Turn,
        act: Act,
        place: usize,
        owner: Option<Owner>,
    ) -> Result<(), Law> {
        if let Job::Reclaim(page) = self.job {
            return self.note_of_page(page, turn, act, owner);
        }
        match act {
            Act::Begin => {
                keep!(self.begun.is_none(), "a process begins once");
                self.begun = Some(place);
                Ok(())
            }
            Act::See(at) => {
                let is_near =
                    matches!(self.job, Job::FindNear(_, page) | Job::PartNear(_, page) if page == at);
                let begun = self.begun.map(|begun| begun < place);
                holds(
                    is_near && begun == Some(true),
                    "who sees a page is to release it, or has begun with that in mind",
                )
            }
            Act::Look(_) | Act::Release(_) => Err("who looks is to release a page"),
            Act::Retire(page) => {
                self.retired = true;
                let is_own = match &self.compression {
                    Some(compression) => compression.retires(page),
                    None => self.sunk.len() == 2 && self.sunk.as_slice().last() == Some(&page),
                };
                holds(
                    is_own,
                    "who has merged or lowered retires the dead page, and nobody else",
                )
            }
            _ => Ok(()),
        }
    }

    /// It is to release this page, and has done this in its turn.
    fn note_of_page(
        &mut self,
        page: u32,
        turn: Turn,
        act: Act,
        owner: Option<Owner>,
    ) -> Result<(), Law> {
        let may_release = is_retired(self.saw) && !self.blocked && !self.missed;
        let has_looked = self.looks > self.started;
        match act {
            Act::See(at) => {
                keep!(at == page, "who is to release a page sees that page");
                keep!(self.saw.is_none(), "a page is seen once");
                self.saw = owner;
                Ok(())
            }
            Act::Look(number) => {
                keep!(may_release, "who looks has seen a retired page");
                holds(
                    number == self.looks,
                    "each process is looked at, by rising number",
                )
            }
            Act::Release(at) => {
                self.released = true;
                keep!(
                    may_release && has_looked && at == page,
                    "who releases a page has seen it retired, and looked at all"
                );
                holds(
                    owner == self.saw,
                    "a page is released from the retirement that was seen",
                )
            }
            Act::Miss => {
                if matches!(turn, Turn::Step(_)) {
                    keep!(may_release && has_looked, "a release alone is missed");
                    self.missed = true;
                }
                Ok(())
            }
            _ => Err("who is to release a page does nothing else"),
        }
    }

    /// It has come to the number at which it is to look next.
    pub fn looks_on(&mut self) {
        self.looks = self.looks.saturating_add(1);
        if self.looks == self.number {
            self.looks = self.looks.saturating_add(1);
        }
    }

    /// It has answered that this became of its page.
    fn judge_of_page(&self, what: Reclaimed) -> Result<(), Law> {
        keep!(self.saw.is_some(), "who answers for a page has seen it");
        if what == Reclaimed::Released {
            return holds(self.released, "who has released a page says so");
        }
        holds(
            !self.released && (!is_retired(self.saw) || self.blocked || self.missed),
            "a page is kept that is not retired, or may be read, or was released before",
        )
    }

    /// It has answered with this hint, or none.
    fn judge_hint(&self, hint: Option<Hint>) -> Result<(), Law> {
        let Some(hint) = hint else {
            keep!(self.split.is_none(), "who parts a page hints so");
            return holds(self.thin.is_none(), "who leaves a leaf thin hints so");
        };
        keep!(self.own.is_some(), "who hints has changed a page");
        if is_to_post(&hint) {
            let named = Some((hint.level() as usize, hint.key()));
            return holds(
                named == self.split,
                "a hint to post names the page that was parted",
            );
        }
        keep!(hint.level() == 1, "the parent of a thin leaf is of level 1");
        holds(
            self.thin == Some(hint.key()),
            "a hint of a thin leaf names its low",
        )
    }

    /// It has answered this, of a compression.
    fn judge_of_children(&self, what: Squeezed) -> Result<(), Law> {
        let puts = match &self.compression {
            Some(compression) => compression.puts,
            None => 0,
        };
        let has_put = what == Squeezed::Merged || what == Squeezed::Evened;
        keep!(
            puts == if has_put { 3 } else { 0 },
            "a compression is done whole"
        );
        keep!(
            !self.evens || what == Squeezed::Evened,
            "a child begins before its key in an evening alone"
        );
        holds(
            self.retired == (what == Squeezed::Merged),
            "a merge retires the dead page",
        )
    }

    /// A process that takes the top level away has put this page, which led to this tree: first the anchor, of a level less than
    /// before, and then the page that was the top.
    pub fn sinks(&mut self, page: u32, before: &Tree, tree: &Tree) -> Result<(), Law> {
        if self.sunk.is_empty() {
            keep!(page == 0, "who lowers puts the anchor first");
            keep!(
                before.is_too_high(),
                "who lowers takes a level that is not needed"
            );
            keep!(
                before.levels == tree.levels.saturating_add(1),
                "who lowers takes one level"
            );
        } else {
            let was = before.live_at(page).map(|live| live.level);
            keep!(
                was == Some(tree.levels) && tree.live_at(page).is_none(),
                "who lowers puts the page dead that was the top"
            );
            self.own = Some(Answer::Lower(Lowered::Lowered));
        }
        add(&mut self.sunk, page)
    }

    /// It has answered this, of the height.
    fn judge_of_height(&self, what: Lowered) -> Result<(), Law> {
        let puts = self.sunk.len();
        let has_put = what == Lowered::Lowered;
        keep!(
            puts == if has_put { 2 } else { 0 },
            "a lowering is done whole"
        );
        holds(self.retired == has_put, "a lowering retires the dead page")
    }

    /// It has answered that this became of the last post of its insertion, and has left this hint.
    fn judge_posts(&self, last: Option<Posted>, hint: Option<Hint>) -> Result<(), Law> {
        let Some(posted) = last else {
            keep!(hint.is_none(), "who has split nothing leaves no post");
            return holds(
                self.split.is_none() && self.listed.is_none(),
                "who has split a page posts it",
            );
        };
        self.judge_left(posted, hint)?;
        match posted {
            Posted::Done => holds(
                self.split.is_none() && self.listed.is_some(),
                "who has posted has listed what it split",
            ),
            Posted::NoRoom => holds(self.refused, "who has no room was refused"),
            _ => self.was_right(&Answer::Post(posted, None)),
        }
    }

    /// Its last post, of which this became, is left where it met no room, and only there.
    fn judge_left(&self, posted: Posted, hint: Option<Hint>) -> Result<(), Law> {
        let Some(hint) = hint else {
            return holds(
                posted != Posted::NoRoom,
                "a post that met no room is left as a hint",
            );
        };
        keep!(
            posted == Posted::NoRoom && is_to_post(&hint),
            "only a post that met no room is left"
        );
        holds(
            Some((hint.level() as usize, hint.key())) == self.split,
            "the post that is left is of the page that was split",
        )
    }

    /// It has answered this.
    pub fn judge(&self, answer: Answer) -> Result<(), Law> {
        match &answer {
            Answer::Reclaim(what) => return self.judge_of_page(*what),
            Answer::Compress(what, _) => self.judge_of_children(*what)?,
            Answer::Lower(what) => self.judge_of_height(*what)?,
            Answer::InsertPost(_, last, hint) => self.judge_posts(*last, *hint)?,
            _ => self.judge_hint(hint_of(&answer))?,
        }
        keep!(self.begun.is_some(), "who answers has begun");
        let answer = without_hint(answer);
        self.judge_alone(&answer)
    }

    /// The same of an answer with no hint of an operation or a post.
    fn judge_alone(&self, answer: &Answer) -> Result<(), Law> {
        if let Some(own) = &self.own {
            return holds(answer == own, "who has changed the tree answers so");
        }
        if is_no_room(answer) {
            return holds(self.refused, "who has no room was refused");
        }
        self.was_right(answer)
    }

    /// This was a right answer of an unchanged tree.
    fn was_right(&self, answer: &Answer) -> Result<(), Law> {
        for right in self.right.as_slice() {
            if answer == right {
                return Ok(());
            }
        }
        Err("an answer was right at some moment since the process began")
    }
}
