//! A plain model of a world: the same processes on pages of its own, by the same turns.

use bl_page::{Page, from_words};
use bl_proc::{Action, Answer, Proc, Process, Seen};
use bl_world::{Act, Owner, Turn};
use std::alloc::Global;
use test_world_walks::{Law, Lists, add, found};

/// By which event a process began, whether it has ended, and since which event it has seen its page retired.
#[derive(Clone, Copy)]
struct Span {
    begun: Option<usize>,
    ended: bool,
    saw: Option<usize>,
}

/// The spans of all processes.
#[derive(Drop)]
struct Spans {
    list: Vec<Span>,
}

impl Spans {
    fn of(&mut self, number: usize) -> Result<&mut Span, Law> {
        let span = self.list.as_mut_slice().get_mut(number.wrapping_sub(1));
        span.ok_or("who has a turn was started")
    }

    /// The process may still read what the other one has seen retired.
    fn blocks(&mut self, number: usize, by: usize) -> Result<bool, Law> {
        let saw = found!(self.of(by)?.saw, "who looks has seen its page");
        let other = self.of(number)?;
        Ok(match other.begun {
            Some(begun) => begun < saw && !other.ended,
            None => false,
        })
    }
}

/// What stands in a world.
#[derive(Drop)]
pub(crate) struct Model {
    pub lists: Lists,
    processes: Vec<Proc>,
    spans: Spans,
}

/// A page whose words begin so, with zeros behind them.
fn page(front: &[u64]) -> Result<Page, Law> {
    let mut words = [0; 32];
    for (word, value) in words.iter_mut().zip(front.iter()) {
        *word = *value;
    }
    from_words(&words).ok().ok_or("these are words of a page")
}

/// The process becomes the page's holder, if that is open.
fn latches(lists: &mut Lists, at: u32, number: usize) -> Result<bool, Law> {
    let is_open = lists.owner(at)? == Owner::Open;
    if is_open {
        lists.own(at, Owner::Held(number))?;
    }
    Ok(is_open)
}

/// The page is one that may be taken, if it is retired as the process has seen it.
fn releases(lists: &mut Lists, at: u32, span: &Span) -> Result<bool, Law> {
    let saw = found!(span.saw, "who releases a page has seen it");
    let is_retired = lists.owner(at)? == Owner::Retired(saw);
    if is_retired {
        lists.own(at, Owner::Released)?;
    }
    Ok(is_retired)
}

/// The process looks at the page's owner: is it retired?
fn sees(lists: &Lists, at: u32, span: &mut Span) -> Result<bool, Law> {
    span.saw = match lists.owner(at)? {
        Owner::Retired(place) => Some(place),
        _ => None,
    };
    Ok(span.saw.is_some())
}

/// A step of a process that works on the tree, as the event at that place.
fn work(
    process: &mut Proc,
    lists: &mut Lists,
    span: &mut Span,
    number: usize,
    place: usize,
) -> Result<Act, Law> {
    if process.answer().is_some() {
        return Ok(Act::Miss);
    }
    let (act, seen) = match process.next() {
        Action::Begin => {
            span.begun = Some(place);
            (Act::Begin, Seen::Done)
        }
        Action::End => {
            span.ended = true;
            (Act::End, Seen::Done)
        }
        Action::Get(at) => (Act::Get(at), Seen::Words(lists.page(at)?)),
        Action::Put(at, page) => {
            lists.put(at, page)?;
            (Act::Put(at), Seen::Done)
        }
        Action::Latch(at) if latches(lists, at, number)? => (Act::Latch(at), Seen::Done),
        Action::Latch(_) => (Act::Miss, Seen::Missed),
        Action::Open(at) => {
            lists.own(at, Owner::Open)?;
            (Act::Open(at), Seen::Done)
        }
        Action::Retire(at) => {
            lists.own(at, Owner::Retired(place))?;
            (Act::Retire(at), Seen::Done)
        }
        Action::Probe(at) => {
            let owner = lists.owners.as_slice().get(at as usize);
            (Act::See(at), Seen::Probed(owner == Some(&Owner::Open)))
        }
        // a step takes no page
        _ => return Ok(Act::Miss),
    };
    process.took(seen);
    Ok(act)
}

/// A step of a process that is to release a page.
fn look(
    process: &mut Proc,
    lists: &mut Lists,
    spans: &mut Spans,
    number: usize,
) -> Result<Act, Law> {
    if process.answer().is_some() {
        return Ok(Act::Miss);
    }
    let started = spans.list.len();
    let own = number;
    let (act, seen) = match process.next() {
        Action::Look(other) => (Act::Look(other), Seen::Blocks(spans.blocks(other, number)?)),
        Action::See(at) => {
            let retired = sees(lists, at, spans.of(number)?)?;
            let seen = Seen::Owner {
                retired,
                started,
                own,
            };
            (Act::See(at), seen)
        }
        Action::Release(at) if releases(lists, at, spans.of(number)?)? => (
            Act::Release(at),
            Seen::Done,
        ),
        Action::Release(_) => (Act::Miss, Seen::Missed),
        _ => return Err("who looks does nothing else"),
    };
    process.took(seen);
    Ok(act)
}

/// The process takes that page, if it is to take one and nobody uses that.
fn take(process: &mut Proc, lists: &mut Lists, number: usize, at: u32) -> Result<Act, Law> {
    let free = lists.owners.as_slice().get(at as usize) == Some(&Owner::Released);
    if process.answer().is_some() || !free {
        return Ok(Act::Miss);
    }
    match process.next() {
        Action::Take if 0 < at && at < 65536 => {
            lists.own(at, Owner::Held(number))?;
            process.took(Seen::Took(at));
            Ok(Act::Take(at))
        }
        _ => Ok(Act::Miss),
    }
}

/// The process is refused what it is about to reserve.
fn refuse(process: &mut Proc) {
    if process.answer().is_none() && process.needs().is_some() {
        match process.next() {
            Action::Put(_, _) | Action::Take => process.took(Seen::Refused),
            _ => {}
        }
    }
}

impl Model {
    /// The opening index of that many pages: page 0 names page 1 as the only one, which is an empty leaf.
    pub(crate) fn new(alloc: Global, count: u32) -> Result<Model, Law> {
        let mut pages = Vec::new(alloc);
        add(&mut pages, page(&[(1 << 32) + 1, 0, 0, 0, 1])?)?;
        for _ in 1..count {
            add(&mut pages, page(&[2 << 32])?)?;
        }
        Ok(Model {
            lists: Lists::new(alloc, pages)?,
            processes: Vec::new(alloc),
            spans: Spans {
                list: Vec::new(alloc),
            },
        })
    }

    pub(crate) fn start(&mut self, process: Proc) -> Result<(), Law> {
        let span = Span {
            begun: None,
            ended: false,
            saw: None,
        };
        add(&mut self.processes, process)?;
        add(&mut self.spans.list, span)
    }

    /// A turn, as the event at that place.
    pub(crate) fn turn(&mut self, turn: Turn, number: usize, place: usize) -> Result<Act, Law> {
        let process = self
            .processes
            .as_mut_slice()
            .get_mut(number.wrapping_sub(1));
        let process = found!(process, "who has a turn was started");
        match turn {
            Turn::Step(_) if matches!(*process, Proc::Reclaim(_)) => {
                look(process, &mut self.lists, &mut self.spans, number)
            }
            Turn::Step(_) => {
                let span = self.spans.of(number)?;
                work(process, &mut self.lists, span, number, place)
            }
            Turn::Take(_, at) => take(process, &mut self.lists, number, at),
            Turn::Refuse(_) => {
                refuse(process);
                Ok(Act::Miss)
            }
        }
    }

    fn process(&self, number: usize) -> Option<&Proc> {
        self.processes.as_slice().get(number.wrapping_sub(1))
    }

    pub(crate) fn answer(&self, number: usize) -> Option<Answer> {
        self.process(number)?.answer()
    }

    /// The process with that number is about to reserve something.
    pub(crate) fn is_reserving(&self, number: usize) -> bool {
        match self.process(number) {
            Some(process) => process.answer().is_none() && process.needs().is_some(),
            None => false,
        }
    }
}
