//! A part of the map's pairs: those of one leaf, from a key on, upwards or downwards.

ghost use Rattle.std.specs.Prelude.{◌≡◌, ◌≤◌, None, length, reverse};
ghost use Rattle.bl_model.specs.Map.{ListsPairs};
ghost use Rattle.bl_model.specs.Rows.{map_of};
ghost use Rattle.bl_model.proofs.Parts.{IsPlaceOf};
ghost use Rattle.bl_model.proofs.Falling.{IsCountTo};
ghost use Rattle.bl_page.specs.Pairs.{RisesFrom, end_of};
ghost use Rattle.bl_proc_routes.specs.declared.routes.Step.TheVariants as onward;
ghost use Rattle.bl_proc.specs.declared.parts.PartStage.TheVariants as part_stage;
ghost use Rattle.bl_proc_steps.specs.Given.{Gives};
ghost use Rattle.bl_proc_routes.specs.Routes.{Leads};
ghost use Rattle.bl_proc.specs.Parts.{GoesOnAt, GoesOnBelow, IsPartBy, up, down, part_next_in, part_answer_in, way_by, PartGoes, part_next, part_needs, part_answer, PartTakes};

use arrayvec::ArrayVec;
use bl_model::{Next, Reply};
use bl_page::{Page, Pairs};
use bl_proc_steps::{Action, Answer, Descended, Descent, Process, Seen};
use std::mem;

/// Which way a part goes from its key on.
#[derive(Clone, Copy)]
pub enum Direction {
    /// To greater keys.
    Up,
    /// To smaller keys.
    Down,
}

/// Where a part begins, and which way it goes.
#[derive(Clone, Copy)]
pub struct PartStart {
    /// The key that it begins with.
    pub key: u64,
    pub direction: Direction,
}

/// A process that lists the pairs of one leaf from a key on.
#[derive(Drop)]
pub struct Part {
    pub from: PartStart,
    pub stage: PartStage,
}

/// How far a part has come.
#[derive(Drop)]
pub enum PartStage {
    /// It is to begin.
    New,
    /// It is to begin, and then to look at that page, from which its way may be short.
    Near(u32),
    /// It is to look whether that page is open.
    Probing(u32),
    /// It is on its way to the leaf that covers its key.
    Descending(Descent),
    /// It is to end, with these rows.
    Ending(PartRows),
    /// It has ended, with these rows.
    Over(PartRows),
}

/// What a part lists.
#[derive(Drop)]
pub struct PartRows {
    /// The rows of the leaf from the key on: upwards in rising order, downwards in falling order.
    pub rows: Pairs,
    /// Where the next part begins: upwards at the leaf's bound, where it has one, and downwards with the key before the
    /// leaf's first, where there is one.
    pub next: Next,
}

/// The place of the first row that is not below the key.
fn place_from(rows: &[(u64, u64)], from: u64) -> usize
    requires { RisesFrom 0 rows.now }
    ensures { IsPlaceOf rows.now from result }
{
    for (i, row) in rows.iter().enumerate() {
        if from <= row.0 {
            return i;
        }
    }
    rows.len()
}

/// The rows from the key on.
fn rows_from(rows: &[(u64, u64)], from: u64) -> Pairs
    requires few { length rows.now ≤ 14 }
    requires rising { RisesFrom 0 rows.now }
    ensures { ListsPairs (map_of rows.now) (λ key. from ≤ key) result.items }
{
    let rest = &rows[place_from(rows, from)..];
    let mut part = ArrayVec::new();
    for row in rest {
        part.push(*row);
    }
    part
}

/// How many rows there are up to the key.
fn count_to(rows: &[(u64, u64)], from: u64) -> usize
    requires { RisesFrom 0 rows.now }
    ensures { IsCountTo rows.now from result }
{
    for (i, row) in rows.iter().enumerate() {
        if from < row.0 {
            return i;
        }
    }
    rows.len()
}

/// The rows from the key on downwards, in falling order.
fn rows_down(rows: &[(u64, u64)], from: u64) -> Pairs
    requires few { length rows.now ≤ 14 }
    requires rising { RisesFrom 0 rows.now }
    ensures { ListsPairs (map_of rows.now) (λ key. key ≤ from) (reverse result.items) }
{
    let count = count_to(rows, from);
    let mut part = ArrayVec::new();
    for i in 0..count {
        part.push(rows[count - 1 - i]);
    }
    part
}

/// Where the part after a leaf with that bound begins.
fn next_after(high: u64) -> Next
    ensures { GoesOnAt (end_of high) result }
{
    if high == 0 {
        Next::End
    } else {
        Next::More(high)
    }
}

/// Where the part below a leaf that begins with that key begins, downwards.
fn next_below(low: u64) -> Next
    ensures { GoesOnBelow low result }
{
    if low == 0 {
        Next::End
    } else {
        Next::More(low - 1)
    }
}

/// The part of the leaf that covers the key.
fn part_of(page: &Page, from: PartStart) -> PartRows
    requires { Leads page.now from.key 0 onward.Here }
    ensures { IsPartBy from page.now result }
{
    match (page, from.direction) {
        (Page::Leaf(leaf), Direction::Up) => PartRows {
            rows: rows_from(leaf.rows.as_slice(), from.key),
            next: next_after(leaf.high),
        },
        (Page::Leaf(leaf), Direction::Down) => PartRows {
            rows: rows_down(leaf.rows.as_slice(), from.key),
            next: next_below(leaf.low),
        },
        _ => unreachable!(),
    }
}

/// The way of a part that has looked at that page: it begins there, where the page is open and is not the anchor.
#[inline(always)]
pub fn first_way(page: u32, free: bool) -> Descent
    ensures { result ≡ way_by page free }
{
    if free && page != 0 {
        Descent::At(page)
    } else {
        Descent::AtAnchor
    }
}

/// A part of a scan goes on by what its last event has shown: it comes down to the leaf that covers its key, or probes a page that is
/// near, and ends with the rows.
fn went(from: PartStart, stage: PartStage, seen: &Seen) -> PartStage
    requires running { part_answer_in stage ≡ None }
    requires given { Gives (part_next_in stage) None seen.now }
    ensures { PartGoes from stage seen.now result }
{
    match (stage, seen) {
        (PartStage::New, Seen::Done) => PartStage::Descending(Descent::AtAnchor),
        (PartStage::Near(page), Seen::Done) => PartStage::Probing(page),
        (PartStage::Probing(page), Seen::Probed(free)) => {
            PartStage::Descending(first_way(page, *free))
        }
        (PartStage::Descending(descent), Seen::Words(page)) => match descent.took(from.key, page) {
            Descended::On(next) => PartStage::Descending(next),
            Descended::Here => PartStage::Ending(part_of(page, from)),
        },
        (PartStage::Ending(part), Seen::Done) => PartStage::Over(part),
        _ => unreachable!(),
    }
}

/// A copy of the rows.
fn copied(rows: &Pairs) -> Pairs
    ensures { result ≡ rows.now }
{
    match rows.clone() {
        Ok(copy) => copy,
        Err(_) => unreachable!(),
    }
}

impl Part {
    /// A part that is to begin.
    pub fn new(key: u64) -> Part
        ensures from { result.from ≡ up key }
        ensures stage { result.stage ≡ part_stage.New }
    {
        Part {
            from: PartStart {
                key,
                direction: Direction::Up,
            },
            stage: PartStage::New,
        }
    }

    /// A part downwards that is to begin.
    pub fn downwards(key: u64) -> Part
        ensures from { result.from ≡ down key }
        ensures stage { result.stage ≡ part_stage.New }
    {
        Part {
            from: PartStart {
                key,
                direction: Direction::Down,
            },
            stage: PartStage::New,
        }
    }

    /// A part that is to begin, and then to look at that page, from which its way may be short. It may be any page.
    pub fn near(key: u64, page: u32) -> Part
        ensures from { result.from ≡ up key }
        ensures stage { result.stage ≡ part_stage.Near page }
    {
        Part {
            from: PartStart {
                key,
                direction: Direction::Up,
            },
            stage: PartStage::Near(page),
        }
    }
}

impl Process for Part {
    ghost next_of = { part_next };

    ghost needs_of = { part_needs };

    ghost answer_of = { part_answer };

    ghost Takes = { PartTakes };

    fn next(&self) -> Action {
        match &self.stage {
            PartStage::New | PartStage::Near(_) => Action::Begin,
            PartStage::Probing(page) => Action::Probe(*page),
            PartStage::Descending(descent) => descent.next(),
            PartStage::Ending(_) | PartStage::Over(_) => Action::End,
        }
    }

    fn needs(&self) -> Option<(u32, u32)> {
        None
    }

    fn answer(&self) -> Option<Answer> {
        match &self.stage {
            PartStage::Over(part) => {
                let reply = Reply::Rows(copied(&part.rows), part.next);
                Some(Answer::Op(reply, None))
            }
            _ => None,
        }
    }

    fn took(&mut self, seen: Seen) {
        let stage = mem::replace(&mut self.stage, PartStage::New);
        self.stage = went(self.from, stage, &seen);
    }
}
