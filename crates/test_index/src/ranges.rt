//! Ranges, whose rows are those of one moment.

ghost use Rattle.bl_index.specs.Calls.{IsPassOf};

use crate::calls::{alone, two_passes};
use crate::scans::fifteen_rows;
use bl_index::{Index, KeyReply, Pass, RangeFault, RangeLimits};
use std::alloc::Global;
use std::sync::Wait;
use std::test::Fail;
use std::thread::join;

/// So many pages for each part, and so many rounds more.
const LIMITS: RangeLimits = RangeLimits {
    turns: 8,
    rounds: 3,
};

/// Keys 1 to 8 are in one leaf and 9 to 15 in another. The upper one takes three pages from the anchor: a range that begins there and may get two
/// leaves the rows as they were.
fn turns_run_out<R: Wait>(rt: &R, alloc: Global, index: &Index, pass: &mut Pass) -> bool
    requires { IsPassOf index.now pass.old }
{
    fifteen_rows(rt, index, pass);
    let (mut kept, mut rows) = (Vec::new(alloc), Vec::new(alloc));
    let first = index.range_into(pass, 14, None, LIMITS, &mut kept, &mut rows);
    let few = RangeLimits {
        turns: 2,
        rounds: 3,
    };
    let fault = index.range_into(pass, 9, None, few, &mut kept, &mut rows);
    first == Ok(0)
        && fault == Err(RangeFault::OutOfTurns)
        && rows.as_slice() == [(14, 140), (15, 150)].as_slice()
}

#[test]
fn a_range_out_of_turns_leaves_the_rows(rt: HostRuntime) {
    let is_so = match alone(rt.alloc(), 8) {
        Some((index, mut pass)) => turns_run_out(&rt, rt.alloc(), &index, &mut pass),
        None => false,
    };
    assert!(rt; is_so);
}

/// Whichever allocation is refused, the rows are as they were, or all are there.
fn room_runs_out<R: Wait>(rt: &R, alloc: Global, index: &Index, pass: &mut Pass) -> bool
    requires { IsPassOf index.now pass.old }
{
    fifteen_rows(rt, index, pass);
    let (mut kept, mut rows) = (Vec::new(alloc), Vec::new(alloc));
    if rows.push((7, 7)).is_err() {
        return true;
    }
    if let Err(fault) = index.range_into(pass, 2, None, LIMITS, &mut kept, &mut rows) {
        if fault != RangeFault::Memory
            || rows.as_slice() != [(7, 7)].as_slice()
            || index.range_into(pass, 2, None, LIMITS, &mut kept, &mut rows) != Ok(0)
        {
            return false;
        }
    }
    rows.len() == 15 && rows[0] == (7, 7) && rows[1] == (2, 20) && rows[14] == (15, 150)
}

#[test]
fn a_range_without_room_leaves_the_rows(rt: HostRuntime) {
    let is_so = match alone(rt.alloc(), 8) {
        Some((index, mut pass)) => room_runs_out(&rt, rt.alloc(), &index, &mut pass),
        None => true,
    };
    assert!(rt; is_so);
}

/// How many keys a writer goes over, each in a leaf of its own, how far they are apart, and how often it writes one.
const STEPPED: u64 = 8;

const APART: u64 = 12;

const STEPS: u64 = 2_000;

/// How many ranges go beside it.
const RANGES: u64 = 200;

/// The keys of the range, each with 0, but for those that the writer goes over: they have the number of the step that wrote them.
fn first_steps<R: Wait>(rt: &R, index: &Index, pass: &mut Pass)
    requires { IsPassOf index.now pass.old }
    ensures { IsPassOf index.now pass.new }
{
    for key in 0..STEPPED * APART {
        let value = if key % APART == 0 { key / APART } else { 0 };
        let _reply = index.insert(rt, pass, key, value);
    }
}

/// Puts the number of the step at its key, again and again until there is room.
fn step_on<R: Wait>(rt: &R, index: &Index, pass: &mut Pass, step: u64)
    requires { IsPassOf index.now pass.old }
    ensures { IsPassOf index.now pass.new }
{
    for _ in rt.forever() {
        let (reply, _hint) = index.put(rt, pass, step % STEPPED * APART, step);
        index.sweep(pass);
        if reply != KeyReply::NoRoom {
            return;
        }
    }
}

/// Puts the number of each step at the next key.
fn go_on_stepping<R: Wait>(rt: &R, index: &Index, pass: Pass)
    requires { IsPassOf index.now pass }
{
    let mut pass = pass;
    for step in STEPPED..STEPS {
        step_on(rt, index, &mut pass, step);
    }
}

/// Whether the keys had these values at one moment: the last eight steps, each at its key.
fn are_of_one_moment(rows: &[(u64, u64)]) -> bool {
    let mut newest = 0;
    for row in rows {
        if row.0 % APART == 0 && newest < row.1 {
            newest = row.1;
        }
    }
    for row in rows {
        let is_late = newest.saturating_sub(row.1) >= STEPPED;
        if row.0 % APART == 0 && (is_late || row.1 % STEPPED != row.0 / APART) {
            return false;
        }
    }
    rows.len() as u64 == STEPPED * APART
}

/// How many of the ranges were answered, and how many of these were of no one moment.
fn range_beside(alloc: Global, index: &Index, pass: Pass) -> (u64, u64)
    requires { IsPassOf index.now pass }
{
    let mut pass = pass;
    let limits = RangeLimits {
        turns: 100,
        rounds: 1_000,
    };
    let (mut kept, mut rows) = (Vec::new(alloc), Vec::new(alloc));
    let (mut answered, mut torn) = (0u64, 0u64);
    for _range in 0..RANGES {
        rows.clear();
        let ranged = index.range_into(&mut pass, 0, None, limits, &mut kept, &mut rows);
        if ranged.is_ok() {
            answered += 1;
            if !are_of_one_moment(rows.as_slice()) {
                torn += 1;
            }
        }
    }
    (answered, torn)
}

// Beside a writer that goes over keys of eight leaves, each range has what they had at one moment.
#[test]
fn ranges_beside_a_writer_are_of_one_moment(rt: HostRuntime) -> Result<(), Fail> {
    let (index, one, two) = two_passes(rt.alloc(), 64).ok_or("no index")?;
    let mut one = one;
    first_steps(&rt, &index, &mut one);
    let (_wrote, (answered, torn)) = join(
        &rt,
        || -> ()
            requires { IsPassOf index one }
        { go_on_stepping(&rt, &index, one) },
        || -> (u64, u64)
            requires { IsPassOf index two }
        { range_beside(rt.alloc(), &index, two) },
    );
    assert!(rt; answered > 0 && torn == 0);
    Ok(())
}
