//! Scans where memory is refused.

ghost use Rattle.bl_index.specs.Calls.{IsPassOf};

use crate::calls::alone;
use bl_index::{Index, Pass, ScanFault};
use std::sync::Wait;
use std::test::Fail;

/// Keys 1 to 15 with ten times themselves are in two leaves. The upper one, from 9 on, is not listed yet: a search gets the
/// anchor, the lower leaf and then the upper one.
pub(crate) fn fifteen_rows<R: Wait>(rt: &R, index: &Index, pass: &mut Pass)
    requires { IsPassOf index.now pass.old }
    ensures { IsPassOf index.now pass.new }
{
    for key in 1..16u64 {
        let _reply = index.insert(rt, pass, key, 10 * key);
    }
}

/// Scans all keys, again and again from where a part had no room or ran out of turns.
fn scan_all<R: Wait>(rt: &R, index: &Index, pass: &mut Pass, rows: &mut Vec<(u64, u64)>)
    requires { IsPassOf index.now pass.old }
    ensures { IsPassOf index.now pass.new }
{
    let mut from = 0;
    for _ in rt.forever() {
        match index.scan_into(pass, from, None, index.patience(), rows) {
            Ok(()) => return,
            Err(ScanFault::Memory(at)) => from = at,
            Err(ScanFault::OutOfTurns(at)) => from = at,
        }
    }
}

// Whichever allocation is refused, no row is lost and none is listed twice.
#[test]
fn scans_go_on_after_want_of_memory(rt: HostRuntime) -> Result<(), Fail> {
    let Some((index, mut pass)) = alone(rt.alloc(), 8) else {
        return Ok(());
    };
    fifteen_rows(&rt, &index, &mut pass);
    let mut rows = Vec::new(rt.alloc());
    scan_all(&rt, &index, &mut pass, &mut rows);
    assert!(rt; rows.len() == 15 && rises(rows.as_slice()));
    Ok(())
}

/// Whether each key is greater than the one before it.
fn rises(rows: &[(u64, u64)]) -> bool {
    let mut least = 0;
    for row in rows {
        if row.0 < least {
            return false;
        }
        least = row.0.saturating_add(1);
    }
    true
}
