//! What a server has counted at its end.

ghost use Rattle.std.specs.Prelude.{◌≤◌};

use crate::served::inserts_before;
use bl_model::Watched;
use bl_serve::{
    OpenGate, Origin, Remarks, Sectioning, ServePlan, Summary, Totals, Wrong, serve_by_plan,
};
use std::alloc::Global;
use std::sync::Wait;
use std::test::Fail;
use std::thread::Threads;

/// What so many workers over a new index of four pages count of these lines.
fn counted<R: Threads + Wait + Sync>(
    rt: &R,
    alloc: Global,
    input: &[u8],
    workers: u32,
    sections: Sectioning,
) -> Option<Summary>
    requires { (1 ≤ workers) × (workers ≤ 32) }
{
    let plan = ServePlan {
        workers,
        compressors: 0,
        sections,
        most: 0,
    };
    let mut reader = Watched::new(input);
    let mut writer = Watched::new(Vec::new(alloc));
    let origin = Origin::Empty(4);
    match serve_by_plan(rt, alloc, origin, plan, &mut reader, &mut writer, &OpenGate) {
        Ok(summary) => Some(summary),
        Err(_) => None,
    }
}

// The replies have 9 bytes with a word of six letters, and 12 with `malformed`. Bytes behind the last LF are a malformed line.
#[test]
fn the_first_malformed_line_and_the_longest_section_are_told(rt: HostRuntime) {
    for (input, totals, first_malformed, longest) in [
        (b"".as_slice(), (0, 0, 0), None, 0),
        (
            b"find 1\nfind 2\nsync\nfind 3\n".as_slice(),
            (4, 0, 1),
            None,
            27,
        ),
        (
            b"find 1\nput 3 x\n\nsync\ny".as_slice(),
            (5, 3, 1),
            Some((2, Wrong::Word(3))),
            42,
        ),
        (
            b"sync\nfind 1\nsync\nfind 1\nfind 2\nfind 3".as_slice(),
            (6, 1, 2),
            Some((6, Wrong::Open)),
            30,
        ),
    ] {
        let (requests, malformed, sections) = totals;
        let wanted = Summary {
            totals: Totals {
                requests,
                malformed,
                sections,
            },
            remarks: Remarks {
                first_malformed,
                norooms: 0,
                longest,
            },
        };
        for workers in [1, 4] {
            let summary = counted(&rt, rt.alloc(), input, workers, Sectioning::BySync);
            assert_eq!(rt; summary, Some(wanted));
        }
    }
}

// Four pages hold 22 rows by rising keys. The longest reply is the last one, `28 replaced 220`.
#[test]
fn requests_that_found_no_room_are_counted(rt: HostRuntime) -> Result<(), Fail> {
    let input = inserts_before(rt.alloc(), 25, b"find 23\nput 24 1\nput 22 5\n")?;
    let wanted = Summary {
        totals: Totals {
            requests: 28,
            malformed: 0,
            sections: 0,
        },
        remarks: Remarks {
            first_malformed: None,
            norooms: 4,
            longest: 16,
        },
    };
    for workers in [1, 2] {
        let by_line = Sectioning::AtMost(1);
        let summary = counted(&rt, rt.alloc(), input.as_slice(), workers, by_line);
        assert_eq!(rt; summary, Some(wanted));
    }
    Ok(())
}
