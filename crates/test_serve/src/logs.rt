//! A server that keeps a log, in memory: what is printed and what the log is, moment by moment.

use bl_journal::rows_in;
use bl_model::Watched;
use bl_outside::{Outside, Scene, Tape};
use bl_serve::{OpenGate, Origin, Sectioning, ServePlan, serve_by_plan};
use std::alloc::Global;
use std::sync::Wait;
use std::test::Fail;
use std::thread::Threads;

/// What a server over a new index prints and keeps of these lines.
fn kept<R: Threads + Wait + Sync>(rt: &R, alloc: Global, input: &[u8]) -> Option<Tape> {
    let plan = ServePlan {
        workers: 2,
        compressors: 0,
        sections: Sectioning::BySync,
        most: 0,
    };
    let mut reader = Watched::new(input);
    let mut tape = Tape::new(alloc, 7, Vec::new(alloc));
    let origin = Origin::Empty(16);
    match serve_by_plan(rt, alloc, origin, plan, &mut reader, &mut tape, &OpenGate) {
        Ok(_) => Some(tape),
        Err(_) => None,
    }
}

// Each section is kept, and then printed. The last one changes nothing.
#[test]
fn each_section_is_kept_before_it_is_printed(rt: HostRuntime) -> Result<(), Fail> {
    let alloc = rt.alloc();
    let input = b"insert 5 50\nput 6 60\nsync\nput 5 51\ndelete 6\nsync\nfind 5\n".as_slice();
    let served = kept(&rt, alloc, input);
    assert!(rt; served.is_some());
    let Some(tape) = served else {
        return Ok(());
    };
    let none: &[(u64, u64)] = &[];
    let first = b"1 inserted\n2 inserted\n3 synced\n".as_slice();
    let both =
        b"1 inserted\n2 inserted\n3 synced\n4 replaced 50\n5 deleted 60\n6 synced\n".as_slice();
    let wanted = [
        (b"".as_slice(), none),
        (b"".as_slice(), &[(5, 50), (6, 60)]),
        (first, &[(5, 50), (6, 60)]),
        (first, &[(5, 51)]),
        (both, &[(5, 51)]),
        (both, &[(5, 51)]),
    ];
    assert_eq!(rt; tape.past().len(), wanted.len());
    for (scene, (printed, rows)) in tape.past().iter().zip(wanted) {
        assert_eq!(rt; scene.printed.as_slice(), printed);
        let found = rows_in(alloc, scene.log.as_slice());
        assert!(rt; found.is_ok_and(|found| found.as_slice() == rows));
    }
    assert!(rt; tape.printed().ends_with(b"6 synced\n7 found 51\n"));
    assert_eq!(rt; tape.log(), tape.past()[5].log.as_slice());
    Ok(())
}
