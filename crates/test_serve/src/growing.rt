//! A server whose index grows and shrinks.

ghost use Rattle.std.specs.Prelude.{◌≤◌, ◌^◌};
ghost use Rattle.bl_serve.specs.Origins.{MayServe};

use crate::served::{inserts, inserts_before};
use bl_check::{Quiet, Report, check};
use bl_journal::rows_in;
use bl_model::Watched;
use bl_outside::{Outside, Tape};
use bl_serve::{OpenGate, Origin, Sectioning, ServePlan, dump_by_plan, serve_by_plan};
use std::alloc::Global;
use std::sync::Wait;
use std::test::Fail;
use std::thread::Threads;

/// Two workers and a compressor, with such sections, over an index that may grow to so many pages.
fn plan_to(sections: Sectioning, most: u32) -> ServePlan
    requires { most ≤ 2 ^ 28 }
    ensures { MayServe result }
{
    ServePlan {
        workers: 2,
        compressors: 1,
        sections,
        most,
    }
}

/// How many pages the image has, and what a check of it says.
fn seen_of(alloc: Global, quiet: &Quiet) -> Option<(usize, Report)> {
    let pages = quiet.image().pages.len();
    let mut image = Watched::new(Vec::new(alloc));
    if quiet.image().write(&mut image).is_err() {
        return None;
    }
    match check(alloc, image.into_inner().as_slice()) {
        Ok(report) => Some((pages, report)),
        Err(_) => None,
    }
}

/// What a server over a new index of four pages writes for these bytes, how many requests found no room, and the pages and rows of the image
/// that it leaves.
fn grown<R: Threads + Wait + Sync>(
    rt: &R,
    alloc: Global,
    input: &[u8],
    sections: Sectioning,
    most: u32,
) -> Option<(Vec<u8>, u64, (usize, u32))>
    requires { most ≤ 2 ^ 28 }
{
    let mut reader = Watched::new(input);
    let mut writer = Watched::new(Vec::new(alloc));
    let origin = Origin::Empty(4);
    let plan = plan_to(sections, most);
    let Ok((summary, Ok(quiet))) = dump_by_plan(
        rt,
        alloc,
        origin,
        plan,
        &mut reader,
        &mut writer,
        &OpenGate,
    ) else {
        return None;
    };
    let (pages, report) = seen_of(alloc, &quiet)?;
    Some((
        writer.into_inner(),
        summary.remarks.norooms,
        (pages, report.rows),
    ))
}

// Four pages hold 22 of the 300 rows. The index has grown to as many pages as hold them, and no further than it may.
#[test]
fn rows_find_room_that_four_pages_lack(rt: HostRuntime) -> Result<(), Fail> {
    let input = inserts_before(rt.alloc(), 300, b"find 300\nfind 23\nfind 301\n")?;
    for sections in [Sectioning::BySync, Sectioning::AtMost(7)] {
        let Some((text, norooms, (pages, rows))) = grown(
            &rt,
            rt.alloc(),
            input.as_slice(),
            sections,
            1_024,
        ) else {
            return Ok(());
        };
        assert!(rt;
            text.as_slice().ends_with(b"300 inserted\n301 found 3000\n302 found 230\n303 absent\n")
        );
        assert_eq!(rt; (norooms, rows), (0, 300));
        assert!(rt; pages > 44 && pages <= 1_024, "{pages} pages");
    }
    Ok(())
}

// A bound is kept: eight pages hold fewer than 60 rows by rising keys, and each that found no room is told.
#[test]
fn no_more_pages_are_had_than_there_may_be(rt: HostRuntime) -> Result<(), Fail> {
    let input = inserts(rt.alloc(), 90)?;
    let served = grown(&rt, rt.alloc(), input.as_slice(), Sectioning::AtMost(1), 8);
    assert!(rt; served.is_some());
    if let Some((_, norooms, (pages, rows))) = served {
        assert_eq!(rt; pages, 8);
        assert!(rt; rows >= 38 && rows < 90);
        assert_eq!(rt; norooms.saturating_add(u64::from(rows)), 90);
    }
    Ok(())
}

/// So many lines that find a key that is not there.
fn finds(alloc: Global, count: u32) -> Result<Vec<u8>, Fail> {
    let mut lines = Vec::new(alloc);
    for _ in 0..count {
        lines.extend_from_slice(b"find 0\n")?;
    }
    Ok(lines)
}

/// Lines that delete the keys from 1 up to that one.
fn deletions(alloc: Global, last: u32) -> Result<Vec<u8>, Fail> {
    let mut lines = Vec::new(alloc);
    for key in 1..=last {
        let line = format!(in alloc; "delete {key}\n")?;
        lines.extend_from_slice(line.as_bytes())?;
    }
    Ok(lines)
}

/// Lines that insert 300 rows and delete the first 290, some that find nothing, and one that finds a row.
fn drained(alloc: Global) -> Result<Vec<u8>, Fail> {
    let mut lines = inserts(alloc, 300)?;
    lines.extend_from_slice(deletions(alloc, 290)?.as_slice())?;
    lines.extend_from_slice(finds(alloc, 100)?.as_slice())?;
    lines.extend_from_slice(b"find 295\n")?;
    Ok(lines)
}

// The index has grown for 300 rows. Once ten are left, it has given most pages back, and the rows are there.
#[test]
fn pages_go_once_most_rows_have_gone(rt: HostRuntime) -> Result<(), Fail> {
    let input = drained(rt.alloc())?;
    let served = grown(
        &rt,
        rt.alloc(),
        input.as_slice(),
        Sectioning::AtMost(1),
        1_024,
    );
    assert!(rt; served.is_some());
    if let Some((text, norooms, (pages, rows))) = served {
        assert!(rt; text.as_slice().ends_with(b"691 found 2950\n"));
        assert_eq!(rt; (norooms, rows), (0, 10));
        assert!(rt; pages >= 4 && pages <= 32, "{pages} pages");
    }
    Ok(())
}

/// The replies to so many such lines, numbered from 1.
fn absents(alloc: Global, count: u32) -> Result<Vec<u8>, Fail> {
    let mut lines = Vec::new(alloc);
    for number in 1..=count {
        let line = format!(in alloc; "{number} absent\n")?;
        lines.extend_from_slice(line.as_bytes())?;
    }
    Ok(lines)
}

// The first 4,096 lines of a section are answered together, and want no room. The index grows behind them, and what was answered is written.
#[test]
fn the_text_of_an_open_section_outlives_a_growth(rt: HostRuntime) -> Result<(), Fail> {
    let alloc = rt.alloc();
    let mut input = finds(alloc, 4_096)?;
    let rows = inserts_before(alloc, 40, b"find 40")?;
    input.extend_from_slice(rows.as_slice())?;
    let mut begins = absents(alloc, 4_096)?;
    begins.extend_from_slice(b"4097 inserted\n4098 inserted\n")?;
    let served = grown(&rt, alloc, input.as_slice(), Sectioning::BySync, 64);
    assert!(rt; served.is_some());
    if let Some((text, norooms, (pages, rows))) = served {
        assert!(rt; text.as_slice().starts_with(begins.as_slice()));
        assert!(rt;
            text.as_slice()
                .ends_with(b"4136 inserted\n4137 malformed\n")
        );
        assert_eq!(rt; (norooms, rows), (0, 40));
        assert!(rt; pages > 4 && pages <= 64);
    }
    Ok(())
}

/// What a server over a new index of four pages, which may grow to 64, prints and keeps of these lines.
fn kept<R: Threads + Wait + Sync>(rt: &R, alloc: Global, input: &[u8]) -> Option<Tape> {
    let plan = plan_to(Sectioning::AtMost(10), 64);
    let mut reader = Watched::new(input);
    let mut tape = Tape::new(alloc, 7, Vec::new(alloc));
    match serve_by_plan(
        rt,
        alloc,
        Origin::Empty(4),
        plan,
        &mut reader,
        &mut tape,
        &OpenGate,
    ) {
        Ok(_) => Some(tape),
        Err(_) => None,
    }
}

// The log has all rows, of before the index grew and of after it.
#[test]
fn a_log_outlives_a_growth(rt: HostRuntime) -> Result<(), Fail> {
    let input = inserts_before(rt.alloc(), 100, b"delete 1\n")?;
    let tape = kept(&rt, rt.alloc(), input.as_slice());
    assert!(rt; tape.is_some());
    if let Some(tape) = tape {
        let rows = rows_in(rt.alloc(), tape.log());
        assert!(rt; rows.is_ok_and(|rows| rows.len() == 99 && rows[98] == (100, 1_000)));
        assert!(rt; tape.printed().ends_with(b"100 inserted\n101 deleted 10\n"));
    }
    Ok(())
}

// And the rows of before it shrank.
#[test]
fn a_log_outlives_a_shrink(rt: HostRuntime) -> Result<(), Fail> {
    let input = drained(rt.alloc())?;
    let tape = kept(&rt, rt.alloc(), input.as_slice());
    assert!(rt; tape.is_some());
    if let Some(tape) = tape {
        let rows = rows_in(rt.alloc(), tape.log());
        assert!(rt; rows.is_ok_and(|rows| rows.len() == 10 && rows[0] == (291, 2_910)));
    }
    Ok(())
}
