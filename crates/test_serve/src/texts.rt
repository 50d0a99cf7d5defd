//! Served texts.

ghost use Rattle.std.specs.Prelude.{◌≤◌};

use crate::served::{answers, inserts_before, last_lines, serve_new};
use bl_serve::Totals;
use std::alloc::Global;
use std::sync::Wait;
use std::test::Fail;
use std::thread::Threads;

/// Whether a worker writes these lines for those, and what it counts.
fn answer<R: Threads + Wait + Sync>(
    rt: &R,
    alloc: Global,
    input: &[u8],
    output: &[u8],
) -> Option<(bool, Totals)> {
    match serve_new(rt, alloc, 8, input, 1, 0) {
        Some((text, totals)) => Some((text.as_slice() == output, totals)),
        None => None,
    }
}

#[test]
fn one_worker_answers_by_number(rt: HostRuntime) {
    let input = b"insert 1 10\nfind 1\nsync\ndelete 1\nx\n".as_slice();
    let output = b"1 inserted\n2 found 10\n3 synced\n4 deleted 10\n5 malformed\n".as_slice();
    let totals = Totals {
        requests: 5,
        malformed: 1,
        sections: 1,
    };
    assert_eq!(rt;
        answer(&rt, rt.alloc(), input, output),
        Some((true, totals))
    );
}

/// Whether one worker writes these lines for those, and whether four and a compressor do.
fn both_answer<R: Threads + Wait + Sync>(
    rt: &R,
    alloc: Global,
    input: &[u8],
    output: &[u8],
) -> (bool, bool) {
    (
        answers(rt, alloc, input, output, 1, 0),
        answers(rt, alloc, input, output, 4, 1),
    )
}

/// Lines, and what is written for them, by whomever.
const LINES: [(&[u8], &[u8]); 18] = [
    (b"", b""),
    (b"find 1", b"1 malformed\n"),
    (b"find 5\n", b"1 absent\n"),
    (b"sync\nsync\n", b"1 synced\n2 synced\n"),
    (
        b"insert 5 50\nsync\ninsert 5 51\n",
        b"1 inserted\n2 synced\n3 present 50\n",
    ),
    (
        b"insert 5 50\nsync\nchange 5 50 60\nsync\nchange 5 50 70\nchange 6 1 2\nfind 5\n",
        b"1 inserted\n2 synced\n3 changed\n4 synced\n5 differs 60\n6 absent\n7 found 60\n",
    ),
    (
        b"insert 18446744073709551615 1\nsync\nfind 18446744073709551615\n",
        b"1 inserted\n2 synced\n3 found 1\n",
    ),
    // The greatest line has 69 bytes, and one of a byte more is malformed.
    (
        b"insert 18446744073709551615 18446744073709551615\nsync\nchange 18446744073709551615 18446744073709551615 18446744073709551614\nsync\nchange 18446744073709551615 18446744073709551615 18446744073709551614 \n",
        b"1 inserted\n2 synced\n3 changed\n4 synced\n5 malformed\n",
    ),
    // A scan lists the keys from its first number on, below its second one.
    (b"scan 5 5\n", b"1 rows\n"),
    (
        b"insert 5 50\nsync\nscan 5 6\nscan 6 5\nscan 0 18446744073709551615\n",
        b"1 inserted\n2 synced\n3 rows 5=50\n4 rows\n5 rows 5=50\n",
    ),
    // The same rows by falling keys, and those up to the greatest key.
    (
        b"scandown 5 5\nscandown 0 0\nscandown 7 0\nscandown 0 7\nscanfrom 0\n",
        b"1 rows\n2 rows\n3 rows\n4 rows\n5 rows\n",
    ),
    (
        b"insert 5 50\ninsert 6 60\nsync\nscandown 5 7\nscandown 5 6\nscandown 6 5\nscandown 0 18446744073709551615\nscanfrom 6\nscanfrom 7\n",
        b"1 inserted\n2 inserted\n3 synced\n4 rows 6=60 5=50\n5 rows 5=50\n6 rows\n7 rows 6=60 5=50\n8 rows 6=60\n9 rows\n",
    ),
    // The greatest key lies below no end, no key lies above it, and none below the least.
    (
        b"insert 18446744073709551615 1\nsync\nscan 0 18446744073709551615\nscandown 0 18446744073709551615\nscanfrom 18446744073709551615\n",
        b"1 inserted\n2 synced\n3 rows\n4 rows\n5 rows 18446744073709551615=1\n",
    ),
    (
        b"first\nlast\nnext 0\nprevious 18446744073709551615\ncount 0 18446744073709551615\nscandownfrom 0\n",
        b"1 rows\n2 rows\n3 rows\n4 rows\n5 count 0\n6 rows\n",
    ),
    (
        b"insert 18446744073709551615 1\ninsert 0 2\nsync\nlast\nnext 18446744073709551614\nnext 18446744073709551615\nprevious 0\nprevious 18446744073709551615\nscandownfrom 18446744073709551615\ncount 0 18446744073709551615\n",
        b"1 inserted\n2 inserted\n3 synced\n4 rows 18446744073709551615=1\n5 rows 18446744073709551615=1\n6 rows\n7 rows\n8 rows 0=2\n9 rows 18446744073709551615=1 0=2\n10 count 1\n",
    ),
    // A sum is of the value that the lines before it have left, modulo 2^64. What is absent stays away.
    (
        b"insert 1 10\nadd 1 5\nadd 1 5\nfind 1\nadd 2 7\nfind 2\n",
        b"1 inserted\n2 replaced 10\n3 replaced 15\n4 found 20\n5 absent\n6 absent\n",
    ),
    (
        b"insert 1 18446744073709551615\nadd 1 2\nfind 1\nadd 1 18446744073709551615\nfind 1\nadd 1 0\ndelete 1\nadd 1 1\n",
        b"1 inserted\n2 replaced 18446744073709551615\n3 found 1\n4 replaced 1\n5 found 0\n6 replaced 0\n7 deleted 0\n8 absent\n",
    ),
    // The anchor and a leaf are in use.
    (b"stat\n", b"1 pages 8 used 2 free 6\n"),
];

#[test]
fn lines_are_answered(rt: HostRuntime) {
    for (input, output) in LINES {
        assert_eq!(rt; both_answer(&rt, rt.alloc(), input, output), (true, true));
    }
}

// Each lacks a number, or has one too many, or is spelled otherwise.
#[test]
fn requests_are_spelled_in_one_way(rt: HostRuntime) -> Result<(), Fail> {
    for line in [
        b"scandown 5".as_slice(),
        b"scandown 5 6 7".as_slice(),
        b"scandown  5 6".as_slice(),
        b"scandown 05 6".as_slice(),
        b"scandown 5 18446744073709551616".as_slice(),
        b"scandown5 6".as_slice(),
        b"scan down 5 6".as_slice(),
        b"Scandown 5 6".as_slice(),
        b"scanfrom".as_slice(),
        b"scanfrom ".as_slice(),
        b"scanfrom 5 6".as_slice(),
        b"scanfrom 5 ".as_slice(),
        b"scanfrom -1".as_slice(),
        b"scan 5 6 limit".as_slice(),
        b"scan 5 6 limit 4294967296".as_slice(),
        b"scandownfrom 5 6".as_slice(),
        b"first 1".as_slice(),
        b"next".as_slice(),
        b"count 5".as_slice(),
        b"add 5".as_slice(),
        b"stat 1".as_slice(),
        b"stat ".as_slice(),
        b" stat".as_slice(),
        b"stats".as_slice(),
        b"sta".as_slice(),
        b"Stat".as_slice(),
    ] {
        let mut input = Vec::from_slice(rt.alloc(), line)?;
        input.push(b'\n')?;
        assert_eq!(rt;
            both_answer(&rt, rt.alloc(), input.as_slice(), b"1 malformed\n"),
            (true, true)
        );
    }
    Ok(())
}

/// Rows of the keys from 1 up to that one, lines behind them, and what is written last. Key 15 parts the leaf at 9.
const BEHIND_ROWS: [(u64, &[u8], &[u8]); 3] = [
    // Scans of two parts, of which the second goes on past its end.
    (
        15,
        b"sync\nscan 7 11\nscan 1 3\nscan 15 99\n",
        b"\n16 synced\n17 rows 7=70 8=80 9=90 10=100\n18 rows 1=10 2=20\n19 rows 15=150\n",
    ),
    (
        15,
        b"sync\nscandown 7 11\nscandown 1 3\nscandown 15 99\nscanfrom 8\n",
        b"\n16 synced\n17 rows 10=100 9=90 8=80 7=70\n18 rows 2=20 1=10\n19 rows 15=150\n20 rows 8=80 9=90 10=100 11=110 12=120 13=130 14=140 15=150\n",
    ),
    // Rows of both leaves, and a part that goes on past the last row that is wanted.
    (
        15,
        b"sync\nfirst\nlast\nnext 8\nnext 15\nprevious 9\nprevious 1\nscan 7 11 limit 3\nscandown 7 11 limit 3\nscanfrom 8 limit 2\nscandownfrom 9 limit 2\nscandownfrom 99 limit 1\nscan 7 11 limit 0\nscan 7 11 limit 4\ncount 0 99\ncount 7 11\ncount 11 7\n",
        b"\n16 synced\n17 rows 1=10\n18 rows 15=150\n19 rows 9=90\n20 rows\n21 rows 8=80\n22 rows\n23 rows 7=70 8=80 9=90\n24 rows 10=100 9=90 8=80\n25 rows 8=80 9=90\n26 rows 9=90 8=80\n27 rows 15=150\n28 rows\n29 rows 7=70 8=80 9=90 10=100\n30 count 15\n31 count 4\n32 count 0\n",
    ),
];

#[test]
fn lines_behind_rows_are_answered(rt: HostRuntime) -> Result<(), Fail> {
    for (keys, more, last) in BEHIND_ROWS {
        let input = inserts_before(rt.alloc(), keys, more)?;
        let served = last_lines(&rt, rt.alloc(), 8, input.as_slice(), last, 2, 1);
        assert!(rt; matches!(served, Some((true, Totals { malformed: 0, .. }))));
    }
    Ok(())
}

/// The same of one worker, in an index of so many pages. Behind key 15 a page stands above both leaves: of four pages none is left then. Keys
/// 16 to 22 fill page 2, and then there is no page to part it.
const IN_SMALL_INDEXES: [(u32, u64, &[u8], &[u8]); 4] = [
    (8, 14, b"stat\n", b"15 pages 8 used 2 free 6\n"),
    (8, 15, b"stat\n", b"16 pages 8 used 4 free 4\n"),
    (4, 15, b"stat\n", b"16 pages 4 used 4 free 0\n"),
    (
        4,
        23,
        b"find 23\nfind 22\n",
        b"21 inserted\n22 inserted\n23 noroom\n24 absent\n25 found 220\n",
    ),
];

#[test]
fn small_indexes_are_soon_full(rt: HostRuntime) -> Result<(), Fail> {
    for (pages, keys, more, last) in IN_SMALL_INDEXES {
        let input = inserts_before(rt.alloc(), keys, more)?;
        let served = last_lines(&rt, rt.alloc(), pages, input.as_slice(), last, 1, 0);
        assert!(rt; matches!(served, Some((true, Totals { malformed: 0, .. }))));
    }
    Ok(())
}

// The anchor and a leaf are in use. A line that asks for room is a request, and ends no section.
#[test]
fn room_is_told_between_requests(rt: HostRuntime) {
    let input = b"stat\ninsert 1 10\nstat\nsync\nfind 1\nstat".as_slice();
    let output =
        b"1 pages 8 used 2 free 6\n2 inserted\n3 pages 8 used 2 free 6\n4 synced\n5 found 10\n6 malformed\n".as_slice();
    let totals = Totals {
        requests: 6,
        malformed: 1,
        sections: 1,
    };
    assert_eq!(rt;
        answer(&rt, rt.alloc(), input, output),
        Some((true, totals))
    );
}

// By however many workers the lines of one key are carried out one after another.
#[test]
fn lines_of_one_key_keep_their_order(rt: HostRuntime) {
    let input =
        b"insert 5 50\nput 6 60\nchange 5 50 51\nput 6 61\ndelete 5\nfind 6\nput 5 52\ndelete 6\nfind 5\nfind 6\n".as_slice();
    let output =
        b"1 inserted\n2 inserted\n3 changed\n4 replaced 60\n5 deleted 51\n6 found 61\n7 inserted\n8 deleted 61\n9 found 52\n10 absent\n".as_slice();
    for (workers, compressors) in [(1, 0), (2, 1), (4, 0), (32, 1)] {
        assert!(rt;
            answers(&rt, rt.alloc(), input, output, workers, compressors),
            "{workers} workers"
        );
    }
}

// A section's lines are answered before those of the next.
#[test]
fn sections_stand_in_order(rt: HostRuntime) {
    assert!(rt;
        answers(
            &rt,
            rt.alloc(),
            b"insert 1 10\ninsert 2 20\nsync\nfind 1\nfind 2\nfind 3",
            b"1 inserted\n2 inserted\n3 synced\n4 found 10\n5 found 20\n6 malformed\n",
            4,
            1
        )
    );
}

/// How many lines of the text end with these bytes.
fn ending(text: &[u8], end: &[u8]) -> usize {
    text.split(|byte| *byte == b'\n')
        .filter(|line| line.ends_with(end))
        .count()
}

/// Adds the lines so many times.
fn repeat(input: &mut Vec<u8>, lines: &[u8], times: usize) -> Result<(), Fail> {
    for _time in 0..times {
        input.extend_from_slice(lines)?;
    }
    Ok(())
}

/// How many lines a worker writes that end with these bytes, and what it counts.
fn lines_ending<R: Threads + Wait + Sync>(
    rt: &R,
    alloc: Global,
    input: &[u8],
    end: &[u8],
) -> Option<(usize, Totals)> {
    match serve_new(rt, alloc, 8, input, 1, 0) {
        Some((text, totals)) => Some((ending(text.as_slice(), end), totals)),
        None => None,
    }
}

// Each change leaves a frame behind, and sweeps give all of them back.
#[test]
fn a_thousand_changes_of_one_key(rt: HostRuntime) -> Result<(), Fail> {
    let mut input = Vec::new(rt.alloc());
    repeat(&mut input, b"insert 1 10\ndelete 1\n", 500)?;
    let refused = lines_ending(&rt, rt.alloc(), input.as_slice(), b"noroom");
    assert!(rt; matches!(refused, Some((0, Totals { requests: 1000, .. }))));
    Ok(())
}

/// The lines of two chunks, and a line behind them.
fn two_chunks(alloc: Global) -> Result<Vec<u8>, Fail> {
    let mut input = Vec::new(alloc);
    for (lines, times) in [
        (b"insert 7 70\n".as_slice(), 1),
        (b"find 8\n".as_slice(), 4_095),
        (b"find 7\n".as_slice(), 8_191),
        (b"sync\nfind 7\n".as_slice(), 1),
    ] {
        repeat(&mut input, lines, times)?;
    }
    Ok(input)
}

/// Whether the text begins and ends as it is to, and how many keys it says to be absent and to be found.
fn seen_in(text: &[u8]) -> (bool, usize, usize, bool) {
    (
        text.starts_with(b"1 inserted\n2 absent\n"),
        ending(text, b"absent"),
        ending(text, b"found 70"),
        text.ends_with(b"12287 found 70\n12288 synced\n12289 found 70\n"),
    )
}

/// The same of what so many workers write, and how many requests and sections they count.
fn seen_by<R: Threads + Wait + Sync>(
    rt: &R,
    alloc: Global,
    input: &[u8],
    workers: u32,
) -> Option<((bool, usize, usize, bool), u64, u64)>
    requires { (1 ≤ workers) × (workers ≤ 32) }
{
    match serve_new(rt, alloc, 8, input, workers, 1) {
        Some((text, totals)) => Some((seen_in(text.as_slice()), totals.requests, totals.sections)),
        None => None,
    }
}

// The first chunk of a section has 4,096 lines and the second one twice as many: this section fills both, the second with its sync.
#[test]
fn a_section_of_two_chunks(rt: HostRuntime) -> Result<(), Fail> {
    let input = two_chunks(rt.alloc())?;
    for workers in 1..4 {
        let seen = seen_by(&rt, rt.alloc(), input.as_slice(), workers);
        assert_eq!(rt; seen, Some(((true, 4_095, 8_192, true), 12_289, 1)));
    }
    Ok(())
}
