//! What a server counts at its end, and whether whoever reads its output has gone.

use crate::streams::Full;
use bl_cli_streams::{Piped, Usage, malformed_line, noroom_line, stats_line};
use bl_serve_lines::{Totals, Wrong};
use std::alloc::Global;
use std::io::Write;
use std::test::Fail;

/// Whether the lines of a server's end are those.
fn says(alloc: Global, norooms: u64, pages: u32, most: u32, wanted: &str) -> Result<bool, Fail> {
    let line = noroom_line(alloc, norooms, pages, most)?;
    Ok(line.as_str() == wanted)
}

#[test]
fn lines_on_no_room(rt: HostRuntime) -> Result<(), Fail> {
    for (norooms, pages, most, wanted) in [
        (
            1,
            4,
            4,
            "blink: 1 request found no room; more --pages than 4 may help",
        ),
        (
            22_767,
            1024,
            1024,
            "blink: 22767 requests found no room; more --pages than 1024 may help",
        ),
        (
            2,
            65_536,
            65_536,
            "blink: 2 requests found no room; more pages than 65536 by --large may help",
        ),
        (
            2,
            1024,
            5000,
            "blink: 2 requests found no room; the index grows to 5000 pages, where memory for them is found",
        ),
    ] {
        assert!(rt; says(rt.alloc(), norooms, pages, most, wanted)?, "{wanted}");
    }
    Ok(())
}

#[test]
fn lines_of_counts(rt: HostRuntime) -> Result<(), Fail> {
    let totals = Totals {
        requests: 12,
        malformed: 1,
        sections: 2,
    };
    let usage = Usage { used: 3, all: 8 };
    let line = stats_line(rt.alloc(), &totals, 4, Some(usage))?;
    assert_eq!(rt;
        line.as_str(),
        "blink: requests 12 malformed 1 sections 2 noroom 4 pages 3 of 8"
    );
    let line = stats_line(rt.alloc(), &totals, 4, None)?;
    assert_eq!(rt;
        line.as_str(),
        "blink: requests 12 malformed 1 sections 2 noroom 4"
    );
    Ok(())
}

#[test]
fn lines_of_malformed_requests(rt: HostRuntime) -> Result<(), Fail> {
    for (malformed, first, wrong, said) in [
        (
            1,
            5,
            Wrong::Word(2),
            "1 request was malformed: line 5, at word 2",
        ),
        (
            14,
            1,
            Wrong::Long,
            "14 requests were malformed; the first is line 1, which has more than 69 bytes",
        ),
        (
            2,
            3,
            Wrong::Open,
            "2 requests were malformed; the first is line 3, which ends without a line feed",
        ),
    ] {
        let line = malformed_line(rt.alloc(), malformed, first, wrong)?;
        assert_eq!(rt; line.as_str().strip_prefix("blink: "), Some(said));
    }
    Ok(())
}

#[test]
fn a_reader_that_has_gone_is_told(rt: HostRuntime) {
    let mut writer = Piped::new(Full {
        bytes: Vec::new(rt.alloc()),
        room: 2,
    });
    assert!(rt; writer.write(b"ab").is_ok() && !writer.is_gone());
    assert!(rt; writer.write(b"c").is_err() && writer.is_gone());
}
