//! The commands `rows` and `load` over bytes: rows of an image, an image of rows, bad rows, and streams that fail.

use crate::checking::split;
use crate::streams::{Full, Zeros};
use bl_check::Quiet;
use bl_cli_commands::{CommandFault, MakeFault, make_image, print_rows};
use bl_load::{LoadFault, rows_of};
use bl_model::Watched;
use bl_row_lines::{RowsFault, write_rows};
use std::alloc::Global;
use std::test::Fail;

/// How `rows` of these bytes ends, and what it prints.
fn printed(alloc: Global, bytes: &[u8]) -> (Result<(), CommandFault>, Vec<u8>) {
    let mut writer = Watched::new(Vec::new(alloc));
    let length = Some(bytes.len() as u64);
    let ended = print_rows(alloc, &mut Watched::new(bytes), length, &mut writer);
    (ended, writer.into_inner())
}

/// The rows of the tree that `split` gives.
const ROWS: &[u8] =
    b"1 10\n2 20\n3 30\n4 40\n5 50\n6 60\n7 70\n8 80\n9 90\n10 100\n11 110\n12 120\n13 130\n14 140\n15 150\n";

#[test]
fn rows_of_a_split_tree(rt: HostRuntime) {
    let (ended, text) = printed(rt.alloc(), &split(&[]));
    assert!(rt; ended == Ok(()));
    assert!(rt; text.as_slice() == ROWS);
}

#[test]
fn a_damaged_image_has_no_rows(rt: HostRuntime) {
    let (ended, text) = printed(rt.alloc(), &split(&[(304, 10)]));
    assert!(rt; ended == Err(CommandFault::Unsound(5, 1)));
    assert!(rt; text.is_empty());
}

#[test]
fn rows_that_cannot_be_written(rt: HostRuntime) {
    let alloc = rt.alloc();
    let bytes = split(&[]);
    let mut full = Watched::new(Full {
        bytes: Vec::new(alloc),
        room: 7,
    });
    let ended = print_rows(alloc, &mut Watched::new(bytes.as_slice()), None, &mut full);
    assert!(rt; ended == Err(CommandFault::Write));
    let Full { bytes, .. } = full.into_inner();
    assert!(rt; bytes.as_slice() == b"1 10\n2 ".as_slice());
}

/// The image of 8 pages that is made of a text, so full.
fn made(alloc: Global, text: &[u8], fill: u32) -> Result<Quiet, MakeFault> {
    make_image(alloc, &mut Watched::new(text), 8, fill)
}

/// The first words of a page, of which the others are zeros.
fn page(first: &[u64]) -> [u64; 32] {
    let mut words = [0; 32];
    for (i, value) in first.iter().enumerate() {
        if i < 32 {
            words[i] = *value;
        }
    }
    words
}

// Three rows, two a leaf: the right leaf first, then the left one, which has what is left, and the page above.
#[test]
fn an_image_of_three_rows(rt: HostRuntime) -> Result<(), Fail> {
    let wanted = [
        page(&[4294967298, 0, 0, 0, 2, 3]),
        page(&[8589934594, 6, 0, 0, 6, 60, 9, 90]),
        page(&[8589934593, 0, 6, 1, 5, 50]),
        page(&[12884967426, 0, 0, 0, 0, 2, 6, 1]),
        page(&[]),
    ];
    let quiet = made(rt.alloc(), b"5 50\n6 60\n9 90\n", 2).ok();
    assert!(rt; quiet.is_some());
    if let Some(quiet) = quiet {
        let words = quiet.image().to_words(rt.alloc())?;
        assert!(rt; words.len() == 8);
        for (x, page) in wanted.iter().enumerate() {
            assert!(rt; words.get(x) == Some(page));
        }
    }
    Ok(())
}

/// The text of the rows of the image that is made of this text.
fn again(alloc: Global, text: &[u8], fill: u32) -> Option<Vec<u8>> {
    let quiet = make_image(alloc, &mut Watched::new(text), 64, fill).ok()?;
    let rows = rows_of(alloc, &quiet).ok()?;
    let mut writer = Watched::new(Vec::new(alloc));
    write_rows(alloc, &mut writer, rows.as_slice()).ok()?;
    Some(writer.into_inner())
}

#[test]
fn rows_come_back(rt: HostRuntime) {
    let texts: [&[u8]; 4] = [
        ROWS,
        b"",
        b"0 0\n",
        b"18446744073709551614 1\n18446744073709551615 18446744073709551615\n",
    ];
    for text in texts {
        for fill in [14, 7, 1] {
            let rows = again(rt.alloc(), text, fill);
            assert!(rt; rows.is_some_and(|rows| rows.as_slice() == text));
        }
    }
}

/// A text, and the fault of its first bad line.
type BadRows = (&'static [u8], RowsFault);

const BAD: [BadRows; 13] = [
    (b"5 50\n5 51\n", RowsFault::NotAbove(2)),
    (b"5 50\n6 60\n4 40\n", RowsFault::NotAbove(3)),
    (b"5 50\n6\n", RowsFault::NoRow(2)),
    (b"5 50\n6 60", RowsFault::NoRow(2)),
    (b"5 50\n\n6 60\n", RowsFault::NoRow(2)),
    (b"05 50\n", RowsFault::NoRow(1)),
    (b"5  50\n", RowsFault::NoRow(1)),
    (b" 5 50\n", RowsFault::NoRow(1)),
    (b"5 50 \n", RowsFault::NoRow(1)),
    (b"5 50\r\n", RowsFault::NoRow(1)),
    (b"5=50\n", RowsFault::NoRow(1)),
    (b"18446744073709551616 1\n", RowsFault::NoRow(1)),
    (b"1 18446744073709551616\n", RowsFault::NoRow(1)),
];

/// Why no image is made of a text.
fn refused(alloc: Global, text: &[u8], fill: u32) -> Option<MakeFault> {
    made(alloc, text, fill).err()
}

#[test]
fn bad_rows_are_named(rt: HostRuntime) {
    for (text, fault) in BAD {
        assert!(rt; refused(rt.alloc(), text, 14) == Some(MakeFault::Rows(fault)));
    }
}

// Fifteen rows, one a leaf, have no room in eight pages.
#[test]
fn rows_without_room(rt: HostRuntime) {
    let fault = refused(rt.alloc(), ROWS, 1);
    assert!(rt; fault == Some(MakeFault::Image(LoadFault::Room)));
}

#[test]
fn rows_that_cannot_be_read(rt: HostRuntime) {
    let mut reader = Watched::new(Zeros { left: 40 });
    let fault = make_image(rt.alloc(), &mut reader, 8, 14).err();
    assert!(rt; fault == Some(MakeFault::Rows(RowsFault::Read)));
}

#[test]
fn statuses_of_rows(rt: HostRuntime) {
    let cases = [
        (MakeFault::Rows(RowsFault::NoRow(1)), 3),
        (MakeFault::Rows(RowsFault::NotAbove(1)), 3),
        (MakeFault::Rows(RowsFault::Read), 3),
        (MakeFault::Rows(RowsFault::Memory), 4),
        (MakeFault::Image(LoadFault::Room), 3),
        (MakeFault::Image(LoadFault::Levels), 3),
        (MakeFault::Image(LoadFault::Memory), 4),
    ];
    for (fault, status) in cases {
        assert!(rt; fault.status() == status);
    }
}
