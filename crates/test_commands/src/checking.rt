//! The command `check` over bytes, and over streams that fail; and images that are loaded.

use crate::streams::{Full, Zeros};
use bl_cli_commands::{CommandFault, check_image, load_image};
use bl_model::Watched;
use std::alloc::Global;
use std::io::Read;

/// A byte of an image, and what it is.
pub(crate) type Byte = (usize, u8);

/// The image of an index of 8 pages with the keys 1 to 15, in two leaves and an inner page, with these bytes changed.
pub(crate) fn split(changes: &[Byte]) -> [u8; 2080] {
    let mut bytes = [0; 2080];
    bytes[..8].copy_from_slice(b"BLNKIDX1");
    bytes[8] = 1;
    bytes[12] = 8;
    let heads: [&[Byte]; 4] = [
        &[(32, 2), (36, 1), (64, 1), (72, 3)],
        &[(288, 8), (292, 2), (304, 9), (312, 2)],
        &[(544, 7), (548, 2), (552, 9)],
        &[(800, 2), (802, 1), (804, 3), (840, 1), (848, 9), (856, 2)],
    ];
    for head in heads {
        set(&mut bytes, head);
    }
    for i in 0..15u8 {
        let key = i + 1;
        let at = if key < 9 {
            320 + 16 * i as usize
        } else {
            576 + 16 * (i - 8) as usize
        };
        set(&mut bytes, &[(at, key), (at + 8, 10 * key)]);
    }
    set(&mut bytes, changes);
    bytes
}

fn set(bytes: &mut [u8], changes: &[Byte]) {
    for (at, byte) in changes {
        if *at < bytes.len() {
            bytes[*at] = *byte;
        }
    }
}

/// `check` writes this line for those bytes, and finds them sound or not.
fn prints(alloc: Global, bytes: &[u8], line: &[u8], is_sound: bool) -> bool {
    let mut writer = Watched::new(Vec::new(alloc));
    let length = Some(bytes.len() as u64);
    let sound = check_image(alloc, &mut Watched::new(bytes), length, &mut writer);
    sound == Ok(is_sound) && writer.into_inner().as_slice() == line
}

// The sound image, and images with a damage: the version; page 1's bound; page 2's link; a page number in page 3; a dead
// leaf without a link in page 5.
#[test]
fn images_and_their_lines(rt: HostRuntime) {
    let cases: [(&[Byte], &[u8], bool); 6] = [
        (
            &[],
            b"ok rows 15 leaves 2 inners 1 levels 2 unposted 0 thin 0\n",
            true,
        ),
        (&[(8, 2)], b"fault C1 page 0\n", false),
        (&[(304, 10)], b"fault C5 page 1\n", false),
        (&[(568, 1)], b"fault C5 page 2\n", false),
        (&[(856, 1)], b"fault C7 page 3\n", false),
        (&[(1316, 4), (1320, 9)], b"fault C8 page 5\n", false),
    ];
    for (changes, line, is_sound) in cases {
        assert!(rt; prints(rt.alloc(), &split(changes), line, is_sound));
    }
    assert!(rt; prints(rt.alloc(), b"", b"fault C1 page 0\n", false));
}

/// `check` says that reading fails, and writes nothing.
fn is_unread<R: Read + Drop>(alloc: Global, reader: R, length: Option<u64>) -> bool {
    let mut writer = Watched::new(Vec::new(alloc));
    let result = check_image(alloc, &mut Watched::new(reader), length, &mut writer);
    result == Err(CommandFault::Read) && writer.into_inner().is_empty()
}

/// How `check` of these bytes ends where nothing can be written.
fn unwritten(alloc: Global, bytes: &[u8]) -> Result<bool, CommandFault> {
    let mut full = Watched::new(Full {
        bytes: Vec::new(alloc),
        room: 0,
    });
    check_image(alloc, &mut Watched::new(bytes), None, &mut full)
}

#[test]
fn reads_and_writes_that_fail(rt: HostRuntime) {
    let alloc = rt.alloc();
    for left in [0, 1, 2080, 40_000] {
        assert!(rt; is_unread(alloc, Zeros { left }, None));
    }
    // a file that is cut while it is read
    let bytes = split(&[]);
    for length in [0, 2079, 2081, 4096] {
        assert!(rt; is_unread(alloc, bytes.as_slice(), Some(length)));
    }
    assert!(rt; unwritten(alloc, bytes.as_slice()) == Err(CommandFault::Write));
}

/// How many pages the image has that these bytes are.
fn loaded<R: Read + Drop>(
    alloc: Global,
    reader: R,
    length: Option<u64>,
) -> Result<usize, CommandFault> {
    let quiet = load_image(alloc, &mut Watched::new(reader), length)?;
    Ok(quiet.image().pages.len())
}

#[test]
fn an_image_is_loaded_or_refused(rt: HostRuntime) {
    let alloc = rt.alloc();
    let sound = split(&[]);
    let unsound = split(&[(856, 1)]);
    let cases: [(&[u8], Option<u64>, Result<usize, CommandFault>); 5] = [
        (sound.as_slice(), Some(2080), Ok(8)),
        (sound.as_slice(), None, Ok(8)),
        (sound.as_slice(), Some(2079), Err(CommandFault::Read)),
        (b"", None, Err(CommandFault::Unsound(1, 0))),
        (unsound.as_slice(), None, Err(CommandFault::Unsound(7, 3))),
    ];
    for (bytes, length, wanted) in cases {
        assert!(rt; loaded(alloc, bytes, length) == wanted);
    }
    assert!(rt; loaded(alloc, Zeros { left: 100 }, None) == Err(CommandFault::Read));
}
