//! Dumps: the image that the served requests leave.

ghost use Rattle.std.specs.Prelude.{◌≤◌};
ghost use Rattle.bl_serve_ground.specs.Origins.{HasPages};

use crate::served::{inserts, inserts_before};
use bl_check::{Quiet, Report, check, load};
use bl_model::Watched;
use bl_serve::{Origin, ServeFault, Totals, dump_index, serve_index};
use std::alloc::{AllocError, Global};
use std::io;
use std::io::{ErrorKind, Write};
use std::sync::Wait;
use std::test::Fail;
use std::thread::Threads;

/// Fails at each write.
#[derive(Drop)]
struct Broken;

impl Write for Broken {
    fn write(&mut self, _buf: &[u8]) -> io::Result<usize> {
        Err(io::Error::from(ErrorKind::BrokenPipe))
    }

    fn flush(&mut self) -> io::Result<()> {
        Err(io::Error::from(ErrorKind::BrokenPipe))
    }
}

/// How a server ends that dumps its index.
type Ended = Result<(Totals, Result<Quiet, AllocError>), ServeFault>;

/// The bytes of an image.
fn bytes_of(alloc: Global, quiet: Quiet) -> Option<Vec<u8>> {
    let mut image = Watched::new(Vec::new(alloc));
    match quiet.image().write(&mut image) {
        Ok(_) => Some(image.into_inner()),
        Err(_) => None,
    }
}

/// The bytes of the image that a server leaves.
fn left_by(alloc: Global, ended: Ended) -> Option<Vec<u8>> {
    match ended {
        Ok((_, Ok(quiet))) => bytes_of(alloc, quiet),
        _ => None,
    }
}

/// What a server that begins so writes for these bytes, and the bytes of the image that it leaves.
fn dumped<R: Threads + Wait + Sync>(
    rt: &R,
    alloc: Global,
    origin: Origin,
    input: &[u8],
    workers: u32,
    compressors: u32,
) -> Option<(Vec<u8>, Vec<u8>)>
    requires pages { HasPages origin }
    requires passes { (1 ≤ workers) × (workers ≤ 32) × (compressors ≤ 16) }
{
    let mut reader = Watched::new(input);
    let mut writer = Watched::new(Vec::new(alloc));
    let ended = dump_index(
        rt,
        alloc,
        origin,
        workers,
        compressors,
        &mut reader,
        &mut writer,
    );
    match left_by(alloc, ended) {
        Some(image) => Some((writer.into_inner(), image)),
        None => None,
    }
}

/// Adds a page with these words and zeros behind them.
fn push_page(bytes: &mut Vec<u8>, words: &[u64]) -> Result<(), Fail> {
    for place in 0..32usize {
        let word = words.get(place).copied().unwrap_or(0);
        bytes.extend_from_slice(&word.to_le_bytes())?;
    }
    Ok(())
}

/// What stands before the pages of an image that has 8 of them.
const HEAD: &[u8] = b"BLNKIDX1\x01\0\0\0\x08\0\0\0\0\0\0\0\0\0\0\0\0\0\0\0\0\0\0\0";

/// The words of a leaf with keys 1 to 8.
const LOWER: &[u64] = &[
    8_589_934_600,
    0,
    9,
    2,
    1,
    10,
    2,
    20,
    3,
    30,
    4,
    40,
    5,
    50,
    6,
    60,
    7,
    70,
    8,
    80,
];

/// And of one with keys 9 to 15.
const UPPER: &[u64] = &[
    8_589_934_599,
    9,
    0,
    0,
    9,
    90,
    10,
    100,
    11,
    110,
    12,
    120,
    13,
    130,
    14,
    140,
    15,
    150,
];

/// The image of 8 pages in which keys 1 to 15 stand in two leaves.
fn split_image(alloc: Global) -> Result<Vec<u8>, Fail> {
    let mut bytes = Vec::new(alloc);
    bytes.extend_from_slice(HEAD)?;
    let pages: [&[u64]; 8] = [
        &[4_294_967_298, 0, 0, 0, 1, 3],
        LOWER,
        UPPER,
        &[12_884_967_426, 0, 0, 0, 0, 1, 9, 2],
        &[],
        &[],
        &[],
        &[],
    ];
    for words in pages {
        push_page(&mut bytes, words)?;
    }
    Ok(bytes)
}

/// Whether the bytes are that image.
fn is_split(alloc: Global, bytes: &[u8]) -> Result<bool, Fail> {
    let wanted = split_image(alloc)?;
    Ok(bytes == wanted.as_slice())
}

/// What a server of an empty index writes for these lines, and the bytes of the image that it leaves.
fn dumped_empty<R: Threads + Wait + Sync>(
    rt: &R,
    alloc: Global,
    input: &[u8],
    workers: u32,
    compressors: u32,
) -> Result<(Vec<u8>, Vec<u8>), Fail>
    requires { (1 ≤ workers) × (workers ≤ 32) × (compressors ≤ 16) }
{
    Ok(dumped(rt, alloc, Origin::Empty(8), input, workers, compressors).ok_or("no dump")?)
}

/// How many rows a sound image has, and how many pages that are not listed.
fn rows_of(alloc: Global, image: &[u8]) -> Option<(u32, u32)> {
    match check(alloc, image) {
        Ok(Report { rows, unposted, .. }) => Some((rows, unposted)),
        Err(_) => None,
    }
}

// One worker inserts keys 1 to 15: the last one parts the leaf, and the post lists both.
#[test]
fn a_split_index_is_dumped(rt: HostRuntime) -> Result<(), Fail> {
    let input = inserts(rt.alloc(), 15)?;
    let (_text, image) = dumped_empty(&rt, rt.alloc(), input.as_slice(), 1, 0)?;
    assert!(rt; is_split(rt.alloc(), image.as_slice())?);
    Ok(())
}

// What two workers and a compressor have served, behind a line without LF too, is a sound image with a row for each key.
#[test]
fn a_dump_is_sound(rt: HostRuntime) -> Result<(), Fail> {
    let more = b"sync\ndelete 3\nsync\nfind 3\ninsert 3 4".as_slice();
    let wanted = b"16 synced\n17 deleted 30\n18 synced\n19 absent\n20 malformed\n".as_slice();
    let input = inserts_before(rt.alloc(), 15, more)?;
    let (text, image) = dumped_empty(&rt, rt.alloc(), input.as_slice(), 2, 1)?;
    let ends = text.as_slice().ends_with(wanted);
    let rows = rows_of(rt.alloc(), image.as_slice());
    assert_eq!(rt; (ends, rows), (true, Some((14, 0))));
    Ok(())
}

// A server that stops leaves no image.
#[test]
fn a_fault_leaves_no_image(rt: HostRuntime) -> Result<(), Fail> {
    let input: &[u8] = b"insert 1 10\n";
    let mut reader = Watched::new(input);
    let mut writer = Watched::new(Broken);
    let served = dump_index(
        &rt,
        rt.alloc(),
        Origin::Empty(8),
        1,
        0,
        &mut reader,
        &mut writer,
    );
    assert!(rt; matches!(served, Err(ServeFault::Write)));
    Ok(())
}

/// The sound image in which keys 1 to 15 stand in two leaves.
fn split_quiet(alloc: Global) -> Result<Quiet, Fail> {
    let bytes = split_image(alloc)?;
    Ok(load(alloc, bytes.as_slice()).ok().ok_or("not sound")?)
}

/// Whether a worker that begins with the image writes these lines for those.
fn answers_from<R: Threads + Wait + Sync>(
    rt: &R,
    alloc: Global,
    quiet: Quiet,
    input: &[u8],
    output: &[u8],
) -> bool {
    let mut reader = Watched::new(input);
    let mut writer = Watched::new(Vec::new(alloc));
    match serve_index(
        rt,
        alloc,
        Origin::Image(quiet),
        1,
        0,
        &mut reader,
        &mut writer,
    ) {
        Ok(_) => writer.into_inner().as_slice() == output,
        Err(_) => false,
    }
}

// A server that begins with an image answers from its rows, and changes them. The anchor, two leaves and the page above them are in use.
#[test]
fn a_server_goes_on_from_an_image(rt: HostRuntime) -> Result<(), Fail> {
    let input = b"find 12\ninsert 3 31\ndelete 15\nfind 15\nscan 14 20\nfind 16\nstat\n".as_slice();
    let wanted =
        b"1 found 120\n2 present 30\n3 deleted 150\n4 absent\n5 rows 14=140\n6 absent\n7 pages 8 used 4 free 4\n".as_slice();
    let quiet = split_quiet(rt.alloc())?;
    assert!(rt; answers_from(&rt, rt.alloc(), quiet, input, wanted));
    Ok(())
}

/// A dump of a server that begins with the sound image.
fn dumped_from<R: Threads + Wait + Sync>(
    rt: &R,
    alloc: Global,
    input: &[u8],
    workers: u32,
    compressors: u32,
) -> Result<(Vec<u8>, Vec<u8>), Fail>
    requires { (1 ≤ workers) × (workers ≤ 32) × (compressors ≤ 16) }
{
    let origin = Origin::Image(split_quiet(alloc)?);
    Ok(dumped(rt, alloc, origin, input, workers, compressors).ok_or("no dump")?)
}

/// Whether a server that is asked nothing writes nothing, and leaves the image as it was.
fn stays<R: Threads + Wait + Sync>(rt: &R, alloc: Global) -> Result<(bool, bool), Fail> {
    let (text, image) = dumped_from(rt, alloc, b"", 1, 0)?;
    Ok((text.is_empty(), is_split(alloc, image.as_slice())?))
}

/// Whether two workers and a compressor write these lines for those, how many rows and unlisted pages the image has that they
/// leave, and how many bytes.
fn changes<R: Threads + Wait + Sync>(
    rt: &R,
    alloc: Global,
    input: &[u8],
    output: &[u8],
) -> Result<(bool, Option<(u32, u32)>, usize), Fail> {
    let (text, image) = dumped_from(rt, alloc, input, 2, 1)?;
    Ok((
        text.as_slice() == output,
        rows_of(alloc, image.as_slice()),
        image.len(),
    ))
}

// The dump of an image that nothing has changed is that image. What two workers change behind it is in the next one.
#[test]
fn a_dump_goes_on_from_an_image(rt: HostRuntime) -> Result<(), Fail> {
    assert_eq!(rt; stays(&rt, rt.alloc())?, (true, true));
    let input = b"insert 16 160\ndelete 3\nsync\nfind 16\n".as_slice();
    let output = b"1 inserted\n2 deleted 30\n3 synced\n4 found 160\n".as_slice();
    let changed = changes(&rt, rt.alloc(), input, output)?;
    assert!(rt; matches!(changed, (true, Some((15, _)), 2080)));
    Ok(())
}
