//! Images written and read again. What is read of an image, and what is refused, stands in `test_worked_values`.

ghost use Rattle.std.specs.Prelude.{◌≡◌, ◌≤◌, IfOk, OnOk, MatchResult};
ghost use Rattle.std.specs.Io.KnownBytes.{Appends};
ghost use Rattle.bl_image.specs.Images.{AreWithin};
ghost use Rattle.bl_image.specs.declared.fault.ImageFault.TheVariants.{Memory};

use bl_image::{Image, ImageFault, image_length, read};
use bl_model::Watched;
use std::alloc::Global;
use std::io;
use std::io::{ErrorKind, Write};
use std::test::Fail;

/// A place of an image, and the byte there.
type Byte = (usize, u8);

/// The head of an image of 4 pages; an anchor with one level; an empty leaf.
const OPENING: [Byte; 14] = [
    (0, b'B'),
    (1, b'L'),
    (2, b'N'),
    (3, b'K'),
    (4, b'I'),
    (5, b'D'),
    (6, b'X'),
    (7, b'1'),
    (8, 1),
    (12, 4),
    (32, 1),
    (36, 1),
    (64, 1),
    (292, 2),
];

/// The image of an opening index, with two pages that are not in use, and with these bytes changed.
pub(crate) fn opening(changes: &[Byte]) -> [u8; 1056] {
    let mut bytes = [0; 1056];
    set(&mut bytes, &OPENING);
    set(&mut bytes, changes);
    bytes
}

fn set(bytes: &mut [u8], changes: &[Byte]) {
    for (place, value) in changes {
        if let Some(byte) = bytes.get_mut(*place) {
            *byte = *value;
        }
    }
}

/// What is read is written as it was: for any bytes and any writer.
fn copy<W: Write>(
    alloc: Global,
    bytes: &[u8],
    writer: &mut Watched<W>,
) -> Result<(), Option<ImageFault>>
    ensures { OnOk result (Appends (W.contents writer.old.inner) (W.contents writer.new.inner) bytes.now) }
{
    match read(alloc, bytes) {
        Ok(image) => match image.write(writer) {
            Ok(()) => Ok(()),
            Err(_) => Err(None),
        },
        Err(fault) => Err(Some(fault)),
    }
}

/// What is written is read as it was, unless memory runs out: for any image whose pages name pages by numbers that its version has.
fn reread(alloc: Global, image: &Image) -> Result<Image, ImageFault>
    ensures { AreWithin image.now.pages.items → MatchResult result (λ back. back.pages.items ≡ image.now.pages.items) (λ fault. fault ≡ Memory) }
{
    let mut writer = Watched::new(Vec::new(alloc));
    match image.write(&mut writer) {
        Ok(()) => read(alloc, writer.into_inner().as_slice()),
        Err(_) => Err(ImageFault::Memory),
    }
}

/// Takes at most 100 bytes a call and `room` bytes more, and is interrupted before each call.
#[derive(Drop)]
struct Narrow {
    taken: Vec<u8>,
    room: usize,
    interrupts: bool,
    flushes: bool,
}

impl Write for Narrow {
    fn write(&mut self, buf: &[u8]) -> io::Result<usize> {
        self.interrupts = !self.interrupts;
        if self.interrupts {
            return Err(io::Error::from(ErrorKind::Interrupted));
        }
        let count = buf.len().min(self.room).min(100);
        self.room -= count;
        match self.taken.extend_from_slice(&buf[..count]) {
            Ok(()) => Ok(count),
            Err(_) => Err(io::Error::from(ErrorKind::BrokenPipe)),
        }
    }

    fn flush(&mut self) -> io::Result<()> {
        if self.flushes {
            Ok(())
        } else {
            Err(io::Error::from(ErrorKind::BrokenPipe))
        }
    }
}

/// A writer of that kind that has taken nothing.
fn writer_with(alloc: Global, room: usize, flushes: bool) -> Watched<Narrow> {
    Watched::new(Narrow {
        taken: Vec::new(alloc),
        room,
        interrupts: false,
        flushes,
    })
}

#[test]
fn an_image_is_written_as_it_was_read(rt: HostRuntime) -> Result<(), Fail> {
    let mut writer = Watched::new(Vec::new(rt.alloc()));
    assert!(rt; copy(rt.alloc(), &opening(&[]), &mut writer).is_ok() && !writer.failed());
    assert!(rt; writer.into_inner().as_slice() == opening(&[]).as_slice());
    let image = read(rt.alloc(), &opening(&[])).ok().ok_or("no image")?;
    let back = reread(rt.alloc(), &image).ok().ok_or("not read again")?;
    assert!(rt; back.pages.len() == 4);
    assert!(rt; back.words_at(1)[0] == 2 << 32 && back.words_at(2) == [0; 32]);
    Ok(())
}

#[test]
fn an_image_is_spelled_into_an_array(rt: HostRuntime) -> Result<(), Fail> {
    let image = read(rt.alloc(), &opening(&[])).ok().ok_or("no image")?;
    assert!(rt; image.size() == 1056 && image_length(4) == 1056);
    let mut bytes = [255; 1056];
    image.spell(&mut bytes);
    assert!(rt; bytes.as_slice() == opening(&[]).as_slice());
    Ok(())
}

/// The image of an opening index of 65,537 pages, of which four are stored, with these bytes changed.
fn large(changes: &[Byte]) -> [u8; 1056] {
    let mut bytes = opening(&[(8, 2), (12, 1), (14, 1), (16, 4)]);
    set(&mut bytes, changes);
    bytes
}

#[test]
fn of_a_large_image_no_page_behind_the_last_one_in_use_is_stored(
    rt: HostRuntime,
) -> Result<(), Fail> {
    let mut writer = Watched::new(Vec::new(rt.alloc()));
    assert!(rt; copy(rt.alloc(), &large(&[]), &mut writer).is_ok());
    assert!(rt; writer.into_inner().as_slice() == large(&[]).as_slice());
    let image = read(rt.alloc(), &large(&[])).ok().ok_or("no image")?;
    assert!(rt; image.pages.len() == 65_537 && image.size() == 1056);
    let back = reread(rt.alloc(), &image).ok().ok_or("not read again")?;
    assert!(rt; back.pages.len() == 65_537);
    Ok(())
}

// Three pages and five, where four are stored; five, of which the last is not in use; and where it is a dead leaf.
#[test]
fn a_large_image_stores_no_page_in_vain(rt: HostRuntime) {
    for stored in [3, 5] {
        let fault = read(rt.alloc(), &large(&[(16, stored)])).err();
        assert!(rt; fault == Some(ImageFault::Head));
    }
    let mut five = [0; 1312];
    five[..1056].copy_from_slice(&large(&[(16, 5)]));
    assert!(rt; read(rt.alloc(), &five).err() == Some(ImageFault::Head));
    five[1060] = 4;
    assert!(rt; read(rt.alloc(), &five).is_ok());
}

// The version and the numbers are those of another image.
#[test]
fn an_image_of_the_other_version_is_none(rt: HostRuntime) {
    let changes: [&[Byte]; 3] = [&[(8, 1)], &[(14, 0)], &[(12, 0)]];
    for change in changes {
        assert!(rt; read(rt.alloc(), &large(change)).err() == Some(ImageFault::Head));
    }
    assert!(rt; read(rt.alloc(), &opening(&[(16, 4)])).err() == Some(ImageFault::Head));
}

#[test]
fn a_full_writer_keeps_a_beginning(rt: HostRuntime) {
    let image = opening(&[]);
    for room in 0..1057usize {
        let mut writer = writer_with(rt.alloc(), room, true);
        let copied = copy(rt.alloc(), &image, &mut writer);
        let is_full = room < 1056;
        assert!(rt; copied == if is_full { Err(None) } else { Ok(()) });
        assert!(rt; writer.failed() || !is_full);
        assert!(rt; image.as_slice().get(..room) == Some(writer.into_inner().taken.as_slice()));
    }
}

#[test]
fn a_failed_flush_is_a_fault(rt: HostRuntime) {
    let mut writer = writer_with(rt.alloc(), 1056, false);
    assert!(rt; copy(rt.alloc(), &opening(&[]), &mut writer) == Err(None));
    assert!(rt; writer.failed() && writer.into_inner().taken.len() == 1056);
}
