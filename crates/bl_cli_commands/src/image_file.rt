//! The bytes of a file that may be an image: as many are read as an image that begins so may have, and one more where there are more. So a
//! file that has no end, as a device or a pipe, is read to one. This is tested.

use crate::fault::CommandFault;
use bl_model::Watched;
use bl_model::limits::{MOST_LARGE_PAGES, MOST_PAGES};
use std::alloc::Global;
use std::fs::OpenFile;
use std::io::{Chain, Cursor, ErrorKind, Read, Take};

/// The first bytes of each image.
const MAGIC: &[u8] = b"BLNKIDX1";

/// So many bytes tell how many pages an image has, and how many of them are stored.
const HEAD: usize = 20;

/// The bytes of such a file: those that were read to know how many there may be, and then the others.
pub(crate) type ImageBytes<F> = Watched<Chain<Cursor<Vec<u8>>, Take<F>>>;

/// The bytes of a file and its length. A pipe or a device has no length; and that of a file which is longer than an image that begins so
/// says nothing, as it is not read to its end.
pub(crate) fn image_file<F: OpenFile + Read + Drop>(
    alloc: Global,
    file: F,
) -> Result<(ImageBytes<F>, Option<u64>), CommandFault> {
    let length = length_of(&file)?;
    let mut file = file;
    let head = head_of(alloc, &mut file)?;
    let told = length_told(head.as_slice());
    let left = told.saturating_add(1).saturating_sub(head.len() as u64);
    let bytes = Watched::new(Cursor::new(head).chain(file.take(left)));
    Ok((bytes, length.filter(|length| *length <= told)))
}

/// The length of a file, which a pipe or a device has not.
fn length_of<F: OpenFile>(file: &F) -> Result<Option<u64>, CommandFault> {
    match file.metadata() {
        Ok(metadata) if metadata.is_file() => Ok(Some(metadata.len())),
        Ok(_) => Ok(None),
        Err(_) => Err(CommandFault::Read),
    }
}

/// The first bytes of a file, as many as tell how many pages an image stores, or all where there are fewer.
fn head_of<F: Read>(alloc: Global, file: &mut F) -> Result<Vec<u8>, CommandFault> {
    let mut head = Vec::new(alloc);
    let mut piece = [0u8; HEAD];
    for _ in 0..u64::MAX {
        let wanted = HEAD.saturating_sub(head.len()).min(HEAD);
        match file.read(&mut piece[..wanted]) {
            Ok(0) => break,
            Ok(count) => head.extend_from_slice(&piece[..count])?,
            Err(error) if error.kind() == ErrorKind::Interrupted => {}
            Err(_) => return Err(CommandFault::Read),
        }
    }
    Ok(head)
}

/// How many bytes an image may have that begins so: as many as its head tells, or those of the longest one that is not large.
fn length_told(head: &[u8]) -> u64 {
    let stored = match head {
        // Only of a large image is the last number not 0.
        [magic @ .., _, _, _, _, _, _, _, _, a, b, c, d] if magic == MAGIC => {
            u32::from_le_bytes([*a, *b, *c, *d]).clamp(MOST_PAGES, MOST_LARGE_PAGES)
        }
        _ => MOST_PAGES,
    };
    32 + 256 * u64::from(stored)
}
