//! How much memory is wanted, where it was refused. These lines are tested.

ghost use Rattle.std.specs.Prelude.{◌≤◌, ◌^◌};

use bl_layout::Layout;
use std::alloc::{AllocError, Global};

/// How many bytes a word has.
const WORD: u64 = 8;

/// The line for a server that there was no memory for: what its index of so many pages takes, which works for so many threads.
pub fn index_line(alloc: Global, pages: u32, threads: u32) -> Result<String, AllocError>
    requires pages { (4 ≤ pages) × (pages ≤ 2 ^ 28) }
    requires threads { (1 ≤ threads) × (threads ≤ 64) }
{
    let words = Layout::of(pages, threads).words() as u64;
    let bytes = words.saturating_mul(WORD);
    format!(in alloc;
        "blink: an index of {pages} pages takes {bytes} bytes, and up to twice as many while it is opened"
    )
}

/// Replies of so many bytes in a section are told of.
const MUCH: u64 = 256 << 20;

/// What helps where replies take much memory.
pub const SECTION_ADVICE: &str =
    "blink: replies are kept in memory until a sync comes; --section N writes them behind so many lines";

/// The line for a server that has kept the replies of a section, so many bytes, until the section ended: where they were many.
pub fn section_line(alloc: Global, bytes: u64) -> Result<Option<String>, AllocError> {
    if bytes < MUCH {
        return Ok(None);
    }
    let megabytes = bytes >> 20;
    Ok(Some(format!(in alloc;
        "blink: {megabytes} MB of replies were kept in memory until a sync came; --section N writes them behind so many lines"
    )?))
}
