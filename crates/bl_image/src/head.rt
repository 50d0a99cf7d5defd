//! The head of an image.

ghost use Rattle.std.specs.Prelude.{◌≡◌, ℕ, ◌+◌, ◌*◌, ◌-◌, ◌^◌, ◌<◌, ◌≤◌, ◌↔◌, Some, length, replicate, IsTrue, IfSome, MatchOption};
ghost use Rattle.bl_image.specs.Images.{head_bytes, version_of as the_version_of, bound_of as the_bound_of, least_stored as the_least_stored, told_of as the_told_of, chunk, IsCount, IsStored, IsHead};

use bl_model::limits::{LEAST_PAGES, MOST_LARGE_PAGES, MOST_PAGES};
use bl_page::{KIND_UNIT, LEVEL_UNIT};
use byteorder::{ByteOrder, LittleEndian};

/// The numbers that a head gives.
#[derive(Clone, Copy)]
pub struct Head {
    /// So many pages there are, 4 to 2^28.
    pub count: u32,
    /// So many of them are stored; behind them none is in use.
    pub stored: u32,
}

/// The version of an image of so many pages.
fn version_of(count: u32) -> u32
    ensures { result ≡ the_version_of count }
{
    if count > MOST_PAGES { 2 } else { 1 }
}

/// What the numbers of pages are below that the words of such an image name.
pub fn bound_of(count: u32) -> u64
    ensures bound { result ≡ the_bound_of count }
    ensures most { result ≤ 2 ^ 32 }
{
    if count > MOST_PAGES {
        KIND_UNIT
    } else {
        LEVEL_UNIT
    }
}

/// So many pages at least are stored of so many.
pub fn least_stored(count: u32) -> u32
    ensures { result ≡ the_least_stored count }
{
    if count > MOST_PAGES {
        LEAST_PAGES
    } else {
        count
    }
}

/// What the head tells of so many stored pages.
fn told_of(count: u32, stored: u32) -> u32
    ensures { result ≡ the_told_of count stored }
{
    if count > MOST_PAGES { stored } else { 0 }
}

/// The head of an image of so many pages, of which so many are stored.
pub fn head_of(count: u32, stored: u32) -> [u8; 32]
    ensures { result ≡ head_bytes count stored }
{
    let mut head = [0; 32];
    head[..8].copy_from_slice(b"BLNKIDX1");
    LittleEndian::write_u32(&mut head[8..], version_of(count));
    LittleEndian::write_u32(&mut head[12..], count);
    LittleEndian::write_u32(&mut head[16..], told_of(count, stored));
    head
}

/// Whether an image may have so many pages.
fn is_count(count: u32) -> bool
    ensures { IsTrue result ↔ IsCount count }
{
    count >= LEAST_PAGES && count <= MOST_LARGE_PAGES
}

/// How many pages there are, as a head says.
fn count_in(head: &[u8]) -> Option<u32>
    requires { length head.now ≡ 32 }
    ensures some { IfSome result IsCount }
    ensures only { (count kept : ℕ) → head.now ≡ head_bytes count kept → IsCount count → result ≡ Some count }
{
    let count = LittleEndian::read_u32(&head[12..]);
    if !is_count(count) {
        return None;
    }
    Some(count)
}

/// How many of so many pages are stored, as a head says.
fn stored_in(head: &[u8], count: u32) -> u32
    requires { length head.now ≡ 32 }
    ensures large { 65536 < count → (kept : ℕ) → head.now ≡ head_bytes count kept → kept < 2 ^ 32 → result ≡ kept }
    ensures small { count ≤ 65536 → result ≡ count }
{
    if count > MOST_PAGES {
        LittleEndian::read_u32(&head[16..])
    } else {
        count
    }
}

/// Whether the last of so many pages that are stored is not in use.
fn ends_blank(bytes: &[u8], stored: u32) -> bool
    requires some { 0 < stored }
    requires long { length bytes.now ≡ 32 + 256 * stored }
    ensures { IsTrue result ↔ (chunk bytes.now (stored - 1) ≡ replicate 256 0) }
{
    let at = 32 + 256 * (stored - 1) as usize;
    let blank = [0; 256];
    &bytes[at..at + 256] == blank.as_slice()
}

/// Whether bytes of that length may store so many of so many pages, and none in vain.
fn fits(bytes: &[u8], count: u32, stored: u32) -> bool
    requires { IsCount count }
    ensures { IsTrue result ↔ (IsStored bytes.now count stored × (length bytes.now ≡ 32 + 256 * stored)) }
{
    let least = least_stored(count);
    if stored < least || stored > count || bytes.len() != 32 + 256 * stored as usize {
        return false;
    }
    stored == least || !ends_blank(bytes, stored)
}

/// What the head says, if it is an image's and the length is that of so many stored pages, of which none is stored in vain.
pub fn head_in(bytes: &[u8]) -> Option<Head>
    ensures { MatchOption result ((count kept : ℕ) → ¬ IsHead bytes.now count kept)
        (λ head. IsHead bytes.now head.count head.stored) }
{
    if bytes.len() < 32 {
        return None;
    }
    let head = &bytes[..32];
    let Some(count) = count_in(head) else {
        return None;
    };
    let stored = stored_in(head, count);
    if !fits(bytes, count, stored) {
        return None;
    }
    if head != head_of(count, stored).as_slice() {
        return None;
    }
    Some(Head { count, stored })
}
