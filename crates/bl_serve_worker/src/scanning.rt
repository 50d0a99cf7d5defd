//! Scans: the parts of a map, each from where the last one ended, and what is told of their rows.

ghost use Rattle.std.specs.Prelude.{◌≡◌, ◌≢◌, ℕ, Some, OnOk};
ghost use Rattle.bl_model.specs.Parts.{ended_at};
ghost use Rattle.bl_map.specs.Handles.{IsSameHandle, HasCalled};
ghost use Rattle.bl_serve_lines.specs.Scans.{part_of};
ghost use Rattle.bl_serve_worker.specs.Answering.{HasAnswered, HasWrittenRows};

use bl_map::Handle;
use bl_model::{Next, Reply};
use bl_serve_lines::listing::{Listing, Scan, Until};
use bl_serve_lines::print::{push_number, push_part};
use bl_serve_lines::request::Request;
use std::alloc::AllocError;
use std::sync::Wait;

/// The rows of one leaf from a key on, as a scan goes. Upwards it looks first at the page that is near.
fn part<R: Wait>(
    rt: &R,
    handle: &mut Handle<'_>,
    until: Until,
    from: u64,
    near: &mut Option<u32>,
) -> Reply
    ensures same { IsSameHandle handle.old handle.new }
    ensures called { HasCalled (part_of until from) result handle.old handle.new }
{
    match until {
        Until::Top | Until::Below(_) => handle.part(rt, from, near),
        Until::DownTo(_) => handle.part_down(rt, from),
    }
}

/// Where a part ended, if not at the end of the map.
fn end_of(reply: &Reply) -> Option<u64>
    ensures { result ≡ ended_at reply.now }
{
    match reply {
        Reply::Rows(_, Next::More(key)) => Some(*key),
        _ => None,
    }
}

/// Writes the rows of a scan, part by part. No part is read that is not wanted.
fn write_rows<R: Wait>(
    rt: &R,
    handle: &mut Handle<'_>,
    scan: Scan,
    text: &mut Vec<u8>,
) -> Result<(), AllocError>
    ensures same { IsSameHandle handle.old handle.new }
    ensures writes { OnOk result (HasWrittenRows scan text.old.items text.new.items handle.old handle.new) }
{
    let mut near = None;
    let mut left = scan;
    for _ in rt.forever() {
        let Some(from) = left.place() else {
            return Ok(());
        };
        let reply = part(rt, handle, left.until, from, &mut near);
        let met = push_part(text, &reply, left.until, left.tells)?;
        left = Scan {
            from: end_of(&reply),
            until: left.until,
            tells: left.tells.behind(met),
        };
    }
    unreachable!()
}

/// Answers a scan by its rows.
fn list<R: Wait>(
    rt: &R,
    handle: &mut Handle<'_>,
    number: u64,
    asked: Listing,
    text: &mut Vec<u8>,
) -> Result<(), AllocError>
    requires { (low high : ℕ) → asked ≢ Listing.Count low high }
    ensures same { IsSameHandle handle.old handle.new }
    ensures answers { OnOk result (HasAnswered number (Some (Request.Scan asked)) text.old.items text.new.items handle.old handle.new) }
{
    push_number(text, b"", number)?;
    text.extend_from_slice(b" rows")?;
    write_rows(rt, handle, asked.scan(), text)?;
    text.push(b'\n')?;
    Ok(())
}

/// Answers how many rows there are from a key on and below another one.
fn count<R: Wait>(
    rt: &R,
    handle: &mut Handle<'_>,
    number: u64,
    low: u64,
    high: u64,
    text: &mut Vec<u8>,
) -> Result<(), AllocError>
    ensures same { IsSameHandle handle.old handle.new }
    ensures answers { OnOk result (HasAnswered number (Some (Request.Scan (Listing.Count low high))) text.old.items text.new.items handle.old handle.new) }
{
    let count = handle.count(rt, low, Some(high));
    push_number(text, b"", number)?;
    push_number(text, b" count ", count)?;
    text.push(b'\n')?;
    Ok(())
}

/// Answers a scan.
#[inline(never)]
pub(crate) fn scan<R: Wait>(
    rt: &R,
    handle: &mut Handle<'_>,
    number: u64,
    asked: Listing,
    text: &mut Vec<u8>,
) -> Result<(), AllocError>
    ensures same { IsSameHandle handle.old handle.new }
    ensures answers { OnOk result (HasAnswered number (Some (Request.Scan asked)) text.old.items text.new.items handle.old handle.new) }
{
    match asked {
        Listing::Count(low, high) => count(rt, handle, number, low, high, text),
        _ => list(rt, handle, number, asked, text),
    }
}
