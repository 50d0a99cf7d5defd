//! The output of a chunk is put together from those of its shares.

ghost use Rattle.std.specs.Prelude.{◌≡◌, ◌≤◌, ◌<◌, ◌+◌, ◌^◌, ◌++◌, ◌↔◌, ℕ, List, All, map, length, count_by, IsTrue, OnOk, IfErr, IsPermutation};
ghost use Rattle.bl_serve_lines.specs.Dealt.{numbers};
ghost use Rattle.bl_serve_worker.specs.Answering.{joined_text};
ghost use Rattle.bl_serve.specs.Joining.{IsOutputOf, IsWhole, NamesLost, times};
ghost use Rattle.bl_serve.specs.Serving.{IsInside};

use bl_serve_lines::ServeFault;
use bl_serve_worker::ShareOutput;
use std::alloc::{AllocError, Global};

/// How far the replies of a share are joined.
#[derive(Clone, Copy, Debug, PartialEq, Eq)]
struct Joined {
    /// So many replies.
    replies: usize,
    /// So many bytes of its text.
    bytes: usize,
}

/// How many of the outputs are of that share.
fn count_of(outputs: &[ShareOutput], share: u8) -> usize
    ensures { result ≡ times share outputs.now }
{
    outputs
        .iter()
        .filter(|output| output.share == share)
        .count()
}

/// The fault of a line whose share the outputs do not have exactly once, of lines with these shares behind so many others: it names the
/// first one.
fn lost_line(outputs: &[ShareOutput], deals: &[u8], before: u64) -> ServeFault
    requires room { before + length deals.now < 2 ^ 64 }
    ensures inside { IsInside before (length deals.now) result }
    ensures names { NamesLost outputs.now deals.now before result }
{
    for place in 0..deals.len() {
        if count_of(outputs, deals[place]) != 1 {
            return ServeFault::Lost(before + 1 + place as u64);
        }
    }
    // A share without lines is nobody's.
    ServeFault::Memory
}

/// Whether the outputs are those of so many shares, in their order.
fn are_all(outputs: &[ShareOutput], shares: usize) -> bool
    ensures { IsTrue result → map (λ w. w.share) outputs.now ≡ numbers 0 shares }
{
    if outputs.len() != shares {
        return false;
    }
    for place in 0..shares {
        if outputs[place].share as usize != place {
            return false;
        }
    }
    true
}

/// Appends the replies in the order of their lines.
fn merge(
    alloc: Global,
    outputs: &[ShareOutput],
    deals: &[u8],
    text: &mut Vec<u8>,
) -> Result<(), AllocError>
    requires all { map (λ w. w.share) outputs.now ≡ numbers 0 (length outputs.now) }
    requires whole { All (IsWhole deals.now) outputs.now }
    requires low { All (λ share. share < length outputs.now) deals.now }
    ensures { OnOk result ((texts : List (List ℕ)) → length texts ≡ length deals.now → All (IsOutputOf deals.now texts) outputs.now
        → text.new.items ≡ text.old.items ++ joined_text texts) }
{
    let none = Joined {
        replies: 0,
        bytes: 0,
    };
    let mut joined = vec![in alloc; none; outputs.len()]?;
    for place in 0..deals.len() {
        let share = deals[place] as usize;
        let Joined { replies, bytes } = joined[share];
        let output = &outputs[share];
        let end = bytes + output.lengths[replies];
        text.extend_from_slice(&output.text[bytes..end])?;
        joined[share] = Joined {
            replies: replies + 1,
            bytes: end,
        };
    }
    Ok(())
}

/// Appends the replies to lines that have these of so many shares, behind so many others, in the order of the lines.
pub fn join_outputs(
    alloc: Global,
    outputs: Vec<ShareOutput>,
    deals: &[u8],
    shares: usize,
    before: u64,
    text: &mut Vec<u8>,
) -> Result<(), ServeFault>
    requires whole { All (IsWhole deals.now) outputs.items }
    requires low { All (λ share. share < shares) deals.now }
    requires room { before + length deals.now < 2 ^ 64 }
    ensures text { OnOk result ((sorted : List _) × IsPermutation outputs.items sorted × (map (λ w. w.share) sorted ≡ numbers 0 shares)
        × ((texts : List (List ℕ)) → length texts ≡ length deals.now → All (IsOutputOf deals.now texts) sorted → text.new.items ≡ text.old.items ++ joined_text texts)) }
    ensures fault { IfErr result (IsInside before (length deals.now)) }
    ensures lost { IfErr result (NamesLost outputs.items deals.now before) }
{
    let mut outputs = outputs;
    outputs.sort_by_key(|output| output.share)?;
    if !are_all(outputs.as_slice(), shares) {
        return Err(lost_line(outputs.as_slice(), deals, before));
    }
    merge(alloc, outputs.as_slice(), deals, text)?;
    Ok(())
}
