//! The two children of a parent that are to be compressed for a key.

ghost use Rattle.std.specs.Prelude.{◌≡◌, ◌<◌, length};
ghost use Rattle.bl_page.specs.Pairs.{IsWithin};
ghost use Rattle.bl_proc_compress.specs.Compressions.{right_place, AreSiblings};

use bl_page::{Inner, place_of};
use bl_rearrange::{Family, Siblings};

/// The place of the right one of the two: behind the child for the key, or that child's own where it is the last.
fn right_place(children: &[(u64, u64)], key: u64) -> usize
    requires { 0 < length children.now }
    ensures place { result ≡ right_place key children.now }
    ensures within { result < length children.now }
{
    let place = place_of(children, key);
    if place < children.len() {
        place
    } else {
        place - 1
    }
}

/// The child for the key and the next one, or the last two, if the parent has two.
pub fn siblings(at: u32, parent: Inner, key: u64) -> Option<Family>
    requires { IsWithin parent.low parent.high key }
    ensures { AreSiblings at key parent result }
{
    if parent.children.len() < 2 {
        return None;
    }
    let children = parent.children.as_slice();
    let place = right_place(children, key);
    let (_, left) = children[place - 1];
    let (listed_by, right) = children[place];
    let at = Siblings {
        parent: at,
        left: left as u32,
        right: right as u32,
    };
    Some(Family {
        at,
        parent,
        key: listed_by,
    })
}
