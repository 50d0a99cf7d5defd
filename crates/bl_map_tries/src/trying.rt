//! Calls that wait for nothing, for who may not wait: each is done, or is given up where it holds no page, and then nothing of it is left.

ghost use Rattle.std.specs.Prelude.{◌≡◌, ◌↔◌, ◌<◌, ◌≤◌, true, false, IfSome, IfNone};
ghost use Rattle.bl_answers.specs.Hints.{level_of, key_of};
ghost use Rattle.bl_answers.specs.declared.answers.Hint.TheVariants as hints;
ghost use Rattle.bl_model.specs.declared.operation.KeyReply.TheVariants as replies;
ghost use Rattle.bl_model.specs.Replies.{reply_of};
ghost use Rattle.bl_model.specs.Writes.{write_op};
ghost use Rattle.bl_map_calls.specs.declared.room.Extent.TheVariants as extents;
ghost use Rattle.bl_index.specs.Calls.{first_of, pages_of, IsPassOf, IsSamePass, number_of, trail, StaysAlone};
ghost use Rattle.bl_map_calls.specs.Works.{Works, Adds, Swept, FoundNoRoom};
ghost use Rattle.bl_map_calls.specs.Follows.{Lowers};
ghost use Rattle.bl_map_tries.specs.Tries.{StopsLowering, TriesHint, TriesNext, TriesPieces, Mends, LooksForRoom, IsRefused, WritesAtOnce, WritesNone};
ghost use Rattle.bl_map_tries.specs.Tries.{HasNothingToDo, WalksOn, LooksOn, KeepsUp, is_done, left_behind, left_of};

use crate::walking::Walk;
use bl_index::{Hint, Index, KeyReply, KeyWrite, Lowered, Pass, Posted, Squeezed};
use bl_map_calls::calls::note_change;
use bl_map_calls::room::{Extent, wants_walk};
use bl_map_calls::upkeep::{Followed, Want, lacks, may_fall, sweep_if_due};
use bl_waiting::Waiting;

/// How often a call sweeps at most for what the pass lacks.
const SWEEPS: u32 = 8;

/// How many pieces that wait a write tries at most before it begins, and how many that it finds.
const PIECES: u32 = 16;

/// Sweeps while the pass lacks what it wants and some of that waits to be released, so many times at most. Says whether it lacks that no more.
fn release(index: &Index, pass: &mut Pass, want: Want) -> bool
    requires { IsPassOf index.now pass.old }
    ensures same { IsSamePass pass.old pass.new }
    ensures swept { Swept (first_of index.now) (number_of pass.old) (trail pass.old) (trail pass.new) }
{
    for _sweep in 0..SWEEPS {
        if !lacks(index, pass, want) {
            return true;
        }
        index.sweep(pass);
    }
    false
}

/// Takes top levels away that are not needed, so many at most, one after another. Says whether none was given up.
fn try_lowering(index: &Index, pass: &mut Pass, most: u32) -> bool
    requires { IsPassOf index.now pass.old }
    ensures same { IsSamePass pass.old pass.new }
    ensures lowers { result ≡ true → Lowers (first_of index.now) (number_of pass.old) most (trail pass.old) (trail pass.new) }
    ensures stops { result ≡ false → StopsLowering (first_of index.now) (number_of pass.old) most (trail pass.old) (trail pass.new) }
{
    for _level in 0..most {
        release(index, pass, Want::Frames);
        let Some(lowered) = index.try_lower(pass) else {
            return false;
        };
        match lowered {
            Lowered::Lowered => {}
            _ => return true,
        }
    }
    true
}

/// What is left behind a compression whose lowering was given up.
fn left_behind(next: Option<Hint>, piece: Hint) -> Option<Hint>
    ensures { result ≡ left_behind next piece }
{
    match next {
        Some(next) => Some(next),
        None => Some(piece),
    }
}

/// Posts, as the hint asks.
fn try_posting(index: &Index, pass: &mut Pass, hint: Hint) -> Option<Followed>
    requires own { IsPassOf index.now pass.old }
    requires post { hint ≡ hints.Post (level_of hint) (key_of hint) }
    ensures same { IsSamePass pass.old pass.new }
    ensures tries { TriesHint (first_of index.now) (number_of pass.old) hint result (trail pass.old) (trail pass.new) }
{
    release(index, pass, Want::Frames);
    let Some((posted, more)) = index.try_post(pass, hint, index.patience()) else {
        return None;
    };
    match posted {
        Posted::NoRoom => Some(Followed::NoRoom),
        _ => Some(Followed::Done(more)),
    }
}

/// Compresses, as the hint asks, and takes top levels away that are not needed any more.
fn try_compressing(index: &Index, pass: &mut Pass, hint: Hint) -> Option<Followed>
    requires own { IsPassOf index.now pass.old }
    requires thin { hint ≡ hints.Thin (level_of hint) (key_of hint) }
    ensures same { IsSamePass pass.old pass.new }
    ensures tries { TriesHint (first_of index.now) (number_of pass.old) hint result (trail pass.old) (trail pass.new) }
{
    release(index, pass, Want::Frames);
    let piece = hint;
    let Some((squeezed, more)) = index.try_compress(pass, hint, index.patience()) else {
        return None;
    };
    if let Squeezed::NoRoom = squeezed {
        return Some(Followed::NoRoom);
    }
    if try_lowering(index, pass, may_fall(squeezed)) {
        return Some(Followed::Done(more));
    }
    Some(Followed::Done(left_behind(more, piece)))
}

/// Tries a piece of upkeep: posts or compresses, as it asks. None: it was given up.
fn try_hint(index: &Index, pass: &mut Pass, hint: Hint) -> Option<Followed>
    requires { IsPassOf index.now pass.old }
    ensures same { IsSamePass pass.old pass.new }
    ensures tries { TriesHint (first_of index.now) (number_of pass.old) hint result (trail pass.old) (trail pass.new) }
{
    match hint {
        Hint::Post { .. } => try_posting(index, pass, hint),
        Hint::Thin { .. } => try_compressing(index, pass, hint),
    }
}

/// What is left of a piece that was tried.
fn left_of(otherwise: Option<Hint>, tried: &Option<Followed>) -> Option<Hint>
    ensures { result ≡ left_of otherwise tried.now }
{
    match tried {
        Some(Followed::Done(next)) => *next,
        Some(Followed::NoRoom) => otherwise,
        None => otherwise,
    }
}

/// Tries the oldest piece of upkeep that waits, and keeps what is left of it. `Done(None)` also where none waits; None: it was given up, and
/// waits again.
pub fn try_follow(index: &Index, pass: &mut Pass, waiting: &mut Waiting) -> Option<Followed>
    requires { IsPassOf index.now pass.old }
    ensures same { IsSamePass pass.old pass.new }
    ensures adds { Adds (first_of index.now) (number_of pass.old) (trail pass.old) (trail pass.new) }
    ensures tries { TriesNext (first_of index.now) (number_of pass.old) result waiting.old waiting.new (trail pass.old) (trail pass.new) }
{
    let Some(hint) = waiting.take() else {
        return Some(Followed::Done(None));
    };
    let piece = hint;
    let tried = try_hint(index, pass, hint);
    waiting.keep(left_of(Some(piece), &tried));
    tried
}

/// Whether a piece that was tried is done.
fn is_done(tried: Option<Followed>) -> bool
    ensures { result ≡ is_done tried }
{
    match tried {
        Some(Followed::Done(_)) => true,
        Some(Followed::NoRoom) => false,
        None => false,
    }
}

/// Tries pieces that wait, the oldest first, so many at most, until none waits or one is not done.
fn try_pieces(index: &Index, pass: &mut Pass, waiting: &mut Waiting, most: u32)
    requires { IsPassOf index.now pass.old }
    ensures same { IsSamePass pass.old pass.new }
    ensures tries { TriesPieces (first_of index.now) (number_of pass.old) most waiting.old waiting.new (trail pass.old) (trail pass.new) }
{
    for _piece in 0..most {
        if waiting.is_empty() {
            return;
        }
        if !is_done(try_follow(index, pass, waiting)) {
            return;
        }
    }
}

/// Tries the hint of a thin page that was found on a walk, and notes where it was given up.
fn mend(index: &Index, pass: &mut Pass, walk: &mut Walk, hint: Hint) -> Option<Followed>
    requires { IsPassOf index.now pass.old }
    ensures same { IsSamePass pass.old pass.new }
    ensures tries { TriesHint (first_of index.now) (number_of pass.old) hint result (trail pass.old) (trail pass.new) }
    ensures kept { (walk.new.refused ≡ walk.old.refused) × (walk.new.dropped ≡ walk.old.dropped) }
    ensures next { walk.new.next ≡ walk.old.next }
{
    let tried = try_hint(index, pass, hint);
    if tried.is_none() {
        walk.note_missed();
    }
    tried
}

/// Goes on with the walk to that page at most, and tries what it finds, so many at most.
fn mend_some(
    index: &Index,
    pass: &mut Pass,
    waiting: &mut Waiting,
    walk: &mut Walk,
    to: u32,
    extent: Extent,
)
    requires { IsPassOf index.now pass.old }
    ensures same { IsSamePass pass.old pass.new }
    ensures mends { Mends (first_of index.now) (number_of pass.old) 16 waiting.old waiting.new (trail pass.old) (trail pass.new) }
    ensures kept { (walk.new.refused ≡ walk.old.refused) × (walk.new.dropped ≡ walk.old.dropped) }
    ensures on { (walk.old.next ≤ walk.new.next) × (walk.old.next ≤ to → walk.new.next ≤ to) }
    ensures whole { extent ≡ extents.Whole → walk.old.next < to → walk.old.next < walk.new.next }
{
    for _piece in 0..PIECES {
        let Some(hint) = walk.next_thin(index, to, extent) else {
            return;
        };
        let tried = mend(index, pass, walk, hint);
        waiting.keep(left_of(None, &tried));
    }
}

/// Goes on with the walk by some pages, or begins one, and tries what it finds.
fn look_on(index: &Index, pass: &mut Pass, waiting: &mut Waiting, walk: &mut Walk, extent: Extent)
    requires { IsPassOf index.now pass.old }
    ensures same { IsSamePass pass.old pass.new }
    ensures mends { Mends (first_of index.now) (number_of pass.old) 16 waiting.old waiting.new (trail pass.old) (trail pass.new) }
    ensures refused { walk.old.refused ≤ walk.new.refused }
    ensures walks { extent ≡ extents.Whole → WalksOn (pages_of index.now) waiting.old walk.old walk.new }
{
    let to = walk.set_out(index, pass, waiting, extent);
    mend_some(index, pass, waiting, walk, to, extent);
    walk.come_to_end(index, pass);
}

/// Looks at some pages for such as are thin, where pages are scarce and it is not known that there is none.
fn look_where_scarce(index: &Index, pass: &mut Pass, waiting: &mut Waiting, walk: &mut Walk)
    requires { IsPassOf index.now pass.old }
    ensures same { IsSamePass pass.old pass.new }
    ensures mends { Mends (first_of index.now) (number_of pass.old) 16 waiting.old waiting.new (trail pass.old) (trail pass.new) }
    ensures refused { walk.old.refused ≤ walk.new.refused }
{
    let room = &index.tree().store.room;
    if room.has_none() || !room.lacks_pages() {
        return;
    }
    look_on(index, pass, waiting, walk, Extent::Enough);
}

/// The same before a write that may split a leaf. Says whether it may begin.
fn finds_pages(index: &Index, pass: &mut Pass, waiting: &mut Waiting, walk: &mut Walk) -> bool
    requires { IsPassOf index.now pass.old }
    ensures same { IsSamePass pass.old pass.new }
    ensures mends { Mends (first_of index.now) (number_of pass.old) 16 waiting.old waiting.new (trail pass.old) (trail pass.new) }
    ensures refused { result ≡ false → IsRefused walk.old walk.new }
{
    look_where_scarce(index, pass, waiting, walk);
    if !wants_walk(index) {
        walk.note_room();
        return true;
    }
    walk.is_out_of_patience()
}

/// Sweeps for frames, and for pages where the write may split a leaf while these are scarce. Says whether it lacks neither.
fn release_both(index: &Index, pass: &mut Pass, splits: bool) -> bool
    requires { IsPassOf index.now pass.old }
    ensures same { IsSamePass pass.old pass.new }
    ensures swept { Swept (first_of index.now) (number_of pass.old) (trail pass.old) (trail pass.new) }
{
    if !release(index, pass, Want::Frames) {
        return false;
    }
    if splits {
        return release(index, pass, Want::Pages);
    }
    true
}

/// Does upkeep, and looks for the room that a write may take. Says whether it may begin: it finds room; or none is to be found, or it was
/// refused so often in a row that it is to begin all the same.
pub fn try_room(
    index: &Index,
    pass: &mut Pass,
    waiting: &mut Waiting,
    walk: &mut Walk,
    key: u64,
    write: KeyWrite,
) -> bool
    requires { IsPassOf index.now pass.old }
    ensures same { IsSamePass pass.old pass.new }
    ensures adds { Adds (first_of index.now) (number_of pass.old) (trail pass.old) (trail pass.new) }
    ensures looks { LooksForRoom (first_of index.now) (number_of pass.old) waiting.old waiting.new (trail pass.old) (trail pass.new) }
    ensures refused { result ≡ false → IsRefused walk.old walk.new }
{
    sweep_if_due(index, pass);
    try_pieces(index, pass, waiting, PIECES);
    let splits = index.tree().may_lack_pages(key, write);
    if !release_both(index, pass, splits) {
        return walk.is_out_of_patience();
    }
    if splits {
        return finds_pages(index, pass, waiting, walk);
    }
    walk.note_room();
    true
}

/// Writes a key, or gives up. Before it begins it does upkeep, some pieces at most, and looks for room; what it has left to do waits. None: it
/// found no room yet, or a page was another process's. It has not been done, and nothing of it is left: it is to be made again, or not.
pub fn try_write(
    index: &Index,
    pass: &mut Pass,
    waiting: &mut Waiting,
    walk: &mut Walk,
    key: u64,
    write: KeyWrite,
) -> Option<KeyReply>
    requires { IsPassOf index.now pass.old }
    ensures same { IsSamePass pass.old pass.new }
    ensures writes { IfSome result (λ reply. WritesAtOnce (first_of index.now) (number_of pass.old) (write_op key write) (reply_of reply)
        waiting.old waiting.new (trail pass.old) (trail pass.new)) }
    ensures works { IfSome result (λ reply. Works (first_of index.now) (number_of pass.old) (write_op key write) (reply_of reply)
        (trail pass.old) (trail pass.new)) }
    ensures no_room { IfSome result (λ reply. reply ≡ replies.NoRoom → FoundNoRoom key write pass.old pass.new) }
    ensures none { IfNone result (WritesNone (first_of index.now) (number_of pass.old) (IsRefused walk.old walk.new) waiting.old waiting.new
        (trail pass.old) (trail pass.new)) }
    ensures undone { IfNone result (Adds (first_of index.now) (number_of pass.old) (trail pass.old) (trail pass.new)) }
    ensures alone { IfNone result (StaysAlone (first_of index.now) index.now (trail pass.old) (trail pass.new)) }
{
    if !try_room(index, pass, waiting, walk, key, write) {
        return None;
    }
    let Some((reply, hint)) = index.try_write(pass, key, write, index.patience()) else {
        return None;
    };
    note_change(index, &reply);
    waiting.keep(hint);
    Some(reply)
}

/// Looks at some pages for such as are thin, where nothing waits and some pieces were dropped.
fn look_where_dropped(index: &Index, pass: &mut Pass, waiting: &mut Waiting, walk: &mut Walk)
    requires { IsPassOf index.now pass.old }
    ensures same { IsSamePass pass.old pass.new }
    ensures looks { LooksOn (first_of index.now) (pages_of index.now) (number_of pass.old) waiting.old waiting.new walk.old walk.new
        (trail pass.old) (trail pass.new) }
{
    if !waiting.is_empty() || !walk.is_due(waiting) {
        return;
    }
    look_on(index, pass, waiting, walk, Extent::Whole);
}

/// Whether nothing is left to do.
fn has_nothing_to_do(walk: &Walk, waiting: &Waiting) -> bool
    ensures { result ≡ true ↔ HasNothingToDo walk.now waiting.now }
{
    if walk.is_due(waiting) {
        return false;
    }
    waiting.is_empty()
}

/// Does upkeep: tries pieces that wait, so many at most; and where none waits any more and some were dropped, looks at some pages for such
/// as are thin. Says whether nothing is left to do.
pub fn try_upkeep(
    index: &Index,
    pass: &mut Pass,
    waiting: &mut Waiting,
    walk: &mut Walk,
    most: u32,
) -> bool
    requires { IsPassOf index.now pass.old }
    ensures same { IsSamePass pass.old pass.new }
    ensures adds { Adds (first_of index.now) (number_of pass.old) (trail pass.old) (trail pass.new) }
    ensures keeps { KeepsUp (first_of index.now) (pages_of index.now) (number_of pass.old) most waiting.old waiting.new walk.old walk.new
        (trail pass.old) (trail pass.new) }
    ensures done { result ≡ true ↔ HasNothingToDo walk.new waiting.new }
{
    try_pieces(index, pass, waiting, most);
    look_where_dropped(index, pass, waiting, walk);
    has_nothing_to_do(walk, waiting)
}
