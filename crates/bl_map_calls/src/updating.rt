//! A row is changed by a function of its value.

ghost use Rattle.std.specs.Prelude.{◌≡◌, ℕ};
ghost use Rattle.bl_model.specs.declared.deciding.KeyWrite.TheVariants as key_write;
ghost use Rattle.bl_index.specs.Calls.{first_of, pages_of, IsPassOf, IsSamePass, number_of, trail};
ghost use Rattle.bl_map_calls.specs.Updates.{Updates};
ghost use Rattle.bl_map_calls.specs.Works.{FoundNoRoom};
ghost use Rattle.bl_map_calls.specs.declared.updating.Updated.TheVariants as updated;

use crate::{calls, writes};
use bl_index::{Index, KeyReply, KeyWrite, Pass};
use bl_waiting::Waiting;
use std::sync::Wait;

/// What became of a row that was to be changed by a function of its value.
#[derive(Clone, Copy, Debug, PartialEq, Eq)]
pub enum Updated {
    /// It had the first value, and has the second one now, which the function gave for the first.
    Changed(u64, u64),
    /// The key has no value.
    Absent,
    /// There was no room for the change, and the row is as it was.
    NoRoom,
}

/// What the function gives for a value.
fn given_for<F: FnMut(u64) -> u64>(value: u64, give: &mut F) -> u64
    requires { F.IsAlwaysCallable give.old }
    ensures callable { F.IsAlwaysCallable give.new }
    ensures given { F.step give.old value result give.new }
{
    give(value)
}

/// Finds the value of a key, and puts in its place what the function gives for it. Where another value is there by then, it begins again
/// with that.
pub fn update<R: Wait, F: FnMut(u64) -> u64>(
    rt: &R,
    index: &Index,
    pass: &mut Pass,
    waiting: &mut Waiting,
    key: u64,
    give: &mut F,
) -> Updated
    requires own { IsPassOf index.now pass.old }
    requires callable { F.IsAlwaysCallable give.old }
    ensures same { IsSamePass pass.old pass.new }
    ensures updates { Updates (λ f v w g. F.step f v w g) (first_of index.now) (pages_of index.now) (number_of pass.old) key result
        give.old give.new waiting.old waiting.new (trail pass.old) (trail pass.new) }
    ensures no_room { result ≡ updated.NoRoom → (value : ℕ) × (next : ℕ) × FoundNoRoom key (key_write.Change value next) pass.old pass.new }
{
    let KeyReply::Found(found) = calls::find(rt, index, pass, key, None) else {
        return Updated::Absent;
    };
    let mut value = found;
    for _ in rt.forever() {
        let next = given_for(value, give);
        match writes::write(rt, index, pass, waiting, key, KeyWrite::Change(value, next)) {
            KeyReply::Changed => return Updated::Changed(value, next),
            KeyReply::Differs(other) => value = other,
            KeyReply::NoRoom => return Updated::NoRoom,
            _ => return Updated::Absent,
        }
    }
    unreachable!()
}
