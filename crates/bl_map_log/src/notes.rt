//! What a write changes, by its reply, is noted where there is room for it.

ghost use Rattle.std.specs.Prelude.{◌≡◌, ◌+◌, ◌≤◌, ◌++◌, option_to_list, vec_len};
ghost use Rattle.std.specs.Vec.{vec_capacity};
ghost use Rattle.bl_model.specs.Replies.{reply_of};
ghost use Rattle.bl_model.specs.Writes.{write_op};
ghost use Rattle.bl_changes.specs.Changes.{came_of, went_of};

use bl_changes::Changes;
use bl_map::{KeyReply, KeyWrite};

/// A row, if there is one.
type MaybeRow = Option<(u64, u64)>;

/// The row that came by a write that was answered so, and the one that went.
fn rows_of(key: u64, does: KeyWrite, reply: KeyReply) -> (MaybeRow, MaybeRow)
    ensures came { option_to_list result.0 ≡ came_of (write_op key does) (reply_of reply) }
    ensures went { option_to_list result.1 ≡ went_of (write_op key does) (reply_of reply) }
{
    match (does, reply) {
        (KeyWrite::Insert(value), KeyReply::Inserted)
        | (KeyWrite::Put(value), KeyReply::Inserted) => (Some((key, value)), None),
        (KeyWrite::Put(value), KeyReply::Replaced(old)) => (Some((key, value)), Some((key, old))),
        (KeyWrite::Delete, KeyReply::Deleted(old)) => (None, Some((key, old))),
        (KeyWrite::Change(old, new), KeyReply::Changed) => (Some((key, new)), Some((key, old))),
        _ => (None, None),
    }
}

/// Puts a row, if there is one, behind others that have room for it.
fn put_row(rows: &mut Vec<(u64, u64)>, row: MaybeRow)
    requires { vec_len rows.old + 1 ≤ vec_capacity rows.old }
    ensures { rows.new.items ≡ rows.old.items ++ option_to_list row }
{
    let Some(row) = row else {
        return;
    };
    match rows.push(row) {
        Ok(()) => {}
        Err(_) => unreachable!(),
    }
}

/// Notes what a write has changed, by its reply, behind the rest, where there is room for a row more that came and for one that went.
pub(crate) fn note(changes: &mut Changes, key: u64, does: KeyWrite, reply: KeyReply)
    requires came { vec_len changes.old.came + 1 ≤ vec_capacity changes.old.came }
    requires went { vec_len changes.old.went + 1 ≤ vec_capacity changes.old.went }
    ensures came { changes.new.came.items ≡ changes.old.came.items ++ came_of (write_op key does) (reply_of reply) }
    ensures went { changes.new.went.items ≡ changes.old.went.items ++ went_of (write_op key does) (reply_of reply) }
{
    let (came, went) = rows_of(key, does, reply);
    put_row(&mut changes.came, came);
    put_row(&mut changes.went, went);
}
