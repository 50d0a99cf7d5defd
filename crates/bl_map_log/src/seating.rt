//! The seats of handles that note what they change.

ghost use Rattle.std.specs.Prelude.{◌≡◌, ◌+◌, ◌≤◌, ◌++◌, vec_len, map};
ghost use Rattle.std.specs.Vec.{vec_capacity};
ghost use Rattle.bl_map_log.specs.Notes.{seats_under};

use crate::handle::NotingHandle;
use bl_map::Seat;

/// Puts the seats of handles behind others, in their order, where there is room for them. What they have noted is given up, so it is for
/// after a commit.
pub fn give_seats(handles: Vec<NotingHandle<'_>>, seats: &mut Vec<Seat>)
    requires { vec_len seats.old + vec_len handles ≤ vec_capacity seats.old }
    ensures { seats.new.items ≡ seats.old.items ++ seats_under handles.entry.items }
{
    let mut handles = handles;
    while !handles.is_empty() {
        let seat = handles.remove(0).into_seat();
        match seats.push(seat) {
            Ok(()) => {}
            Err(_) => unreachable!(),
        }
    }
}
