//! All handles meet at the end of a section.

ghost use Rattle.std.specs.Prelude.{◌≡◌, ◌<◌, All, OnOk, vec_len};
ghost use Rattle.bl_index.specs.Calls.{first_of};
ghost use Rattle.bl_map.specs.Handles.{seats_of};
ghost use Rattle.bl_map.specs.Meetings.{IsSeated};
ghost use Rattle.bl_serve.specs.Meetings.{AllMeet};

use bl_index::Index;
use bl_map::Handle;
use std::alloc::AllocError;

/// All handles meet: each then knows all that has happened. It fails only where a vector that had room had none.
pub fn meet_all(index: &Index, handles: &mut Vec<Handle<'_>>) -> Result<(), AllocError>
    requires own { All (IsSeated index.now) handles.old.items }
    requires some { 0 < vec_len handles.old }
    ensures { OnOk result (AllMeet (first_of index.now) (seats_of handles.old.items) (seats_of handles.new.items)) }
{
    let Some(mut last) = handles.pop() else {
        return Ok(());
    };
    bl_map::meet_all(index, &mut last, handles.as_mut_slice());
    handles.push(last)?;
    Ok(())
}
