//! What handles have noted is put together, and let go.

ghost use Rattle.std.specs.Prelude.{◌≡◌, ◌∷◌, flat_map, IfOk};
ghost use Rattle.std.specs.List.{AllZip};
ghost use Rattle.bl_map_log.specs.Notes.{came_noted, went_noted, IsClearedOf};

use crate::handle::NotingHandle;
use bl_changes::Changes;
use std::alloc::{AllocError, Global};

/// The rows that handles have noted.
pub(crate) fn collected(
    alloc: Global,
    first: &NotingHandle<'_>,
    others: &[NotingHandle<'_>],
) -> Result<Changes, AllocError>
    ensures came { IfOk result (λ changes. changes.came.items ≡ flat_map came_noted (first.now ∷ others.now)) }
    ensures went { IfOk result (λ changes. changes.went.items ≡ flat_map went_noted (first.now ∷ others.now)) }
{
    let mut changes = Changes::new(alloc);
    changes.take(&first.changes)?;
    let mut rest = others;
    while let [handle, after @ ..] = rest {
        changes.take(&handle.changes)?;
        rest = after;
    }
    Ok(changes)
}

/// A handle lets go what it has noted. The room for notes stays.
fn clear(handle: &mut NotingHandle<'_>)
    ensures { IsClearedOf handle.old handle.new }
{
    handle.changes.clear();
}

/// Handles let go what they have noted.
fn clear_each(handles: &mut [NotingHandle<'_>])
    ensures { AllZip IsClearedOf handles.old handles.new }
{
    for number in 0..handles.len() {
        clear(&mut handles[number]);
    }
}

/// All handles let go what they have noted.
pub(crate) fn clear_all(first: &mut NotingHandle<'_>, others: &mut [NotingHandle<'_>])
    ensures { IsClearedOf first.old first.new × AllZip IsClearedOf others.old others.new }
{
    clear(first);
    clear_each(others);
}
