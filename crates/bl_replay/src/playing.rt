//! Whole scripts.

ghost use Rattle.std.specs.Prelude.{◌≡◌, ◌++◌, true, ℕ, List, Err, length, OnOk, OnErr, false};
ghost use Rattle.std.specs.Io.KnownBytes.{Appends};
ghost use Rattle.bl_model.specs.Stream.{StartsOut};
ghost use Rattle.bl_replay_script.specs.Scripts.{AllStand};
ghost use Rattle.bl_world.specs.Accounts.{Account};
ghost use Rattle.bl_replay.specs.declared.fault.ReplayFault.TheVariants as fault;
ghost use Rattle.bl_replay.specs.Plays.{Plays, BreaksOff, PlaysOut, PlaysInto, MayPlay, all_kinds};
ghost use Rattle.bl_replay.specs.Emits.{Emits};

use crate::commands::play_command;
use crate::fault::ReplayFault;
use crate::output::write_last;
use bl_model::Watched;
use bl_replay_script::{Command, Kinds, Script};
use bl_world::World;
use std::alloc::Global;
use std::io::Write;

/// The kinds of process that a script may start, beside searches, insertions, deletions, changes and posts: all.
pub const PLAYED: Kinds = Kinds {
    part: true,
    compress: true,
    reclaim: true,
    lower: true,
};

/// Carries out commands in their order, and prints what they do.
fn play_all<W: Write>(
    world: &mut World,
    commands: &[Command],
    with_pages: bool,
    pending: &mut Vec<u8>,
    writer: &mut Watched<W>,
) -> Result<(), ReplayFault>
    requires { AllStand all_kinds (length world.old.pages) (length world.old.processes) commands.now }
    ensures ok { OnOk result ((text : List ℕ)
        × Plays with_pages world.old commands.now text world.new
        × Emits (W.contents writer.old.inner) (W.contents writer.new.inner) pending.old.items pending.new.items text) }
    ensures account { OnOk result (∥ Account world.new ∥₁) }
    ensures err { OnErr result ((text : List ℕ) × BreaksOff with_pages world.old commands.now text
        × StartsOut (W.contents writer.old.inner) (W.contents writer.new.inner) (pending.old.items ++ text)) }
    ensures write { result ≡ Err fault.Write → writer.new.failed ≡ true }
{
    for command in commands {
        play_command(world, *command, with_pages, pending, writer)?;
    }
    // What may be believed of a world is told with its events.
    let _events = world.steps();
    Ok(())
}

/// Carries out a script on a new world, and prints each event as it is recorded, and each answer behind the event by which
/// its process answered; and, where pages are wanted, what stands in each page that is put, behind the put. It gathers a few
/// KiB before it writes. Lend a writer on which no call has failed.
///
/// After `Write` a beginning of what the script had printed is out, and the writer has failed. `Memory` comes only where
/// the world or the buffer couldn't grow; then, too, a beginning is out.
pub fn replay<W: Write>(
    alloc: Global,
    script: &Script,
    with_pages: bool,
    writer: &mut Watched<W>,
) -> Result<(), ReplayFault>
    requires { MayPlay script.now.pages script.now.commands.items }
    ensures ok { OnOk result ((text : List ℕ) × PlaysOut with_pages script.now.pages script.now.commands.items text
        × Appends (W.contents writer.old.inner) (W.contents writer.new.inner) text) }
    ensures flushed { OnOk result (writer.new.pending ≡ false) }
    ensures err { OnErr result ((text : List ℕ) × PlaysInto with_pages script.now.pages script.now.commands.items text
        × StartsOut (W.contents writer.old.inner) (W.contents writer.new.inner) text) }
    ensures write { result ≡ Err fault.Write → writer.new.failed ≡ true }
{
    let Ok(mut world) = World::open(alloc, script.pages) else {
        return Err(ReplayFault::Memory);
    };
    let mut pending = Vec::new(alloc);
    play_all(
        &mut world,
        script.commands.as_slice(),
        with_pages,
        &mut pending,
        writer,
    )?;
    write_last(writer, &pending)
}
