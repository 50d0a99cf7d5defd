//! Whole scripts.

ghost use Rattle.std.specs.Prelude.{◌≡◌, ◌≤◌, ℕ, List, [], ◌∷◌, ◌++◌, true, OnOk, MatchResult};
ghost use Rattle.std.specs.Io.KnownBytes.{Consumes, IsAtEnd};
ghost use Rattle.bl_replay_script.specs.declared.reading.ScriptFault.TheVariants.{Memory};
ghost use Rattle.bl_replay_script.specs.Commands.{starts};
ghost use Rattle.bl_replay_script.specs.Scripts.{IsScript, IsScriptFault};

use crate::command::{Command, Kinds, Script};
use crate::lines::{Said, read_command, read_head};
use arrayvec::ArrayVec;
use bl_model::Watched;
use bl_serve_lines::source::Source;
use std::alloc::{AllocError, Global};
use std::io::Read;

/// Why there is no script.
#[derive(Clone, Copy, Debug, PartialEq, Eq, thiserror::Error)]
pub enum ScriptFault {
    /// This line, counted from 1, is the first that is bad.
    #[error("bad script line {0}")]
    Line(u64),
    /// The reader failed.
    #[error("read failed")]
    Read,
    /// A buffer or the list of commands couldn't grow.
    #[error("out of memory")]
    Memory,
}

impl From<AllocError> for ScriptFault {
    ghost from_gives = { λ _ fault. fault ≡ Memory };

    fn from(_error: AllocError) -> ScriptFault {
        ScriptFault::Memory
    }
}

/// Reads a whole script. A line of a kind that is not among `kinds` is bad. Lend a reader on which no call has failed:
/// `Read` comes only where it has failed. `Memory` comes only where a growth was refused. Behind a bad line nothing is cut
/// into lines, but the reader may have been read ahead.
pub fn read_script<R: Read>(
    alloc: Global,
    reader: &mut Watched<R>,
    kinds: Kinds,
) -> Result<Script, ScriptFault>
    ensures { (bytes : List ℕ)
        × Consumes (R.remaining reader.old.inner) (R.remaining reader.new.inner) bytes
        × MatchResult result
        (λ script. IsScript kinds script.pages script.commands.items bytes
        × IsAtEnd (R.remaining reader.new.inner))
        (λ fault. IsScriptFault kinds bytes (IsAtEnd (R.remaining reader.new.inner)) (reader.new.failed ≡ true) fault) }
{
    let mut source = Source::new(alloc)?;
    let mut line = ArrayVec::new();
    let pages = match read_head(&mut source, reader, &mut line) {
        Ok(Some(pages)) => pages,
        Ok(None) => return Err(ScriptFault::Line(1)),
        Err(_) => return Err(ScriptFault::Read),
    };
    let mut commands = Vec::new(alloc);
    let mut started = 0;
    for number in 2..u64::MAX {
        match read_command(&mut source, reader, &mut line, kinds, pages, started) {
            Ok(Said::Command(command)) => match add(&mut commands, command) {
                Ok(()) => started += processes_in(command),
                Err(_) => return Err(ScriptFault::Memory),
            },
            Ok(Said::End) => return Ok(Script { pages, commands }),
            Ok(Said::Bad) => return Err(ScriptFault::Line(number)),
            Err(_) => return Err(ScriptFault::Read),
        }
    }
    // As many commands have no room in any memory.
    Err(ScriptFault::Memory)
}

/// Puts the command behind the others.
fn add(commands: &mut Vec<Command>, command: Command) -> Result<(), AllocError>
    ensures { OnOk result (commands.new.items ≡ commands.old.items ++ command ∷ []) }
{
    commands.push(command)?;
    Ok(())
}

/// How many processes the command starts.
fn processes_in(command: Command) -> u64
    ensures number { result ≡ starts command }
    ensures one { result ≤ 1 }
{
    match command {
        Command::Start(_) => 1,
        Command::Turn(_)
        | Command::TurnAt(_, _)
        | Command::Refuse(_)
        | Command::Run(_, _)
        | Command::Settle(_) => 0,
    }
}
