//! Why a command ends early.

ghost use Rattle.std.specs.Prelude.{◌≡◌};
ghost use Rattle.bl_cli_commands.specs.Statuses.{status_of, fault_of, fault_of_script, fault_of_replay, fault_of_print, IsFaultOf};
ghost use Rattle.bl_cli_commands.specs.declared.fault.CommandFault.TheVariants.{Memory};

use bl_replay::ReplayFault;
use bl_replay_script::ScriptFault;
use bl_row_lines::PrintFault;
use bl_serve_lines::ServeFault;
use std::alloc::AllocError;
use std::io;

/// Why a command ended early. Its text is the line on standard error.
#[derive(Clone, Copy, Debug, PartialEq, Eq, thiserror::Error)]
pub enum CommandFault {
    #[error("blink: read failed")]
    Read,
    #[error("blink: write failed")]
    Write,
    #[error("blink: out of memory")]
    Memory,
    /// This line of the script, counted from 1, is the first that is bad.
    #[error("blink: bad script line {0}")]
    Script(u64),
    /// The image that a server is to begin with is not sound: the least rule that is broken, and the least page that breaks it.
    /// Its text is the line that `check` prints.
    #[error("fault C{0} page {1}")]
    Unsound(u32, u32),
    /// The server lost the answer of a line, or had it twice; this is the least such line.
    #[error("blink: lost request {0}")]
    Lost(u64),
}

impl CommandFault {
    /// The exit status of the program.
    pub fn status(self) -> u8
        ensures { result ≡ status_of self }
    {
        match self {
            CommandFault::Read | CommandFault::Write | CommandFault::Script(_) => 3,
            CommandFault::Unsound(..) => 1,
            CommandFault::Memory => 4,
            CommandFault::Lost(_) => 5,
        }
    }
}

impl From<ServeFault> for CommandFault {
    ghost from_gives = { λ fault command. command ≡ fault_of fault };

    fn from(fault: ServeFault) -> CommandFault {
        match fault {
            ServeFault::Read => CommandFault::Read,
            ServeFault::Write => CommandFault::Write,
            ServeFault::Memory => CommandFault::Memory,
            ServeFault::Lost(number) => CommandFault::Lost(number),
        }
    }
}

impl From<ScriptFault> for CommandFault {
    ghost from_gives = { λ fault command. command ≡ fault_of_script fault };

    fn from(fault: ScriptFault) -> CommandFault {
        match fault {
            ScriptFault::Line(line) => CommandFault::Script(line),
            ScriptFault::Read => CommandFault::Read,
            ScriptFault::Memory => CommandFault::Memory,
        }
    }
}

impl From<ReplayFault> for CommandFault {
    ghost from_gives = { λ fault command. command ≡ fault_of_replay fault };

    fn from(fault: ReplayFault) -> CommandFault {
        match fault {
            ReplayFault::Write => CommandFault::Write,
            ReplayFault::Memory => CommandFault::Memory,
        }
    }
}

impl From<PrintFault> for CommandFault {
    ghost from_gives = { λ fault command. command ≡ fault_of_print fault };

    fn from(fault: PrintFault) -> CommandFault {
        match fault {
            PrintFault::Write => CommandFault::Write,
            PrintFault::Memory => CommandFault::Memory,
        }
    }
}

/// The command line's words could not be read.
impl From<io::Error> for CommandFault {
    ghost from_gives = { IsFaultOf };

    fn from(error: io::Error) -> CommandFault {
        match error.kind() {
            io::ErrorKind::OutOfMemory => CommandFault::Memory,
            _ => CommandFault::Read,
        }
    }
}

impl From<AllocError> for CommandFault {
    ghost from_gives = { λ _ command. command ≡ Memory };

    fn from(_error: AllocError) -> CommandFault {
        CommandFault::Memory
    }
}
