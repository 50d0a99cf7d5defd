//! What is outside of a server that keeps a log: a stream, and the log of a folder.

ghost use Rattle.std.specs.Prelude.{◌≡◌, ◌⊎◌, IsSome, false, true};

use crate::fault::LogError;
use crate::log_file::LogFile;
use crate::reason::reason_of;
use bl_journal::{Journal, LogFault};
use bl_model::{Failed, Watched, write_out};
use bl_outside::Outside;
use std::alloc::{AllocError, Global};
use std::io::Write;
use std::rt::Files;

/// A stream to which replies are printed, and the log of a folder, in which what was changed is kept before.
#[derive(Drop)]
pub struct LoggedOutput<'a, R: Files, W> {
    journal: Journal<LogFile<'a, R>>,
    writer: Watched<W>,
    /// Whether anything was put to the log.
    wrote: bool,
    /// Why the log was not written to.
    fault: Option<LogFault>,
}

impl<'a, R: Files, W: Drop> LoggedOutput<'a, R, W> {
    /// Replies go there, and changes to that log.
    pub fn new(journal: Journal<LogFile<'a, R>>, writer: Watched<W>) -> LoggedOutput<'a, R, W> {
        LoggedOutput {
            journal,
            writer,
            wrote: false,
            fault: None,
        }
    }

    /// Puts a record without rows to a log to which anything was put: see [`Journal::seal`].
    pub fn seal(&mut self, alloc: Global) {
        if self.wrote && self.fault.is_none() {
            self.fault = self.journal.seal(alloc).err();
        }
    }

    /// The stream, and why the log of that folder was not written to, where it was not.
    pub fn ended(
        self,
        alloc: Global,
        folder: &str,
    ) -> Result<(Watched<W>, Option<LogError>), AllocError> {
        let LoggedOutput {
            journal,
            writer,
            wrote: _,
            fault,
        } = self;
        match fault {
            Some(fault) => {
                let why = reason_of(alloc, folder, &journal.into_device(), fault)?;
                Ok((writer, Some(why)))
            }
            None => Ok((writer, None)),
        }
    }
}

impl<'a, R: Files, W: Write> Outside for LoggedOutput<'a, R, W> {
    ghost printed = { λ logged. W.contents logged.writer.inner };

    ghost has_failed = { λ logged. (logged.writer.failed ≡ true) ⊎ IsSome logged.fault };

    ghost is_flushed = { λ logged. logged.writer.pending ≡ false };

    ghost is_modelled = { λ logged. ⊥ };

    ghost holds = { λ logged m. ⊥ };

    ghost moment = { λ logged. 0 };

    ghost finds = { λ logged t told left. ⊥ };

    ghost finds_now = { λ logged m told left modelled. absurd modelled };

    fn keeps(&self) -> bool {
        true
    }

    fn keep(
        &mut self,
        alloc: Global,
        came: &[(u64, u64)],
        went: &[(u64, u64)],
    ) -> Result<(), Failed> {
        if came.is_empty() && went.is_empty() {
            return Ok(());
        }
        self.wrote = true;
        match self.journal.commit(alloc, came, went) {
            Ok(()) => Ok(()),
            Err(fault) => {
                self.fault = Some(fault);
                Err(Failed)
            }
        }
    }

    fn print(&mut self, text: &[u8]) -> Result<(), Failed> {
        write_out(&mut self.writer, text)
    }
}
