//! An outside in memory. Each call is done at once, and it keeps what it has been.

ghost use Rattle.std.specs.Prelude.{◌≡◌, ℕ, List, [], ◌∷◌, ◌++◌, length, Option, Some, true, IfOk, OnOk, OnErr};
ghost use Rattle.bl_journal.specs.Logs.{IsLogOf};
ghost use Rattle.bl_journal.specs.Rows.{Leads};
ghost use Rattle.bl_outside.specs.Tapes.{found_at, log_of, printed_of, past_of};

use crate::outside::Outside;
use bl_journal::{Journal, LogFault, Memory};
use bl_model::Failed;
use std::alloc::{AllocError, Global};

/// What was printed, and what the log was, at one moment.
#[derive(Debug, PartialEq, Eq, Drop)]
pub struct Scene {
    pub printed: Vec<u8>,
    pub log: Vec<u8>,
}

/// What is printed, and a log, in memory.
#[derive(Drop)]
pub struct Tape {
    alloc: Global,
    salt: u64,
    printed: Vec<u8>,
    log: Vec<u8>,
    past: Vec<Scene>,
    failed: bool,
}

/// The log of a map with that log, once others came and went.
fn log_after(
    alloc: Global,
    salt: u64,
    log: &[u8],
    came: &[(u64, u64)],
    went: &[(u64, u64)],
) -> Result<Vec<u8>, LogFault>
    requires { (m : ℕ → Option ℕ) × IsLogOf log.now m }
    ensures { IfOk result (λ after. (old new : ℕ → Option ℕ) → IsLogOf log.now old → Leads came.now went.now old new → IsLogOf after.items new) }
{
    let mut journal = Journal::over(Memory::new(alloc, log.to_vec(alloc)?), salt);
    journal.commit(alloc, came, went)?;
    let device = journal.into_device();
    Ok(device.bytes().to_vec(alloc)?)
}

impl Tape {
    /// A log of these bytes, and nothing is printed yet.
    pub fn new(alloc: Global, salt: u64, log: Vec<u8>) -> Tape
        ensures log { log_of result ≡ log.items }
        ensures printed { printed_of result ≡ [] }
        ensures past { past_of result ≡ [] }
    {
        Tape {
            alloc,
            salt,
            printed: Vec::new(alloc),
            log,
            past: Vec::new(alloc),
            failed: false,
        }
    }

    /// The bytes of its log.
    pub fn log(&self) -> &[u8]
        ensures { result.now ≡ log_of self.now }
    {
        &self.log
    }

    /// What was printed.
    pub fn printed(&self) -> &[u8]
        ensures { result.now ≡ printed_of self.now }
    {
        &self.printed
    }

    /// What it was before each of its calls, the first one first.
    pub fn past(&self) -> &[Scene]
        ensures { result.now ≡ past_of self.now }
    {
        &self.past
    }
}

/// Keeps what was there.
fn remember(
    alloc: Global,
    past: &mut Vec<Scene>,
    printed: &[u8],
    log: &[u8],
) -> Result<(), AllocError>
    ensures ok { OnOk result ((s : _) × (s.printed.items ≡ printed.now) × (s.log.items ≡ log.now) × (past.new.items ≡ past.old.items ++ s ∷ [])) }
    ensures err { OnErr result (past.new.items ≡ past.old.items) }
{
    let scene = Scene {
        printed: printed.to_vec(alloc)?,
        log: log.to_vec(alloc)?,
    };
    past.push(scene)?;
    Ok(())
}

impl Outside for Tape {
    ghost use Rattle.bl_outside.specs.Tapes.{finds_in, found_now};

    ghost printed = { λ tape. Some tape.printed.items };

    ghost has_failed = { λ tape. tape.failed ≡ true };

    ghost is_flushed = { λ tape. Unit {0} };

    ghost is_modelled = { λ tape. Unit {0} };

    ghost holds = { λ tape m. IsLogOf tape.log.items m };

    ghost moment = { λ tape. length tape.past.items };

    ghost finds = { finds_in };

    ghost finds_now = { λ tape m told left modelled held found. found_now tape m told left held found };

    fn keeps(&self) -> bool {
        true
    }

    fn keep(
        &mut self,
        alloc: Global,
        came: &[(u64, u64)],
        went: &[(u64, u64)],
    ) -> Result<(), Failed> {
        let Ok(after) = log_after(alloc, self.salt, self.log.as_slice(), came, went) else {
            self.failed = true;
            return Err(Failed);
        };
        match remember(self.alloc, &mut self.past, &self.printed, &self.log) {
            Ok(()) => {
                self.log = after;
                Ok(())
            }
            Err(_) => {
                self.failed = true;
                Err(Failed)
            }
        }
    }

    fn print(&mut self, text: &[u8]) -> Result<(), Failed> {
        let Ok(after) = joined(self.alloc, &self.printed, text) else {
            self.failed = true;
            return Err(Failed);
        };
        match remember(self.alloc, &mut self.past, &self.printed, &self.log) {
            Ok(()) => {
                self.printed = after;
                Ok(())
            }
            Err(_) => {
                self.failed = true;
                Err(Failed)
            }
        }
    }
}

/// Some bytes, and others behind them.
fn joined(alloc: Global, bytes: &[u8], more: &[u8]) -> Result<Vec<u8>, AllocError>
    ensures { IfOk result (λ all. all.items ≡ bytes.now ++ more.now) }
{
    let mut all = bytes.to_vec(alloc)?;
    all.extend_from_slice(more)?;
    Ok(all)
}
