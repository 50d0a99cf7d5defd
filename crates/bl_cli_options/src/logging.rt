//! The command line of `log`.

use crate::texts::ABOUT_LOG;
use clap::{Arg, ArgMatches, Command};
use std::alloc::{AllocError, Global};

/// What is to be done with the log of a folder.
#[derive(Clone, Copy, Debug, PartialEq, Eq)]
pub enum LogAction {
    /// Its rows are printed.
    Rows,
    /// It is looked at, whether it is whole.
    Check,
    /// It is made of rows.
    Load,
}

/// The folder of a log.
fn folder_argument<'a>(alloc: Global) -> Arg<'a> {
    Arg::new(alloc, "FOLDER")
        .required(true)
        .value_name("FOLDER")
        .help("The folder whose file `log` is meant")
}

/// The command line of `log` with one action more.
fn with_action<'a>(
    alloc: Global,
    log: Command<'a>,
    name: &'a str,
    about: &'a str,
) -> Result<Command<'a>, AllocError> {
    let action = Command::new(alloc, name)
        .about(about)
        .arg(folder_argument(alloc))?;
    log.subcommand(action)
}

/// The command line of `log`.
pub(crate) fn log_command<'a>(alloc: Global) -> Result<Command<'a>, AllocError> {
    let log = Command::new(alloc, "log")
        .about("Reads the log of a folder, or makes one")
        .after_help(ABOUT_LOG)
        .subcommand_required(true);
    let log = with_action(alloc, log, "rows", "Prints the rows of the map of a log")?;
    let log = with_action(alloc, log, "check", "Checks whether a log is whole")?;
    with_action(alloc, log, "load", "Makes a log of rows on standard input")
}

/// What clap has found of `log`: the action and the folder.
pub(crate) fn log_of(
    alloc: Global,
    found: &ArgMatches,
) -> Result<Option<(LogAction, String)>, AllocError> {
    let Some((name, of)) = found.subcommand() else {
        return Ok(None);
    };
    let Some(folder) = of.get_str("FOLDER") else {
        return Ok(None);
    };
    let action = match name {
        "rows" => LogAction::Rows,
        "check" => LogAction::Check,
        "load" => LogAction::Load,
        _ => return Ok(None),
    };
    Ok(Some((action, String::from_str(alloc, folder)?)))
}
