//! The log of a folder: it is read or made by the command `log`, and kept by a server.

ghost use Rattle.std.specs.Prelude.{IfOk};
ghost use Rattle.bl_serve_lines.specs.Options.{AreWithin};
ghost use Rattle.bl_serve_ground.specs.Origins.{HasPages};

use crate::saving::image_within;
use crate::{Counts, Output, end_serving, origin_of, output, say_counts, serve_from};
use bl_check::Quiet;
use bl_cli_options::{LogAction, Server};
use bl_cli_streams::{Piped, ScriptFile};
use bl_load::{LoadFault, rows_of};
use bl_log_files::{
    LogError, LoggedOutput, OpenLog, check_log, claim, load_log, open_log, print_log,
};
use bl_model::Watched;
use bl_serve::{Origin, ServeFault};
use bl_serve_lines::ServeOptions;
use std::alloc::Global;
use std::io::Printer;
use std::process::ExitCode;
use std::sync::Wait;
use std::thread::Threads;

/// What is outside of a server that keeps a log.
type Logged<'a> = LoggedOutput<'a, HostRuntime, Piped<Printer<'a, HostRuntime>>>;

/// Ends with a fault: its line, and where it is of the log, a second one that says why. Where a write failed since the reader has gone, the
/// status alone tells it.
fn end(rt: &HostRuntime, done: Result<(), LogError>, writer: Output<'_>) -> ExitCode {
    let fault = match done {
        Ok(()) => return ExitCode::SUCCESS,
        Err(fault) => fault,
    };
    if fault == LogError::Write && writer.into_inner().is_gone() {
        return ExitCode::from(fault.status());
    }
    let _ = eprintln!(rt; "{fault}");
    if let Some(why) = fault.reason() {
        let _ = eprintln!(rt; "blink: {why}");
    }
    ExitCode::from(fault.status())
}

/// Checks the log of a folder, and prints how many rows it has.
fn check(rt: &HostRuntime, folder: &str) -> Result<(), LogError> {
    let count = check_log(rt, folder)?;
    match println!(rt; "ok rows {count}") {
        Ok(()) => Ok(()),
        Err(_) => Err(LogError::Write),
    }
}

/// Makes a log of the rows on standard input, in a folder that no other process has.
fn load(rt: &HostRuntime, folder: &str) -> Result<(), LogError> {
    let _held = claim(rt, folder)?;
    let mut reader = Watched::new(ScriptFile::new(rt.stdin()));
    load_log(rt, folder, &mut reader)?;
    Ok(())
}

/// Carries out an action on the log of a folder.
pub(crate) fn run(rt: &HostRuntime, action: LogAction, folder: &str) -> ExitCode {
    let mut writer = output(rt);
    let done = match action {
        LogAction::Rows => print_log(rt, folder, &mut writer),
        LogAction::Check => check(rt, folder),
        LogAction::Load => load(rt, folder),
    };
    end(rt, done, writer)
}

/// Ends with a fault of the log of a server.
fn fail(rt: &HostRuntime, fault: LogError) -> ExitCode {
    end(rt, Err(fault), output(rt))
}

/// What the rows of a log begin an index with, of as many pages as are asked for, or as the rows need where it may grow.
fn origin_of_rows(
    rt: &HostRuntime,
    folder: &str,
    rows: &[(u64, u64)],
    options: ServeOptions,
) -> Result<Origin, LogError>
    requires { AreWithin options }
    ensures { IfOk result HasPages }
{
    let ServeOptions { pages, most, .. } = options;
    if rows.is_empty() {
        return Ok(Origin::Empty(pages));
    }
    let (alloc, count) = (rt.alloc(), rows.len());
    match image_within(alloc, rows, pages, most) {
        Ok(quiet) => Ok(Origin::Image(quiet)),
        Err(LoadFault::Memory) => Err(LogError::Memory),
        Err(_) => Err(LogError::Log(format!(in alloc;
            "{folder}/log: has {count} rows, for which {most} pages are too few"
        )?)),
    }
}

/// What a server begins with, and the rows that a new log is made with.
fn begin(
    rt: &HostRuntime,
    folder: &str,
    log: &OpenLog<'_, HostRuntime>,
    server: &Server,
) -> Result<(Origin, Vec<(u64, u64)>), ExitCode>
    requires { AreWithin server.now.options }
    ensures { IfOk result (λ t. HasPages t.0) }
{
    let (alloc, pages) = (rt.alloc(), server.options.pages);
    if server.image.is_none() {
        return match origin_of_rows(rt, folder, log.rows.as_slice(), server.options) {
            Ok(origin) => Ok((origin, Vec::new(alloc))),
            Err(fault) => Err(fail(rt, fault)),
        };
    }
    if !log.is_new {
        return Err(fail(rt, is_there(rt, folder)));
    }
    let origin = origin_of(rt, pages, server.image.as_deref())?;
    let rows = match &origin {
        Origin::Image(quiet) => rows_of(alloc, quiet),
        Origin::Empty(_) => Ok(Vec::new(alloc)),
    };
    match rows {
        Ok(rows) => Ok((origin, rows)),
        Err(_) => Err(fail(rt, LogError::Memory)),
    }
}

/// A log is there, which an image is not to begin.
fn is_there(rt: &HostRuntime, folder: &str) -> LogError {
    match format!(in rt.alloc(); "{folder}/log: is there already, and --image begins a new one") {
        Ok(why) => LogError::Log(why),
        Err(_) => LogError::Memory,
    }
}

/// Ends as a server that has kept a log: the fault of the log, where it has one, is why the server ended.
fn end_logged(
    rt: &HostRuntime,
    server: &Server,
    folder: &str,
    served: Result<Counts, ServeFault>,
    logged: Logged<'_>,
) -> ExitCode
    requires { AreWithin server.now.options }
{
    let (writer, fault) = match logged.ended(rt.alloc(), folder) {
        Ok(parts) => parts,
        Err(_) => return fail(rt, LogError::Memory),
    };
    if let Some(fault) = fault {
        return fail(rt, fault);
    }
    match served {
        Ok(counts) => {
            say_counts(rt, server, &counts);
            ExitCode::SUCCESS
        }
        Err(fault) => end_serving(rt, server, fault, writer),
    }
}

/// The same, by a process that has the folder.
fn serve_held<T: Threads + Wait + Sync>(
    rt: &HostRuntime,
    threads: &T,
    server: &Server,
    folder: &str,
) -> ExitCode
    requires { AreWithin server.now.options }
{
    let log = match open_log(rt, folder) {
        Ok(log) => log,
        Err(fault) => return fail(rt, fault),
    };
    let (origin, rows) = match begin(rt, folder, &log, server) {
        Ok(begun) => begun,
        Err(code) => return code,
    };
    let is_new = log.is_new;
    let mut logged = match log.into_output(folder, rows.as_slice(), output(rt)) {
        Ok(logged) => logged,
        Err(fault) => return fail(rt, fault),
    };
    if is_new {
        let _ = eprintln!(rt; "blink: {folder}/log: is a new log");
    }
    let served = serve_from(rt, threads, origin, server, &mut logged);
    logged.seal(rt.alloc());
    end_logged(rt, server, folder, served, logged)
}

/// Serves standard input over the rows of the log of a folder, in which what is changed is kept before it is answered. A folder without a log
/// begins one.
pub(crate) fn serve<T: Threads + Wait + Sync>(
    rt: &HostRuntime,
    threads: &T,
    server: &Server,
    folder: &str,
) -> ExitCode
    requires { AreWithin server.now.options }
{
    match claim(rt, folder) {
        Ok(_held) => serve_held(rt, threads, server, folder),
        Err(fault) => fail(rt, fault),
    }
}
