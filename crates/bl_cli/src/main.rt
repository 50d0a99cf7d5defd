//! The program `blink`: what its command line asks for, over the files of the system and its standard streams.
//!
//! Promised to whoever runs it: `serve` writes what is served for what it reads, over a new index or one with the rows of an
//! image, and by as many workers and compressors as are wanted; `dump` does so too, and its image has the rows of the map after
//! what was served; and what `bl_cli_commands` promises of `check`, `rows`, `load` and `replay`. What is said on standard error is tested.
#![tactic(auto)]

mod logs;
mod saving;

ghost use Rattle.std.specs.Prelude.{◌≤◌, ◌^◌, ℕ, List, IfOk};
ghost use Rattle.bl_model.specs.Rows.{map_of};
ghost use Rattle.bl_serve_lines.specs.Options.{AreWithin};
ghost use Rattle.bl_serve_ground.specs.Origins.{HasPages, HasRows};
ghost use Rattle.bl_serve.specs.Origins.{MayServe};

use crate::saving::Saver;
use bl_check::Quiet;
use bl_cli_commands::{
    CommandFault, Form, MakeFault, argument_line, check_file, draw_file, load_file, make_image,
    print_file, reason_of, replay_file,
};
use bl_cli_options::{Invocation, Loading, Server, read_words};
use bl_cli_streams::{
    DumpFault, Piped, Remembering, SECTION_ADVICE, ScriptFile, Usage, index_line, malformed_line,
    may_replace, noroom_line, replace_file, section_line, stats_line, used_pages,
};
use bl_model::Watched;
use bl_serve::{
    Origin, Outside, Sectioning, ServeFault, ServePlan, Summary, dump_by_plan, serve_by_plan,
};
use clap::Error;
use clap::error::ErrorKind;
use std::alloc::AllocError;
use std::io::Printer;
use std::process::ExitCode;
use std::sync::Wait;
use std::thread::Threads;
use std::{io, process};

/// Carries the command out, and says what went wrong on standard error.
fn main(rt: HostRuntime) -> anyhow::Result<ExitCode> {
    match carry_out(&rt, &rt) {
        Ok(code) => Ok(code),
        Err(fault) => {
            // Where standard error fails too, the status still tells the fault.
            let _ = eprintln!(&rt; "{fault}");
            Ok(ExitCode::from(fault.status()))
        }
    }
}

/// Carries out what the command line asks for. Where it waits or starts threads, it does so by the second handle.
fn carry_out<T: Threads + Wait + Sync>(
    rt: &HostRuntime,
    threads: &T,
) -> Result<ExitCode, CommandFault> {
    let alloc = rt.alloc();
    let words: Vec<String> = match std::env::args(rt) {
        Ok(words) => words.collect(alloc)?,
        Err(error) if error.kind() == io::ErrorKind::InvalidData => return Ok(refuse_text(rt)),
        Err(error) => return Err(CommandFault::from(error)),
    };
    match read_words(alloc, words.as_slice()) {
        Ok(Invocation::Serve(server)) => Ok(serve(rt, threads, server)),
        Ok(Invocation::Dump(server, file)) => dump(rt, threads, server, file.as_str()),
        Ok(Invocation::Load(loading, file)) => Ok(load(rt, loading, file.as_str())),
        Ok(Invocation::Rows(file)) => Ok(rows(rt, file.as_str())),
        Ok(Invocation::Check(file)) => Ok(check(rt, file.as_str())),
        Ok(Invocation::Draw(file, svg)) => Ok(draw(rt, file.as_str(), svg)),
        Ok(Invocation::Replay(file, with_pages)) => Ok(replay(rt, file.as_str(), with_pages)),
        Ok(Invocation::Log(action, folder)) => Ok(logs::run(rt, action, folder.as_str())),
        Ok(Invocation::Nothing) => Ok(ExitCode::from(2)),
        Err(error) => {
            let is_of_pages = error.kind() == ErrorKind::ValueValidation
                && words.iter().any(|word| word.starts_with("--pages"));
            let ended = refuse(rt, error);
            if is_of_pages {
                let _ = eprintln!(rt;
                    "  tip: an index of more than 65536 pages is opened by --large N"
                );
            }
            ended
        }
    }
}

/// Says a line on standard error. Where that fails, or there was no memory for the line, the status still tells the fault.
pub(crate) fn say(rt: &HostRuntime, line: Result<Option<String>, AllocError>) {
    if let Ok(Some(line)) = line {
        let _ = eprintln!(rt; "{line}");
    }
}

/// Ends with a fault: its line, and where it is of that file, a second one that says so.
fn end_with(rt: &HostRuntime, file: &str, fault: CommandFault) -> ExitCode {
    let _ = eprintln!(rt; "{fault}");
    say(rt, reason_of(rt, file, fault));
    ExitCode::from(fault.status())
}

/// What the program writes to.
pub(crate) type Output<'a> = Watched<Piped<Printer<'a, HostRuntime>>>;

/// Standard output.
pub(crate) fn output(rt: &HostRuntime) -> Output<'_> {
    Watched::new(Piped::new(io::writer(rt)))
}

/// Says why standard output could not be written.
fn say_why(rt: &HostRuntime, piped: &Piped<Printer<'_, HostRuntime>>) {
    let why = piped.why();
    let _ = eprintln!(rt; "blink: standard output: {why}");
}

/// Ends as the image in the file is sound, or as the fault says. Where a write failed since the reader has gone, the status alone tells
/// it: whoever ends a pipe early has what they wanted.
fn end_of(
    rt: &HostRuntime,
    file: &str,
    sound: Result<bool, CommandFault>,
    writer: Output<'_>,
) -> ExitCode {
    match sound {
        Ok(is_sound) => ExitCode::from(if is_sound { 0 } else { 1 }),
        Err(CommandFault::Write) => {
            let piped = writer.into_inner();
            if !piped.is_gone() {
                let _ = eprintln!(rt; "{}", CommandFault::Write);
                say_why(rt, &piped);
            }
            ExitCode::from(CommandFault::Write.status())
        }
        Err(fault) => end_with(rt, file, fault),
    }
}

/// Checks the image in the file.
fn check(rt: &HostRuntime, file: &str) -> ExitCode {
    let mut writer = output(rt);
    let sound = check_file(rt, file, &mut writer);
    end_of(rt, file, sound, writer)
}

/// Draws the image in the file.
fn draw(rt: &HostRuntime, file: &str, svg: bool) -> ExitCode {
    let form = if svg { Form::Svg } else { Form::Text };
    let mut writer = output(rt);
    let sound = draw_file(rt, file, form, &mut writer);
    end_of(rt, file, sound, writer)
}

/// Prints the rows of the image in the file.
fn rows(rt: &HostRuntime, file: &str) -> ExitCode {
    let mut writer = output(rt);
    let printed = print_file(rt, file, &mut writer);
    end_of(rt, file, printed.map(|()| true), writer)
}

/// Carries out the script in the file.
fn replay(rt: &HostRuntime, file: &str, with_pages: bool) -> ExitCode {
    let mut writer = output(rt);
    let replayed = replay_file(rt, file, with_pages, &mut writer);
    end_of(rt, file, replayed.map(|()| true), writer)
}

/// What a server begins with: the image in that file, where one is named. Where it cannot be had, that is said, and how the
/// program ends.
pub(crate) fn origin_of(
    rt: &HostRuntime,
    pages: u32,
    image: Option<&str>,
) -> Result<Origin, ExitCode>
    requires { (4 ≤ pages) × (pages ≤ 2 ^ 28) }
    ensures { IfOk result HasPages }
{
    let Some(file) = image else {
        return Ok(Origin::Empty(pages));
    };
    match load_file(rt, file) {
        Ok(quiet) => Ok(Origin::Image(quiet)),
        Err(fault) => Err(end_with(rt, file, fault)),
    }
}

/// What a server has counted at its end.
#[derive(Clone, Copy)]
pub(crate) struct Counts {
    summary: Summary,
    /// The pages, where the index was closed.
    usage: Option<Usage>,
}

/// Says what a server wanted that there was no memory for.
fn say_wanted(rt: &HostRuntime, server: &Server)
    requires { AreWithin server.now.options }
{
    // What one that grows takes, and has taken, is not known here.
    if server.options.pages == server.options.most {
        let threads = server.options.workers + server.options.compressors;
        let line = index_line(rt.alloc(), server.options.pages, threads);
        say(rt, line.map(Some));
    }
    if server.sections == Sectioning::BySync {
        let _ = eprintln!(rt; "{SECTION_ADVICE}");
    }
}

/// Ends as a server that has met a fault, where these replies were written. Where whoever read them has gone, the status alone
/// tells it.
pub(crate) fn end_serving(
    rt: &HostRuntime,
    server: &Server,
    fault: ServeFault,
    writer: Output<'_>,
) -> ExitCode
    requires { AreWithin server.now.options }
{
    let fault = CommandFault::from(fault);
    let piped = writer.into_inner();
    if fault == CommandFault::Write && piped.is_gone() {
        return ExitCode::from(fault.status());
    }
    let _ = eprintln!(rt; "{fault}");
    match fault {
        CommandFault::Write => say_why(rt, &piped),
        CommandFault::Memory => say_wanted(rt, server),
        _ => {}
    }
    ExitCode::from(fault.status())
}

/// Says that requests were malformed, where some were. Then says what was counted, where that was asked for; else, that requests found
/// no room, where some did.
pub(crate) fn say_counts(rt: &HostRuntime, server: &Server, counts: &Counts) {
    let alloc = rt.alloc();
    let Summary { totals, remarks } = counts.summary;
    let (norooms, most) = (remarks.norooms, server.options.most);
    // An image has pages of its own.
    let pages = if server.image.is_some() {
        0
    } else {
        server.options.pages
    };
    if let Some((first, wrong)) = remarks.first_malformed {
        let line = malformed_line(alloc, totals.malformed, first, wrong);
        say(rt, line.map(Some));
    }
    if server.sections == Sectioning::BySync {
        say(rt, section_line(alloc, remarks.longest as u64));
    }
    if server.stats {
        let line = stats_line(alloc, &totals, norooms, counts.usage);
        say(rt, line.map(Some));
    } else if norooms > 0 {
        let line = noroom_line(alloc, norooms, pages, most);
        say(rt, line.map(Some));
    }
}

/// How a server works that the command line asks for.
fn plan_of(server: &Server) -> ServePlan
    requires { AreWithin server.now.options }
    ensures { MayServe result }
{
    ServePlan {
        workers: server.options.workers,
        compressors: server.options.compressors,
        sections: server.sections,
        most: server.options.most,
    }
}

/// Serves standard input over an index that begins so, and closes it.
fn serve_and_close<T: Threads + Wait + Sync, O: Outside>(
    rt: &HostRuntime,
    threads: &T,
    origin: Origin,
    server: &Server,
    outside: &mut O,
) -> Result<(Summary, Result<Quiet, AllocError>), ServeFault>
    requires pages { HasPages origin }
    requires within { AreWithin server.now.options }
    requires log { O.is_modelled outside.old → (rows : List (ℕ × ℕ)) × HasRows origin rows × O.holds outside.old (map_of rows) }
{
    let mut reader = Watched::new(rt.stdin());
    let (plan, files) = (plan_of(server), Saver::new(rt, server.options.pages));
    dump_by_plan(
        threads,
        rt.alloc(),
        origin,
        plan,
        &mut reader,
        outside,
        &files,
    )
}

/// The same, and leaves the index open.
fn serve_alone<T: Threads + Wait + Sync, O: Outside>(
    rt: &HostRuntime,
    threads: &T,
    origin: Origin,
    server: &Server,
    outside: &mut O,
) -> Result<Summary, ServeFault>
    requires pages { HasPages origin }
    requires within { AreWithin server.now.options }
    requires log { O.is_modelled outside.old → (rows : List (ℕ × ℕ)) × HasRows origin rows × O.holds outside.old (map_of rows) }
{
    let mut reader = Watched::new(rt.stdin());
    let (plan, files) = (plan_of(server), Saver::new(rt, server.options.pages));
    serve_by_plan(
        threads,
        rt.alloc(),
        origin,
        plan,
        &mut reader,
        outside,
        &files,
    )
}

/// Serves standard input over an index that begins so. With `--stats` the index is closed at the end, so that its pages can be
/// counted.
pub(crate) fn serve_from<T: Threads + Wait + Sync, O: Outside>(
    rt: &HostRuntime,
    threads: &T,
    origin: Origin,
    server: &Server,
    outside: &mut O,
) -> Result<Counts, ServeFault>
    requires pages { HasPages origin }
    requires within { AreWithin server.now.options }
    requires log { O.is_modelled outside.old → (rows : List (ℕ × ℕ)) × HasRows origin rows × O.holds outside.old (map_of rows) }
{
    if !server.stats {
        let summary = serve_alone(rt, threads, origin, server, outside)?;
        return Ok(Counts {
            summary,
            usage: None,
        });
    }
    let (summary, closed) = serve_and_close(rt, threads, origin, server, outside)?;
    let usage = closed.ok().map(|quiet| used_pages(quiet.image()));
    Ok(Counts { summary, usage })
}

/// Serves standard input, and keeps no log.
fn serve_plainly<T: Threads + Wait + Sync>(
    rt: &HostRuntime,
    threads: &T,
    server: &Server,
) -> ExitCode
    requires { AreWithin server.now.options }
{
    let origin = match origin_of(rt, server.options.pages, server.image.as_deref()) {
        Ok(origin) => origin,
        Err(code) => return code,
    };
    let mut writer = output(rt);
    match serve_from(rt, threads, origin, server, &mut writer) {
        Ok(counts) => {
            say_counts(rt, server, &counts);
            ExitCode::SUCCESS
        }
        Err(fault) => end_serving(rt, server, fault, writer),
    }
}

/// Serves standard input.
fn serve<T: Threads + Wait + Sync>(rt: &HostRuntime, threads: &T, server: Server) -> ExitCode
    requires { AreWithin server.options }
{
    match server.log.as_deref() {
        Some(folder) => logs::serve(rt, threads, &server, folder),
        None => serve_plainly(rt, threads, &server),
    }
}

/// Ends with the fault of a dump's file.
fn fail(rt: &HostRuntime, fault: DumpFault) -> ExitCode {
    let _ = eprintln!(rt; "{fault}");
    say(rt, fault.reason(rt.alloc()));
    ExitCode::from(fault.status())
}

/// Writes the image to the file in its place, and says what was counted.
fn keep(rt: &HostRuntime, server: &Server, file: &str, quiet: &Quiet, counts: &Counts) -> ExitCode {
    let process = process::id(rt.process());
    match replace_file(rt, file, process, quiet.image()) {
        Ok(()) => {
            say_counts(rt, server, counts);
            ExitCode::SUCCESS
        }
        Err(fault) => fail(rt, fault),
    }
}

/// Serves standard input, and then writes the image of the index to the file. Where the file cannot be replaced, that is said
/// before anything is read.
fn dump<T: Threads + Wait + Sync>(
    rt: &HostRuntime,
    threads: &T,
    server: Server,
    file: &str,
) -> Result<ExitCode, CommandFault>
    requires { AreWithin server.options }
{
    if let Err(fault) = may_replace(rt, file, process::id(rt.process())) {
        return Ok(fail(rt, fault));
    }
    let origin = match origin_of(rt, server.options.pages, server.image.as_deref()) {
        Ok(origin) => origin,
        Err(code) => return Ok(code),
    };
    let mut writer = output(rt);
    let (summary, closed) = match serve_and_close(rt, threads, origin, &server, &mut writer) {
        Ok(served) => served,
        Err(fault) => return Ok(end_serving(rt, &server, fault, writer)),
    };
    let quiet = closed?;
    let usage = Some(used_pages(quiet.image()));
    let counts = Counts { summary, usage };
    Ok(keep(rt, &server, file, &quiet, &counts))
}

/// Ends with the fault of rows of which no image was made.
fn fail_rows(rt: &HostRuntime, fault: MakeFault, loading: Loading) -> ExitCode {
    let _ = eprintln!(rt; "{fault}");
    say(rt, fault.advice(rt.alloc(), loading.pages, loading.fill));
    ExitCode::from(fault.status())
}

/// Makes an image of the rows on standard input, and writes it to the file. Where the file cannot be replaced, that is said before
/// anything is read.
fn load(rt: &HostRuntime, loading: Loading, file: &str) -> ExitCode {
    let process = process::id(rt.process());
    if let Err(fault) = may_replace(rt, file, process) {
        return fail(rt, fault);
    }
    let lines = Remembering::new(rt.alloc(), ScriptFile::new(rt.stdin()));
    let mut reader = Watched::new(lines);
    let made = make_image(rt.alloc(), &mut reader, loading.pages, loading.fill);
    let quiet = match made {
        Ok(quiet) => quiet,
        Err(fault) => {
            let code = fail_rows(rt, fault, loading);
            if let Some(line) = fault.bad_row() {
                say(rt, reader.into_inner().wrong_row(line));
            }
            return code;
        }
    };
    match replace_file(rt, file, process, quiet.image()) {
        Ok(()) => ExitCode::SUCCESS,
        Err(fault) => fail(rt, fault),
    }
}

/// Ends as clap asks: with its text, or for want of memory. Where the text cannot be written, that is said, unless whoever was to read
/// it has gone.
fn refuse(rt: &HostRuntime, error: Error) -> Result<ExitCode, CommandFault> {
    if error.kind() == ErrorKind::OutOfMemory {
        return Err(CommandFault::Memory);
    }
    match error.print(rt) {
        Ok(()) => Ok(ExitCode::from((error.exit_code() & 0xff) as u8)),
        Err(failed) => match failed.kind() {
            io::ErrorKind::BrokenPipe => Ok(ExitCode::from(CommandFault::Write.status())),
            io::ErrorKind::OutOfMemory => Err(CommandFault::Memory),
            _ => Err(CommandFault::Write),
        },
    }
}

/// Refuses a command line of which an argument is no text.
fn refuse_text(rt: &HostRuntime) -> ExitCode {
    let _ = eprintln!(rt; "error: invalid UTF-8 was detected in one or more arguments");
    say(rt, argument_line(rt));
    ExitCode::from(2)
}
