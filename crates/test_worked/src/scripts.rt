//! Replays each script `NAME.script` of the folder that it is run in, and compares all that `blink replay` prints for it with
//! the file `NAME.out`, byte by byte: what goes to standard output, and then the line on standard error where there is one.
//! It also tries each line of a file `NAME.lines` behind the lines of `NAME.head`, where that line must be refused; and it
//! reads each line of a file `NAME.requests` as a request, which must be that of the same line of `NAME.parsed`; and each line of a
//! file `NAME.commands` as the second line of a script of 8 pages, which must be the command of the same line of `NAME.meant`.
//!
//! It prints a line for each file, by its name: `ok`, or the first line that is wrong, which is counted from 1.

ghost use Rattle.std.specs.Prelude.{◌≡◌, ◌↔◌, IsNone};

use bl_cli_commands::{CommandFault, replay_script};
use bl_model::Watched;
use bl_replay::PLAYED;
use bl_replay_script::read_script;
use bl_serve_lines::request::parse;
use std::alloc::Global;
use std::fs;

/// Whether all files are right.
pub fn are_right(rt: &HostRuntime) -> anyhow::Result<bool> {
    let scripts = scripts_are_right(rt)?;
    let lines = lines_are_right(rt)?;
    let requests = requests_are_right(rt)?;
    let commands = commands_are_right(rt)?;
    Ok(scripts && lines && requests && commands)
}

/// Whether each script prints what it is to print.
fn scripts_are_right(rt: &HostRuntime) -> anyhow::Result<bool> {
    let mut all_right = true;
    for name in names_with(rt, ".script")?.iter() {
        all_right &= tell(rt, name.as_str(), wrong_line(rt, name.as_str())?)?;
    }
    Ok(all_right)
}

/// Whether each bad line is refused.
fn lines_are_right(rt: &HostRuntime) -> anyhow::Result<bool> {
    let mut all_right = true;
    for name in names_with(rt, ".lines")?.iter() {
        all_right &= tell(rt, name.as_str(), line_that_is_taken(rt, name.as_str())?)?;
    }
    Ok(all_right)
}

/// Whether each request is read as what it asks for.
fn requests_are_right(rt: &HostRuntime) -> anyhow::Result<bool> {
    let mut all_right = true;
    for name in names_with(rt, ".requests")?.iter() {
        all_right &= tell(rt, name.as_str(), request_read_wrongly(rt, name.as_str())?)?;
    }
    Ok(all_right)
}

/// Whether each line of a script is read as its command.
fn commands_are_right(rt: &HostRuntime) -> anyhow::Result<bool> {
    let mut all_right = true;
    for name in names_with(rt, ".commands")?.iter() {
        all_right &= tell(rt, name.as_str(), command_read_wrongly(rt, name.as_str())?)?;
    }
    Ok(all_right)
}

/// The names of the files with this ending, without it, in order.
fn names_with(rt: &HostRuntime, ending: &str) -> anyhow::Result<Vec<String>> {
    let alloc = rt.alloc();
    let mut names = Vec::new(alloc);
    for entry in fs::read_dir(rt, ".")? {
        let entry = entry?;
        if let Some(name) = entry.file_name().strip_suffix(ending) {
            names.push(String::from_str(alloc, name)?)?;
        }
    }
    names.sort_unstable();
    Ok(names)
}

/// The contents of the file with this name and ending.
fn contents(rt: &HostRuntime, name: &str, ending: &str) -> anyhow::Result<Vec<u8>> {
    let path = format!(in rt.alloc(); "{name}{ending}")?;
    Ok(fs::read(rt, path.as_str())?)
}

/// Prints what was found of a file, and gives whether it was right.
fn tell(rt: &HostRuntime, name: &str, wrong: Option<usize>) -> anyhow::Result<bool> {
    match wrong {
        Some(line) => println!(rt; "{name} is wrong at line {line}")?,
        None => println!(rt; "{name} ok")?,
    }
    Ok(wrong.is_none())
}

/// All that `blink replay` prints for a script.
fn printed(alloc: Global, script: &[u8]) -> anyhow::Result<Vec<u8>> {
    let mut writer = Watched::new(Vec::new(alloc));
    let result = replay_script(alloc, false, &mut Watched::new(script), &mut writer);
    let mut text = writer.into_inner();
    if let Err(fault) = result {
        let line = format!(in alloc; "{fault}\n")?;
        text.extend_from_slice(line.as_bytes())?;
    }
    Ok(text)
}

/// The first line of what a script prints that is not as wanted.
fn wrong_line(rt: &HostRuntime, name: &str) -> anyhow::Result<Option<usize>> {
    let wanted = contents(rt, name, ".out")?;
    let script = contents(rt, name, ".script")?;
    let found = printed(rt.alloc(), script.as_slice())?;
    Ok(first_difference(found.as_slice(), wanted.as_slice()))
}

/// The first line in which two texts differ, None where they are the same.
fn first_difference(found: &[u8], wanted: &[u8]) -> Option<usize>
    ensures { IsNone result ↔ (found.now ≡ wanted.now) }
{
    if found == wanted {
        return None;
    }
    let mut line = 1usize;
    for (found, wanted) in found.iter().zip(wanted.iter()) {
        if found != wanted {
            break;
        }
        if *found == b'\n' {
            line = line.saturating_add(1);
        }
    }
    Some(line)
}

/// The first line of a file of lines that is not refused behind those of its head.
fn line_that_is_taken(rt: &HostRuntime, name: &str) -> anyhow::Result<Option<usize>> {
    let head = contents(rt, name, ".head")?;
    let lines = contents(rt, name, ".lines")?;
    let mut number = 0usize;
    for line in lines.as_slice().split_inclusive(|byte| *byte == b'\n') {
        number = number.saturating_add(1);
        if !is_refused(rt.alloc(), head.as_slice(), line)? {
            return Ok(Some(number));
        }
    }
    Ok(None)
}

/// The script of the head and this line is bad at the line, and prints nothing more.
fn is_refused(alloc: Global, head: &[u8], line: &[u8]) -> anyhow::Result<bool> {
    let ends = head.iter().filter(|byte| **byte == b'\n').count() as u64;
    let wanted = format!(in alloc; "{}\n", CommandFault::Script(ends.saturating_add(1)))?;
    let mut script = Vec::from_slice(alloc, head)?;
    script.extend_from_slice(line)?;
    let found = printed(alloc, script.as_slice())?;
    Ok(found.as_slice() == wanted.as_bytes())
}

/// The first line of a file of requests that is not read as wanted.
fn request_read_wrongly(rt: &HostRuntime, name: &str) -> anyhow::Result<Option<usize>> {
    let wanted = contents(rt, name, ".parsed")?;
    let lines = contents(rt, name, ".requests")?;
    let mut found = Vec::new(rt.alloc());
    for line in lines.as_slice().split_inclusive(|byte| *byte == b'\n') {
        let request = parse(line.strip_suffix(b"\n").unwrap_or(line));
        found.extend_from_slice(format!(in rt.alloc(); "{request:?}\n")?.as_bytes())?;
    }
    Ok(first_difference(found.as_slice(), wanted.as_slice()))
}

/// The first line of a file of commands that is not read as wanted.
fn command_read_wrongly(rt: &HostRuntime, name: &str) -> anyhow::Result<Option<usize>> {
    let wanted = contents(rt, name, ".meant")?;
    let lines = contents(rt, name, ".commands")?;
    let mut found = Vec::new(rt.alloc());
    for line in lines.as_slice().split_inclusive(|byte| *byte == b'\n') {
        found.extend_from_slice(command_of(rt.alloc(), line)?.as_bytes())?;
    }
    Ok(first_difference(found.as_slice(), wanted.as_slice()))
}

/// The last command of a script of this line behind a search, as a line.
fn command_of(alloc: Global, line: &[u8]) -> anyhow::Result<String> {
    let mut script = Vec::from_slice(alloc, b"pages 8\nfind 1\n")?;
    script.extend_from_slice(line)?;
    match read_script(alloc, &mut Watched::new(script.as_slice()), PLAYED) {
        Ok(script) => {
            let last = script.commands.as_slice().get(1);
            Ok(format!(in alloc; "{last:?}\n")?)
        }
        Err(fault) => Ok(format!(in alloc; "{fault:?}\n")?),
    }
}
