//! The command line.

ghost use Rattle.std.specs.Prelude.{IfOk};
ghost use Rattle.bl_serve_lines.specs.Options.{AreWithin};
ghost use Rattle.bl_cli_options.specs.Limits.{IsImageOf, IsWithinLimits};

use crate::logging::{LogAction, log_command, log_of};
use crate::texts::{
    ABOUT_ALL, ABOUT_CHECK, ABOUT_DRAW, ABOUT_DUMP, ABOUT_LOAD, ABOUT_REPLAY, ABOUT_ROWS,
    ABOUT_SERVE, VERSION,
};
use bl_serve_lines::{Sectioning, ServeOptions};
use clap::{Arg, ArgAction, ArgMatches, Command, Error, value_parser};
use std::alloc::{AllocError, Global};

/// A server that the command line asks for.
#[derive(Debug, PartialEq, Eq, Drop)]
pub struct Server {
    /// Its options. With an image it begins with the pages of that.
    pub options: ServeOptions,
    /// The file of the image that it begins with; without one it begins without rows.
    pub image: Option<String>,
    /// The folder of the log that it goes on with. With an image it begins a log there.
    pub log: Option<String>,
    /// Which lines end a section.
    pub sections: Sectioning,
    /// Whether it says at its end what it has counted.
    pub stats: bool,
}

/// An image of rows that the command line asks for.
#[derive(Clone, Copy, Debug, PartialEq, Eq)]
pub struct Loading {
    /// Its pages, 4 to 2^28.
    pub pages: u32,
    /// How many rows a leaf has, and how many children a page above, 1 to 14.
    pub fill: u32,
}

/// What the command line asks for.
#[derive(Debug, PartialEq, Eq, Drop)]
pub enum Invocation {
    /// `blink serve`.
    Serve(Server),
    /// `blink dump` to this file.
    Dump(Server, String),
    /// `blink load` of rows into an image in this file.
    Load(Loading, String),
    /// `blink rows` of this file.
    Rows(String),
    /// `blink check` of this file.
    Check(String),
    /// `blink draw` of this file, and whether as SVG.
    Draw(String, bool),
    /// `blink replay` of this file, and whether with what stands in each page that is put.
    Replay(String, bool),
    /// `blink log` with this action, of the log in this folder.
    Log(LogAction, String),
    /// No command.
    Nothing,
}

/// How many pages there are.
fn pages_option<'a>(alloc: Global) -> Arg<'a> {
    Arg::new(alloc, "pages")
        .long("pages")
        .value_name("N")
        .help("Pages of the index, 4 to 65536")
        .value_parser(value_parser!(u32).range(4..=65536))
}

/// Up to how many pages the index grows.
fn most_option<'a>(alloc: Global) -> Arg<'a> {
    Arg::new(alloc, "most")
        .long("most")
        .value_name("N")
        .help("Pages up to which the index grows, 4 to 268435456")
        .value_parser(value_parser!(u32).range(4..=268435456))
}

/// How many pages a large index has.
fn large_option<'a>(alloc: Global) -> Result<Arg<'a>, AllocError> {
    Arg::new(alloc, "large")
        .long("large")
        .value_name("N")
        .help("Pages of a large index, 4 to 268435456, in place of --pages")
        .value_parser(value_parser!(u32).range(4..=268435456))
        .conflicts_with("pages")
}

/// How many workers there are.
fn workers_option<'a>(alloc: Global) -> Arg<'a> {
    Arg::new(alloc, "workers")
        .long("workers")
        .value_name("N")
        .help("Threads that answer requests, 1 to 32")
        .value_parser(value_parser!(u32).range(1..=32))
        .default_value("4")
}

/// How many compressors there are.
fn compressors_option<'a>(alloc: Global) -> Arg<'a> {
    Arg::new(alloc, "compressors")
        .long("compressors")
        .value_name("N")
        .help("Threads that merge thin pages, 0 to 16")
        .value_parser(value_parser!(u32).range(0..=16))
        .default_value("1")
}

/// What the index begins with.
fn image_option<'a>(alloc: Global) -> Result<Arg<'a>, AllocError> {
    Arg::new(alloc, "image")
        .long("image")
        .value_name("FILE")
        .help("Begin with the rows and pages of this image")
        .conflicts_with("pages")?
        .conflicts_with("large")
}

/// Which log the server goes on with.
fn log_option<'a>(alloc: Global) -> Arg<'a> {
    Arg::new(alloc, "log").long("log").value_name("FOLDER").help(
        "Keep what is changed in the log of this folder, before it is answered",
    )
}

/// Whether each line is a section, whatever `--section` says.
fn interactive_option<'a>(alloc: Global) -> Arg<'a> {
    Arg::new(alloc, "interactive")
        .long("interactive")
        .action(ArgAction::SetTrue)
        .help("Answer each line before the next one is read")
}

/// How many lines a section has at most.
fn section_option<'a>(alloc: Global) -> Arg<'a> {
    Arg::new(alloc, "section")
        .long("section")
        .value_name("N")
        .help("Write replies behind so many lines, if no sync comes before")
        .value_parser(value_parser!(u32).range(1..=4294967295))
}

/// Whether the server says at its end what it has counted.
fn stats_option<'a>(alloc: Global) -> Arg<'a> {
    Arg::new(alloc, "stats")
        .long("stats")
        .action(ArgAction::SetTrue)
        .help("At the end, say on standard error what was counted")
}

/// The command with the first options of a server.
fn with_pages_and_workers<'a>(
    alloc: Global,
    command: Command<'a>,
) -> Result<Command<'a>, AllocError> {
    let large = large_option(alloc)?;
    command
        .arg(pages_option(alloc))?
        .arg(large)?
        .arg(most_option(alloc))?
        .arg(workers_option(alloc))
}

/// The command with the next options of a server.
fn with_compressors_and_image<'a>(
    alloc: Global,
    command: Command<'a>,
) -> Result<Command<'a>, AllocError> {
    let image = image_option(alloc)?;
    command.arg(compressors_option(alloc))?.arg(image)
}

/// The command with the options of a server, in the order in which help lists them.
fn with_options<'a>(alloc: Global, command: Command<'a>) -> Result<Command<'a>, AllocError> {
    let command = with_pages_and_workers(alloc, command)?;
    let command = with_compressors_and_image(alloc, command)?;
    command
        .arg(section_option(alloc))?
        .arg(interactive_option(alloc))?
        .arg(stats_option(alloc))
}

/// The file that a command is about.
fn file_argument<'a>(alloc: Global, help: &'a str) -> Arg<'a> {
    Arg::new(alloc, "FILE")
        .required(true)
        .action(ArgAction::Set)
        .help(help)
}

/// The command line of `serve`.
fn serve_command<'a>(alloc: Global) -> Result<Command<'a>, AllocError> {
    let command = Command::new(alloc, "serve")
        .about("Answers request lines from standard input")
        .after_help(ABOUT_SERVE);
    with_options(alloc, command)?.arg(log_option(alloc))
}

/// The command line of `dump`.
fn dump_command<'a>(alloc: Global) -> Result<Command<'a>, AllocError> {
    let file = file_argument(
        alloc,
        "Where the image is to stand; what is there is replaced",
    );
    let command = Command::new(alloc, "dump")
        .about("Serves, and then writes the image of the index to a file")
        .after_help(ABOUT_DUMP)
        .arg(file)?;
    with_options(alloc, command)
}

/// Which lines end a section, as clap has found.
fn sections_of(found: &ArgMatches) -> Sectioning {
    if found.get_flag("interactive") {
        return Sectioning::AtMost(1);
    }
    match found.get_one::<u32>("section") {
        Some(lines) => Sectioning::AtMost(u64::from(lines)),
        None => Sectioning::BySync,
    }
}

/// The text of an option or an argument that clap has found.
fn text_of(alloc: Global, found: &ArgMatches, name: &str) -> Result<Option<String>, AllocError> {
    match found.get_str(name) {
        Some(text) => Ok(Some(String::from_str(alloc, text)?)),
        None => Ok(None),
    }
}

/// The server that clap has found. It has refused a value outside the limits; they are kept here too, since its answer is
/// not known to the proof.
fn server_of(alloc: Global, found: &ArgMatches, log: Option<String>) -> Result<Server, AllocError>
    ensures { IfOk result (λ server. AreWithin server.options) }
{
    let options = ServeOptions::of(
        found.get_one::<u32>("pages"),
        found.get_one::<u32>("workers"),
        found.get_one::<u32>("compressors"),
    );
    let options = match found.get_one::<u32>("large") {
        Some(pages) => options.having_large(pages),
        None => options,
    };
    let options = match found.get_one::<u32>("most") {
        Some(most) => options.growing_to(most),
        None => options,
    };
    let image = text_of(alloc, found, "image")?;
    let stats = found.get_flag("stats");
    Ok(Server {
        options,
        image,
        log,
        sections: sections_of(found),
        stats,
    })
}

/// How full pages are.
fn fill_option<'a>(alloc: Global) -> Arg<'a> {
    Arg::new(alloc, "fill")
        .long("fill")
        .value_name("N")
        .help("Rows of a leaf and children of a page above, 1 to 14")
        .value_parser(value_parser!(u32).range(1..=14))
        .default_value("14")
}

/// The command line of `load`.
fn load_command<'a>(alloc: Global) -> Result<Command<'a>, AllocError> {
    let file = file_argument(
        alloc,
        "Where the image is to stand; what is there is replaced",
    );
    let large = large_option(alloc)?;
    Command::new(alloc, "load")
        .about("Makes an image of rows from standard input")
        .after_help(ABOUT_LOAD)
        .arg(file)?
        .arg(pages_option(alloc).default_value("1024"))?
        .arg(large)?
        .arg(fill_option(alloc))
}

/// The image that clap has found. Its limits are kept here too.
fn loading_of(found: &ArgMatches) -> Loading
    ensures { IsImageOf result }
{
    let options = ServeOptions::of(found.get_one::<u32>("pages"), None, None);
    let options = match found.get_one::<u32>("large") {
        Some(pages) => options.having_large(pages),
        None => options,
    };
    Loading {
        pages: options.pages,
        fill: found.get_one::<u32>("fill").unwrap_or(14).clamp(1, 14),
    }
}

/// The command line of `rows`.
fn rows_command<'a>(alloc: Global) -> Result<Command<'a>, AllocError> {
    Command::new(alloc, "rows")
        .about("Prints the rows of an image")
        .after_help(ABOUT_ROWS)
        .arg(file_argument(alloc, "The image whose rows are printed"))
}

/// The command line of `check`.
fn check_command<'a>(alloc: Global) -> Result<Command<'a>, AllocError> {
    Command::new(alloc, "check")
        .about("Checks whether an image is a sound tree")
        .after_help(ABOUT_CHECK)
        .arg(file_argument(alloc, "The image to check"))
}

/// The command line of `draw`.
fn draw_command<'a>(alloc: Global) -> Result<Command<'a>, AllocError> {
    let svg = Arg::new(alloc, "svg")
        .long("svg")
        .action(ArgAction::SetTrue)
        .help("Print SVG, which a browser shows, in place of text");
    Command::new(alloc, "draw")
        .about("Draws the tree in an image")
        .after_help(ABOUT_DRAW)
        .arg(file_argument(alloc, "The image to draw"))?
        .arg(svg)
}

/// The command line of `replay`.
fn replay_command<'a>(alloc: Global) -> Result<Command<'a>, AllocError> {
    let pages = Arg::new(alloc, "pages")
        .long("pages")
        .action(ArgAction::SetTrue)
        .help("Print behind each put what stands in its page then");
    Command::new(alloc, "replay")
        .about("Carries out a script of turns, and prints each event")
        .after_help(ABOUT_REPLAY)
        .arg(file_argument(alloc, "The script to carry out"))?
        .arg(pages)
}

/// The command line of `blink` with one command more.
fn with_command<'a>(
    blink: Command<'a>,
    command: Result<Command<'a>, AllocError>,
) -> Result<Command<'a>, AllocError> {
    blink.subcommand(command?)
}

/// The command line of `blink` with the commands that serve, and those for rows as text.
fn with_servers<'a>(alloc: Global, blink: Command<'a>) -> Result<Command<'a>, AllocError> {
    let blink = with_command(blink, serve_command(alloc))?;
    let blink = with_command(blink, dump_command(alloc))?;
    let blink = with_command(blink, load_command(alloc))?;
    with_command(blink, rows_command(alloc))
}

/// The command line of `blink`.
fn blink_command<'a>(alloc: Global) -> Result<Command<'a>, AllocError> {
    let blink = Command::new(alloc, "blink")
        .about("A concurrent ordered index from u64 keys to u64 values, proved")
        .version(VERSION)
        .after_help(ABOUT_ALL)
        .subcommand_required(true);
    let blink = with_servers(alloc, blink)?;
    let blink = with_command(blink, check_command(alloc))?;
    let blink = with_command(blink, draw_command(alloc))?;
    let blink = with_command(blink, replay_command(alloc))?;
    with_command(blink, log_command(alloc))
}

/// What a command of this name asks for, with what clap has found of it.
fn invocation_of(alloc: Global, name: &str, found: &ArgMatches) -> Result<Invocation, AllocError>
    ensures { IfOk result IsWithinLimits }
{
    if name == "serve" {
        let log = text_of(alloc, found, "log")?;
        return Ok(Invocation::Serve(server_of(alloc, found, log)?));
    }
    if name == "log" {
        return Ok(match log_of(alloc, found)? {
            Some((action, folder)) => Invocation::Log(action, folder),
            None => Invocation::Nothing,
        });
    }
    let Some(file) = text_of(alloc, found, "FILE")? else {
        return Ok(Invocation::Nothing);
    };
    match name {
        "dump" => Ok(Invocation::Dump(server_of(alloc, found, None)?, file)),
        "load" => Ok(Invocation::Load(loading_of(found), file)),
        "rows" => Ok(Invocation::Rows(file)),
        "check" => Ok(Invocation::Check(file)),
        "draw" => Ok(Invocation::Draw(file, found.get_flag("svg"))),
        "replay" => Ok(Invocation::Replay(file, found.get_flag("pages"))),
        _ => Ok(Invocation::Nothing),
    }
}

/// Reads the words of the command line, of which the first is the program's name. What clap refuses, or asks to be
/// printed, is its error.
pub fn read_words(alloc: Global, words: &[String]) -> Result<Invocation, Error>
    ensures { IfOk result IsWithinLimits }
{
    let matches = blink_command(alloc)?.try_get_matches_from(words)?;
    match matches.subcommand() {
        Some((name, found)) => Ok(invocation_of(alloc, name, found)?),
        None => Ok(Invocation::Nothing),
    }
}
