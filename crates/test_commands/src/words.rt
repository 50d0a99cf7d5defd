//! The words of the command line, and the words on standard error.

use bl_cli_commands::CommandFault;
use bl_cli_options::{Invocation, Sectioning, ServeOptions, Server, read_words};
use bl_cli_streams::DumpFault;
use bl_serve_lines::ServeFault;
use std::alloc::Global;
use std::test::Fail;

/// The words of a command line.
fn words(alloc: Global, text: &str) -> Result<Vec<String>, Fail> {
    let mut words = Vec::new(alloc);
    for word in text.split(' ') {
        words.push(String::from_str(alloc, word)?)?;
    }
    Ok(words)
}

/// What a command line asks for, None where clap refuses it.
fn invoked(alloc: Global, text: &str) -> Result<Option<Invocation>, Fail> {
    Ok(read_words(alloc, words(alloc, text)?.as_slice()).ok())
}

/// What a server asks for: its pages, workers and compressors, and the image that it begins with.
type Served<'a> = ((u32, u32), u32, u32, Option<&'a str>);

/// Whether a server is asked for, and whether it is to say what it has counted.
fn counts(invocation: &Invocation) -> Option<bool> {
    match invocation {
        Invocation::Serve(server) => Some(server.stats),
        Invocation::Dump(server, _) => Some(server.stats),
        _ => None,
    }
}

/// The same of what a command line asks for.
fn says_counts(alloc: Global, text: &str) -> Result<Option<bool>, Fail> {
    Ok(match invoked(alloc, text)? {
        Some(invocation) => counts(&invocation),
        None => None,
    })
}

#[test]
fn words_that_ask_for_counts(rt: HostRuntime) -> Result<(), Fail> {
    for (text, wanted) in [
        ("blink serve", Some(false)),
        ("blink serve --stats", Some(true)),
        ("blink dump --stats index.image", Some(true)),
        ("blink check --stats index.image", None),
    ] {
        assert!(rt; says_counts(rt.alloc(), text)? == wanted, "{text}");
    }
    Ok(())
}

/// Which lines end a section of a server that is asked for.
fn sections(invocation: &Invocation) -> Option<Sectioning> {
    match invocation {
        Invocation::Serve(server) => Some(server.sections),
        Invocation::Dump(server, _) => Some(server.sections),
        _ => None,
    }
}

/// The same of what a command line asks for.
fn ends_sections(alloc: Global, text: &str) -> Result<Option<Sectioning>, Fail> {
    Ok(match invoked(alloc, text)? {
        Some(invocation) => sections(&invocation),
        None => None,
    })
}

#[test]
fn words_that_ask_for_a_reply_at_once(rt: HostRuntime) -> Result<(), Fail> {
    for (text, wanted) in [
        ("blink serve", Some(Sectioning::BySync)),
        ("blink serve --interactive", Some(Sectioning::AtMost(1))),
        (
            "blink dump index.image --interactive",
            Some(Sectioning::AtMost(1)),
        ),
        (
            "blink serve --section 10000",
            Some(Sectioning::AtMost(10000)),
        ),
        (
            "blink serve --section 7 --interactive",
            Some(Sectioning::AtMost(1)),
        ),
        ("blink serve --section 0", None),
        ("blink rows --section 7 index.image", None),
        ("blink rows --interactive index.image", None),
        ("blink serve --interactive yes", None),
    ] {
        assert!(rt; ends_sections(rt.alloc(), text)? == wanted, "{text}");
    }
    Ok(())
}

/// Whether a server is of that kind.
fn is_server(server: &Server, served: Served<'_>) -> bool {
    let ((pages, most), workers, compressors, image) = served;
    let options = ServeOptions {
        pages,
        most,
        workers,
        compressors,
    };
    let begins = match &server.image {
        Some(named) => image == Some(named.as_str()),
        None => image.is_none(),
    };
    begins && server.options == options
}

/// Whether such a server is asked for, or a dump of it to that file.
fn is_for_server(invocation: &Invocation, served: Served<'_>, dump: Option<&str>) -> bool {
    match invocation {
        Invocation::Serve(server) => dump.is_none() && is_server(server, served),
        Invocation::Dump(server, named) => {
            dump == Some(named.as_str()) && is_server(server, served)
        }
        _ => false,
    }
}

/// Whether a command line asks for that.
fn asks(alloc: Global, text: &str, served: Served<'_>, dump: Option<&str>) -> Result<bool, Fail> {
    Ok(match invoked(alloc, text)? {
        Some(invocation) => is_for_server(&invocation, served, dump),
        None => false,
    })
}

/// A command line, the server that it asks for, and the file of a dump.
type Line = (&'static str, Served<'static>, Option<&'static str>);

const LINES: [Line; 9] = [
    ("blink serve", ((1024, 268435456), 4, 1, None), None),
    (
        "blink serve --pages 4 --workers 1 --compressors 0",
        ((4, 4), 1, 0, None),
        None,
    ),
    (
        "blink serve --pages 65536 --workers 32 --compressors 16",
        ((65536, 65536), 32, 16, None),
        None,
    ),
    ("blink serve --most 5000", ((1024, 5000), 4, 1, None), None),
    (
        "blink serve --pages 16 --most 64",
        ((16, 64), 4, 1, None),
        None,
    ),
    (
        "blink dump index.image --large 4 --most 268435456",
        ((4, 268435456), 4, 1, None),
        Some("index.image"),
    ),
    (
        "blink dump --pages 4 index.image --workers 1 --compressors 0",
        ((4, 4), 1, 0, None),
        Some("index.image"),
    ),
    (
        "blink serve --image old.image",
        ((1024, 268435456), 4, 1, Some("old.image")),
        None,
    ),
    (
        "blink dump new.image --image old.image",
        ((1024, 268435456), 4, 1, Some("old.image")),
        Some("new.image"),
    ),
];

#[test]
fn words_of_the_command_line(rt: HostRuntime) -> Result<(), Fail> {
    for (text, served, dump) in LINES {
        assert!(rt; asks(rt.alloc(), text, served, dump)?, "{text}");
    }
    Ok(())
}

/// Whether a command line asks for a server that goes on with the log of that folder; None where it asks for no server.
fn goes_on_with(alloc: Global, text: &str, folder: Option<&str>) -> Result<Option<bool>, Fail> {
    let found = invoked(alloc, text)?;
    Ok(match &found {
        Some(Invocation::Serve(server)) => Some(server.log.as_deref() == folder),
        _ => None,
    })
}

#[test]
fn a_server_is_asked_for_a_log(rt: HostRuntime) -> Result<(), Fail> {
    for (text, folder, wanted) in [
        ("blink serve", None, Some(true)),
        ("blink serve --log kept", Some("kept"), Some(true)),
        (
            "blink serve --image old.image --log kept",
            Some("kept"),
            Some(true),
        ),
        ("blink serve --log", None, None),
        ("blink dump new.image --log kept", None, None),
    ] {
        assert!(rt; goes_on_with(rt.alloc(), text, folder)? == wanted, "{text}");
    }
    Ok(())
}

/// Whether that file is to be checked, and whether it is to be replayed.
fn is_for_file(invocation: &Invocation, file: &str) -> (bool, bool) {
    match invocation {
        Invocation::Check(named) => (named.as_str() == file, false),
        Invocation::Replay(named, _) => (false, named.as_str() == file),
        _ => (false, false),
    }
}

/// Whether a command line asks for that.
fn reads_file(alloc: Global, text: &str, file: &str) -> Result<(bool, bool), Fail> {
    Ok(match invoked(alloc, text)? {
        Some(invocation) => is_for_file(&invocation, file),
        None => (false, false),
    })
}

#[test]
fn words_that_name_a_file(rt: HostRuntime) -> Result<(), Fail> {
    let checked = reads_file(rt.alloc(), "blink check image", "image")?;
    let replayed = reads_file(rt.alloc(), "blink replay script", "script")?;
    assert_eq!(rt; (checked, replayed), ((true, false), (false, true)));
    Ok(())
}

/// Whether a replay is to print what stands in each page that is put, None where none is asked for.
fn wants_pages(alloc: Global, text: &str) -> Result<Option<bool>, Fail> {
    Ok(match invoked(alloc, text)? {
        Some(Invocation::Replay(_, with_pages)) => Some(with_pages),
        _ => None,
    })
}

#[test]
fn words_that_ask_for_pages(rt: HostRuntime) -> Result<(), Fail> {
    for (text, wanted) in [
        ("blink replay script", Some(false)),
        ("blink replay --pages script", Some(true)),
        ("blink replay script --pages", Some(true)),
        ("blink replay --html script", None),
        ("blink draw --pages image", None),
    ] {
        assert!(rt; wants_pages(rt.alloc(), text)? == wanted, "{text}");
    }
    Ok(())
}

/// Whether a picture of `index.image` is asked for, and whether as SVG.
fn pictures(invocation: &Invocation) -> Option<bool> {
    match invocation {
        Invocation::Draw(file, svg) if file.as_str() == "index.image" => Some(*svg),
        _ => None,
    }
}

/// The same of what a command line asks for.
fn draws(alloc: Global, text: &str) -> Result<Option<bool>, Fail> {
    Ok(match invoked(alloc, text)? {
        Some(invocation) => pictures(&invocation),
        None => None,
    })
}

#[test]
fn words_that_ask_for_a_picture(rt: HostRuntime) -> Result<(), Fail> {
    for (text, wanted) in [
        ("blink draw index.image", Some(false)),
        ("blink draw index.image --svg", Some(true)),
        ("blink draw --svg", None),
    ] {
        assert!(rt; draws(rt.alloc(), text)? == wanted, "{text}");
    }
    Ok(())
}

/// The pages and the fill of an image of rows that is asked for, to be in `index.image`.
fn loading(invocation: &Invocation) -> Option<(u32, u32)> {
    match invocation {
        Invocation::Load(loading, file) if file.as_str() == "index.image" => {
            Some((loading.pages, loading.fill))
        }
        _ => None,
    }
}

/// The same of what a command line asks for.
fn loads(alloc: Global, text: &str) -> Result<Option<(u32, u32)>, Fail> {
    Ok(match invoked(alloc, text)? {
        Some(invocation) => loading(&invocation),
        None => None,
    })
}

#[test]
fn words_that_ask_for_an_image_of_rows(rt: HostRuntime) -> Result<(), Fail> {
    for (text, wanted) in [
        ("blink load index.image", Some((1024, 14))),
        ("blink load index.image --fill 1 --pages 4", Some((4, 1))),
        (
            "blink load --large 268435456 --fill 7 index.image",
            Some((268435456, 7)),
        ),
        ("blink load index.image --fill 0", None),
        ("blink load index.image --fill 15", None),
        ("blink load index.image --pages 65537", None),
        ("blink load --fill 14", None),
        ("blink rows index.image", None),
    ] {
        assert!(rt; loads(rt.alloc(), text)? == wanted, "{text}");
    }
    Ok(())
}

/// Whether the rows of `index.image` are asked for.
fn asks_for_rows(alloc: Global, text: &str) -> Result<bool, Fail> {
    let Some(Invocation::Rows(file)) = invoked(alloc, text)? else {
        return Ok(false);
    };
    Ok(file.as_str() == "index.image")
}

#[test]
fn words_that_ask_for_rows(rt: HostRuntime) -> Result<(), Fail> {
    assert!(rt; asks_for_rows(rt.alloc(), "blink rows index.image")?);
    assert!(rt; !asks_for_rows(rt.alloc(), "blink rows")?);
    Ok(())
}

const REFUSED: [&str; 19] = [
    "blink",
    "blink dump",
    "blink dump a b",
    "blink dump index.image --pages 3",
    "blink serve --image",
    "blink serve --image old.image --pages 1024",
    "blink dump new.image --pages 8 --image old.image",
    "blink serve --pages 3",
    "blink serve --pages 65537",
    "blink serve --workers 0",
    "blink serve --workers 33",
    "blink serve --compressors 17",
    "blink serve --pages x",
    "blink server",
    "blink check",
    "blink check a b",
    "blink check --deep a",
    "blink replay",
    "blink replay a b",
];

fn is_refused(alloc: Global, text: &str) -> Result<bool, Fail> {
    Ok(invoked(alloc, text)?.is_none())
}

#[test]
fn words_that_are_refused(rt: HostRuntime) -> Result<(), Fail> {
    for refused in REFUSED {
        assert!(rt; is_refused(rt.alloc(), refused)?, "{refused}");
    }
    Ok(())
}

/// What fails of a dump.
#[derive(Clone, Copy)]
enum Failing {
    Memory,
    Refuse,
    Make,
    Fill,
    Rename,
    Sync,
}

/// The fault of a dump to this file.
fn fault_of(alloc: Global, failing: Failing) -> Result<DumpFault, Fail> {
    let path = String::from_str(alloc, "i.new")?;
    Ok(match failing {
        Failing::Memory => DumpFault::Memory,
        Failing::Refuse => DumpFault::Refuse(path),
        Failing::Make => DumpFault::Make(path),
        Failing::Fill => DumpFault::Fill(path),
        Failing::Rename => DumpFault::Rename(path),
        Failing::Sync => DumpFault::Sync(path),
    })
}

/// Whether those are the two lines of the fault, and its status.
fn is_observed(
    alloc: Global,
    fault: DumpFault,
    text: &str,
    reason: &str,
    status: u8,
) -> Result<bool, Fail> {
    let words = format!(in alloc; "{fault}")?;
    let says = match fault.reason(alloc)? {
        Some(line) => line.as_str() == reason,
        None => reason.is_empty(),
    };
    Ok(says && words.as_str() == text && fault.status() == status)
}

#[test]
fn words_of_a_dump_that_fails(rt: HostRuntime) -> Result<(), Fail> {
    for (failing, text, reason, status) in [
        (Failing::Memory, "blink: out of memory", "", 4),
        (
            Failing::Refuse,
            "blink: write failed",
            "blink: cannot replace i.new",
            3,
        ),
        (
            Failing::Make,
            "blink: write failed",
            "blink: cannot make i.new",
            3,
        ),
        (
            Failing::Fill,
            "blink: write failed",
            "blink: cannot write i.new",
            3,
        ),
        (
            Failing::Rename,
            "blink: write failed",
            "blink: cannot rename i.new",
            3,
        ),
        (
            Failing::Sync,
            "blink: write failed",
            "blink: cannot sync the folder of the new image, i.new",
            3,
        ),
    ] {
        let fault = fault_of(rt.alloc(), failing)?;
        assert!(rt;
            is_observed(rt.alloc(), fault, text, reason, status)?,
            "{reason}"
        );
    }
    Ok(())
}

/// The same of a command.
fn is_spelled(alloc: Global, fault: CommandFault, text: &str, status: u8) -> Result<bool, Fail> {
    let words = format!(in alloc; "{fault}")?;
    Ok(words.as_str() == text && fault.status() == status)
}

#[test]
fn words_on_standard_error(rt: HostRuntime) -> Result<(), Fail> {
    for (fault, text, status) in [
        (
            CommandFault::from(ServeFault::Read),
            "blink: read failed",
            3,
        ),
        (
            CommandFault::from(ServeFault::Write),
            "blink: write failed",
            3,
        ),
        (
            CommandFault::from(ServeFault::Memory),
            "blink: out of memory",
            4,
        ),
        (
            CommandFault::from(ServeFault::Lost(7)),
            "blink: lost request 7",
            5,
        ),
        (CommandFault::Script(7), "blink: bad script line 7", 3),
        (CommandFault::Unsound(5, 12), "fault C5 page 12", 1),
    ] {
        assert!(rt; is_spelled(rt.alloc(), fault, text, status)?, "{text}");
    }
    Ok(())
}
