//! What a server says at its end. But for the line on malformed requests, these are tested.

ghost use Rattle.std.specs.Prelude.{◌≡◌, ◌≢◌, ◌++◌, IfOk, string_bytes};
ghost use Rattle.bl_cli_streams.specs.Counted.{malformed_text, one_malformed_text, wrong_text};

use bl_image::Image;
use bl_model::limits::{MOST_LARGE_PAGES, MOST_PAGES};
use bl_serve_lines::{Totals, Wrong};
use std::alloc::{AllocError, Global};

/// The pages of an index that has been closed.
#[derive(Clone, Copy, Debug, PartialEq, Eq)]
pub struct Usage {
    /// Those in use, the anchor among them.
    pub used: usize,
    /// All of them.
    pub all: usize,
}

/// The pages of an image.
pub fn used_pages(image: &Image) -> Usage {
    Usage {
        used: image.pages.iter().filter(|page| page.is_some()).count(),
        all: image.pages.len(),
    }
}

/// The line of `--stats`; without the pages where there was no memory to close the index.
pub fn stats_line(
    alloc: Global,
    totals: &Totals,
    norooms: u64,
    usage: Option<Usage>,
) -> Result<String, AllocError> {
    let requests = totals.requests;
    let malformed = totals.malformed;
    let sections = totals.sections;
    let mut line = format!(in alloc;
        "blink: requests {requests} malformed {malformed} sections {sections} noroom {norooms}"
    )?;
    if let Some(usage) = usage {
        let pages = format!(in alloc; " pages {} of {}", usage.used, usage.all)?;
        line.push_str(pages.as_str())?;
    }
    Ok(line)
}

/// The line for requests that found no room, and what helps: of an index that has so many pages, and may grow up to so many.
pub fn noroom_line(
    alloc: Global,
    norooms: u64,
    pages: u32,
    most: u32,
) -> Result<String, AllocError> {
    let requests = if norooms == 1 { "request" } else { "requests" };
    if pages < most {
        return format!(in alloc;
            "blink: {norooms} {requests} found no room; the index grows to {most} pages, where memory for them is found"
        );
    }
    if pages >= MOST_LARGE_PAGES {
        return format!(in alloc;
            "blink: {norooms} {requests} found no room; {MOST_LARGE_PAGES} pages are the most"
        );
    }
    if pages >= MOST_PAGES {
        return format!(in alloc;
            "blink: {norooms} {requests} found no room; more pages than {pages} by --large may help"
        );
    }
    format!(in alloc;
        "blink: {norooms} {requests} found no room; more --pages than {pages} may help"
    )
}

/// What is said of what is wrong with a line, behind its number.
fn wrong_words(alloc: Global, wrong: Wrong) -> Result<String, AllocError>
    ensures { IfOk result (λ words. string_bytes words ≡ wrong_text wrong) }
{
    match wrong {
        Wrong::Word(place) => format!(in alloc; ", at word {place}"),
        Wrong::Long => format!(in alloc; ", which has more than 69 bytes"),
        Wrong::Open => format!(in alloc; ", which ends without a line feed"),
    }
}

/// The line for so many malformed requests, of which the first is the one of that line, with what is wrong with it.
pub fn malformed_line(
    alloc: Global,
    malformed: u64,
    first: u64,
    wrong: Wrong,
) -> Result<String, AllocError>
    ensures one { malformed ≡ 1 → IfOk result (λ line. string_bytes line ≡ one_malformed_text first ++ wrong_text wrong) }
    ensures more { malformed ≢ 1 → IfOk result (λ line. string_bytes line ≡ malformed_text malformed first ++ wrong_text wrong) }
{
    let mut line = if malformed == 1 {
        format!(in alloc; "blink: 1 request was malformed: line {first}")?
    } else {
        format!(in alloc; "blink: {malformed} requests were malformed; the first is line {first}")?
    };
    let words = wrong_words(alloc, wrong)?;
    line.push_str(words.as_str())?;
    Ok(line)
}
