//! A tree as SVG.

use crate::chart::{Fill, fill_of, most_of, part_for};
use crate::node::Node;
use crate::page_text::{
    entries_word, fault_text, head_text, level_text, marks_text, rule_text, span_text,
};
use crate::rules::{rule_words, verdict};
use crate::sheet::{CHART, EDGE, GAP, HIGH, Sheet, Spot, sheet_of};
use crate::text::used_in;
use crate::tree::{Level, Tree, tree_in};
use bl_page::{Inner, Page};
use std::alloc::{AllocError, Global};

/// Where the first level begins.
const TOP: u64 = 64;
/// How wide a bar of a chart is, with what is left behind it.
const STEP: u64 = 44;

const STYLE: &str = "<style>\
text{font:11px sans-serif}.b{font-weight:bold}.m{text-anchor:middle}.r{fill:#b3261e}\
.leaf{fill:#e8eef7;stroke:#4a6fa5}.inner{fill:#f6ead9;stroke:#a5793a}\
.thin{stroke:#d2571f;stroke-width:2.5}.unposted{stroke-dasharray:4 3}.loose{stroke:#b3261e;stroke-width:2.5}\
.link{stroke:#333;fill:none;marker-end:url(#a)}.child{stroke:#bbb;fill:none}.bar{fill:#4a6fa5}\
</style>\
<defs><marker id=\"a\" viewBox=\"0 0 8 8\" refX=\"7\" refY=\"4\" markerWidth=\"7\" markerHeight=\"7\" orient=\"auto\">\
<path d=\"M0 0L8 4L0 8z\" fill=\"#333\"/></marker></defs>\n\
<rect width=\"100%\" height=\"100%\" fill=\"white\"/>\n";

/// The place of a page on the sheet.
fn spot_of(sheet: &Sheet, page: u64) -> Option<Spot> {
    if page < sheet.spots.len() as u64 {
        sheet.spots[page as usize]
    } else {
        None
    }
}

/// Writes words there.
fn push_words(
    alloc: Global,
    out: &mut String,
    spot: Spot,
    class: &str,
    words: &str,
) -> Result<(), AllocError> {
    let x = spot.x;
    let y = spot.y;
    let head = format!(in alloc; "<text x=\"{x}\" y=\"{y}\" class=\"{class}\">")?;
    out.push_str(head.as_str())?;
    out.push_str(words)?;
    out.push_str("</text>\n")
}

/// A line from one place to another.
fn push_path(
    alloc: Global,
    out: &mut String,
    class: &str,
    from: Spot,
    to: Spot,
) -> Result<(), AllocError> {
    let start = format!(in alloc; "<path class=\"{class}\" d=\"M{} {}", from.x, from.y)?;
    out.push_str(start.as_str())?;
    let end = format!(in alloc; "L{} {}\"/>\n", to.x, to.y)?;
    out.push_str(end.as_str())
}

/// Writes a box of that size there.
fn push_rect(
    alloc: Global,
    out: &mut String,
    class: &str,
    spot: Spot,
    size: (u64, u64),
) -> Result<(), AllocError> {
    let start = format!(in alloc; "<rect class=\"{class}\" x=\"{}\" y=\"{}\"", spot.x, spot.y)?;
    out.push_str(start.as_str())?;
    let end = format!(in alloc; " width=\"{}\" height=\"{}\" rx=\"4\"/>\n", size.0, size.1)?;
    out.push_str(end.as_str())
}

/// Lines from an inner page to its children that are drawn.
fn push_children(
    alloc: Global,
    out: &mut String,
    sheet: &Sheet,
    at: Spot,
    inner: &Inner,
) -> Result<(), AllocError> {
    let from = Spot {
        x: at.x.saturating_add(sheet.wide / 2),
        y: at.y.saturating_add(HIGH),
    };
    for (_, child) in inner.children.as_slice() {
        if let Some(spot) = spot_of(sheet, *child) {
            let to = Spot {
                x: spot.x.saturating_add(sheet.wide / 2),
                y: spot.y,
            };
            push_path(alloc, out, "child", from, to)?;
        }
    }
    Ok(())
}

/// Lines from each inner page that is drawn to its children.
fn push_all_children(
    alloc: Global,
    out: &mut String,
    sheet: &Sheet,
    pages: &[Option<Page>],
) -> Result<(), AllocError> {
    let mut x = 0u64;
    for page in pages {
        if let (Some(Page::Inner(inner)), Some(at)) = (page, spot_of(sheet, x)) {
            push_children(alloc, out, sheet, at, inner)?;
        }
        x = x.saturating_add(1);
    }
    Ok(())
}

/// How the border of a page is drawn.
fn class_of(node: &Node, is_loose: bool) -> &'static str {
    match (node.level == 0, is_loose, node.is_thin(), node.is_unposted) {
        (true, true, _, _) => "leaf loose",
        (false, true, _, _) => "inner loose",
        (true, false, false, false) => "leaf",
        (true, false, true, false) => "leaf thin",
        (true, false, false, true) => "leaf unposted",
        (true, false, true, true) => "leaf thin unposted",
        (false, false, false, false) => "inner",
        (false, false, true, false) => "inner thin",
        (false, false, false, true) => "inner unposted",
        (false, false, true, true) => "inner thin unposted",
    }
}

/// The three lines in a page.
fn push_node_words(
    alloc: Global,
    out: &mut String,
    node: &Node,
    middle: Spot,
) -> Result<(), AllocError> {
    let page = node.page;
    let title = format!(in alloc; "page {page}")?;
    push_words(alloc, out, lower(middle, 13), "b m", title.as_str())?;
    let span = span_text(alloc, node)?;
    push_words(alloc, out, lower(middle, 27), "m", span.as_str())?;
    let count = node.count;
    let word = entries_word(node.level);
    let entries = format!(in alloc; "{count} {word}")?;
    push_words(alloc, out, lower(middle, 41), "m", entries.as_str())?;
    push_words(alloc, out, lower(middle, 57), "m r", marks_text(node))
}

/// The place that lies so far below.
fn lower(spot: Spot, by: u64) -> Spot {
    Spot {
        x: spot.x,
        y: spot.y.saturating_add(by),
    }
}

/// The link of a page: a line to the page that is drawn behind it, or a short one where that stands on another row.
fn push_link(
    alloc: Global,
    out: &mut String,
    sheet: &Sheet,
    at: Spot,
    right: u32,
) -> Result<(), AllocError> {
    let from = Spot {
        x: at.x.saturating_add(sheet.wide),
        y: at.y.saturating_add(HIGH / 2),
    };
    let to = Spot {
        x: from.x.saturating_add(GAP),
        y: from.y,
    };
    push_path(alloc, out, "link", from, to)?;
    let next = Spot { x: to.x, y: at.y };
    if spot_of(sheet, right as u64) == Some(next) {
        return Ok(());
    }
    let words = format!(in alloc; "{right}")?;
    let above = Spot {
        x: from.x.saturating_add(2),
        y: from.y.saturating_sub(5),
    };
    push_words(alloc, out, above, "r", words.as_str())
}

/// Writes the box of a page, what stands in it, and the arrow to the page to which it links.
fn push_node(
    alloc: Global,
    out: &mut String,
    sheet: &Sheet,
    node: &Node,
    is_loose: bool,
) -> Result<(), AllocError> {
    let Some(at) = spot_of(sheet, node.page as u64) else {
        return Ok(());
    };
    push_rect(alloc, out, class_of(node, is_loose), at, (sheet.wide, HIGH))?;
    let middle = Spot {
        x: at.x.saturating_add(sheet.wide / 2),
        y: at.y,
    };
    push_node_words(alloc, out, node, middle)?;
    if node.right != 0 {
        push_link(alloc, out, sheet, at, node.right)?;
    }
    Ok(())
}

/// A bar of a chart, with its numbers below and above.
fn push_bar(
    alloc: Global,
    out: &mut String,
    at: Spot,
    count: u64,
    pages: u64,
    most: u64,
) -> Result<(), AllocError> {
    let high = part_for(pages, most, CHART.saturating_sub(30));
    let floor = at.y.saturating_add(CHART.saturating_sub(14));
    let x = at.x.saturating_add(count.saturating_mul(STEP));
    let top = Spot {
        x,
        y: floor.saturating_sub(high),
    };
    push_rect(alloc, out, "bar", top, (STEP.saturating_sub(12), high))?;
    let middle = x.saturating_add(16);
    let below = Spot {
        x: middle,
        y: floor.saturating_add(13),
    };
    let number = format!(in alloc; "{count}")?;
    push_words(alloc, out, below, "m", number.as_str())?;
    let above = Spot {
        x: middle,
        y: top.y.saturating_sub(3),
    };
    let number = format!(in alloc; "{pages}")?;
    push_words(alloc, out, above, "m", number.as_str())
}

/// How full the pages of a level are.
fn push_chart(alloc: Global, out: &mut String, fill: &Fill, at: Spot) -> Result<(), AllocError> {
    let most = most_of(fill);
    let mut count = 0u64;
    for pages in fill {
        push_bar(alloc, out, at, count, *pages, most)?;
        count = count.saturating_add(1);
    }
    Ok(())
}

/// Writes a level: its heading, and then its pages, or a chart where they are too many.
fn push_level(
    alloc: Global,
    out: &mut String,
    sheet: &Sheet,
    level: &Level,
    y: u64,
) -> Result<(), AllocError> {
    let heading = Spot {
        x: EDGE,
        y: y.saturating_add(18),
    };
    let words = level_text(alloc, level)?;
    push_words(alloc, out, heading, "b", words.as_str())?;
    if level.is_wide() {
        let at = Spot {
            x: EDGE,
            y: y.saturating_add(34),
        };
        return push_chart(alloc, out, &fill_of(level), at);
    }
    for node in level.chain.as_slice() {
        push_node(alloc, out, sheet, node, false)?;
    }
    for node in level.loose.as_slice() {
        push_node(alloc, out, sheet, node, true)?;
    }
    Ok(())
}

/// The head of the picture: what the image has, or which rule it breaks.
fn push_head(
    alloc: Global,
    out: &mut String,
    tree: &Tree,
    broken: Option<(u32, u32)>,
) -> Result<(), AllocError> {
    let words = head_text(alloc, tree.count, used_in(tree.pages.as_slice()))?;
    push_words(alloc, out, Spot { x: EDGE, y: 24 }, "b", words.as_str())?;
    let dead = tree.dead.len();
    let unread = tree.unread.len();
    let at = Spot { x: EDGE, y: 42 };
    if let Some((rule, page)) = broken {
        let words = fault_text(alloc, rule, page)?;
        push_words(alloc, out, at, "b r", words.as_str())?;
        let behind = Spot { x: 140, y: 42 };
        let words = rule_text(alloc, rule_words(rule))?;
        push_words(alloc, out, behind, "r", words.as_str())?;
    }
    if dead > 0 || unread > 0 {
        let words = format!(in alloc; "{dead} dead pages, {unread} that cannot be read")?;
        push_words(alloc, out, lower(at, 16), "r", words.as_str())?;
    }
    Ok(())
}

/// All levels of a tree that is laid out.
fn push_levels(
    alloc: Global,
    out: &mut String,
    sheet: &Sheet,
    levels: &[Level],
) -> Result<(), AllocError> {
    for (level, y) in levels.iter().zip(sheet.headings.as_slice()) {
        push_level(alloc, out, sheet, level, *y)?;
    }
    Ok(())
}

/// The tree in the bytes of an image as SVG, and whether it is sound. A level of more than 64 pages is summed up.
pub fn svg_of(alloc: Global, bytes: &[u8]) -> Result<(String, bool), AllocError> {
    let broken = verdict(alloc, bytes)?;
    let tree = tree_in(alloc, bytes)?;
    let sheet = sheet_of(alloc, &tree, TOP)?;
    let width = sheet.width;
    let height = sheet.height;
    let mut out = format!(in alloc;
        "<svg xmlns=\"http://www.w3.org/2000/svg\" width=\"{width}\" height=\"{height}\">\n"
    )?;
    out.push_str(STYLE)?;
    push_all_children(alloc, &mut out, &sheet, tree.pages.as_slice())?;
    push_levels(alloc, &mut out, &sheet, tree.levels.as_slice())?;
    push_head(alloc, &mut out, &tree, broken)?;
    out.push_str("</svg>\n")?;
    Ok((out, broken.is_none()))
}
