//! How full the pages of a level are.

use crate::node::Node;
use crate::tree::Level;

/// How many pages have so many entries: 0 to 14.
pub(crate) type Fill = [u64; 15];

/// Counts the pages by how many entries they have.
fn add(fill: &mut Fill, nodes: &[Node]) {
    for node in nodes {
        if node.count < 15 {
            fill[node.count] = fill[node.count].saturating_add(1);
        }
    }
}

/// How full the pages of the level are.
pub(crate) fn fill_of(level: &Level) -> Fill {
    let mut fill = [0; 15];
    add(&mut fill, level.chain.as_slice());
    add(&mut fill, level.loose.as_slice());
    fill
}

/// The most pages with one number of entries, and at least 1.
pub(crate) fn most_of(fill: &Fill) -> u64 {
    let mut most = 1;
    for pages in fill {
        if *pages > most {
            most = *pages;
        }
    }
    most
}

/// The part of `whole` for so many pages, where the most have all of it; at least 1 for any page.
pub(crate) fn part_for(pages: u64, most: u64, whole: u64) -> u64 {
    if pages == 0 || most == 0 {
        return 0;
    }
    (pages.saturating_mul(whole) / most).max(1)
}
