//! Places of keys among pairs, and which pages words may name. Other pages and their words stand in `test_worked_values`.

use bl_page::{
    KIND_UNIT, from_wide_words, from_words, from_words_below, is_within, listed_with, place_of,
};

#[test]
fn places_and_rows(rt: HostRuntime) {
    let pairs = [(3, 30), (5, 50)];
    let places = [
        place_of(&pairs, 2),
        place_of(&pairs, 3),
        place_of(&pairs, 9),
    ];
    assert!(rt; places == [0, 1, 2]);
    assert!(rt; listed_with(&pairs, 5) == Some(50) && listed_with(&pairs, 4).is_none());
    assert!(rt; is_within(3, 9, 3) && !is_within(3, 9, 9) && is_within(3, 0, 9));
}

/// The words of a leaf without rows from key 0 to below key 9, which links to a page.
fn leaf_that_links(right: u64) -> [u64; 32] {
    let mut words = [0; 32];
    words[0] = 2 * KIND_UNIT;
    words[2] = 9;
    words[3] = right;
    words
}

#[test]
fn words_of_version_1_name_no_page_from_65_536_on(rt: HostRuntime) {
    assert!(rt; from_words(&leaf_that_links(65_535)).is_ok());
    assert!(rt; from_words(&leaf_that_links(65_536)).is_err());
    assert!(rt; from_words_below(&leaf_that_links(65_536), 65_537).is_ok());
    assert!(rt; from_wide_words(&leaf_that_links(4_294_967_295)).is_ok());
    assert!(rt; from_wide_words(&leaf_that_links(4_294_967_296)).is_err());
}
