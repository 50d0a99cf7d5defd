//! Where a key stands in the words of a leaf.

ghost use Rattle.std.specs.Prelude.{◌≡◌, ◌≤◌};
ghost use Rattle.bl_model.specs.Rows.{map_of};
ghost use Rattle.bl_page.specs.Faults.{HasPairs, pairs_of};
ghost use Rattle.bl_page.specs.Pairs.{place as place_among};

use bl_page::{KEY_BEFORE, WORD_BEFORE, Words, word};

/// What a leaf lists with the key, so many of whose keys are not above it.
#[inline(always)]
pub(crate) fn listed_at<W: Words>(
    source: &W,
    hand: &mut W::Hand,
    place: usize,
    key: u64,
) -> Option<u64>
    requires sees { W.Sees source.now hand.old }
    requires pairs { HasPairs (W.shown source.now hand.old) }
    requires place { place ≡ place_among key (pairs_of (W.shown source.now hand.old)) }
    requires within { place ≤ 14 }
    ensures same { hand.new ≡ hand.old }
    ensures listed { result ≡ map_of (pairs_of (W.shown source.now hand.old)) key }
{
    if place > 0 && word(source, hand, KEY_BEFORE + 2 * place) == key {
        Some(word(source, hand, WORD_BEFORE + 2 * place))
    } else {
        None
    }
}
