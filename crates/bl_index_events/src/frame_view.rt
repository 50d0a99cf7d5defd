//! The words of a page that a hand has looked at.

use bl_index_rule::{PassState, Passes};
use bl_page::Words;
use bl_store::{Glance, Hand, Store};

/// A page that a hand of the store has looked at.
#[derive(Clone, Copy)]
pub struct FrameView<'a> {
    pub store: &'a Store<PassState, Passes>,
    pub glance: Glance,
}

impl Words for FrameView<'_> {
    ghost use Rattle.bl_store.specs.Hands.{read_words, ReadsFrom};
    ghost use Rattle.bl_store.specs.Owners.{IsHandOf};

    type Hand = Hand<PassState>;

    ghost shown = { λ source hand. read_words hand.seat };

    ghost Sees = { λ source hand. IsHandOf source.store.now hand × ReadsFrom hand.seat source.glance };

    ghost long = { λ source hand sees. sees.1.3 };

    #[inline(always)]
    fn word(&self, hand: &mut Hand<PassState>, used: &mut u32, place: usize) -> u64 {
        let mut glance = self.glance.having(*used);
        let word = self.store.word(hand, &mut glance, place);
        *used = glance.used();
        word
    }
}
