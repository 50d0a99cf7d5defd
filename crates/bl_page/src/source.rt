//! Words of a page that are read one at a time, wherever they stand.

ghost use Rattle.std.specs.Prelude.{◌≡◌, ◌+◌, ◌<◌, slice_index};

/// What 32 words of a page are read from.
pub trait Words {
    ghost use Rattle.std.specs.Prelude.{ℕ, ◌+◌, List, length, slice_index};

    /// Who reads them.
    type Hand;

    // The words, as that hand sees them.
    ghost shown: { Self → Self.Hand → List ℕ };

    // Whether that hand may read them.
    ghost Sees: { Self → Self.Hand → Type 0 };

    ghost long: { (source : Self) (hand : Self.Hand) → Sees source hand → length (shown source hand) ≡ 32 };

    /// The word at a place. It is counted among the words that were read.
    fn word(&self, hand: &mut Self::Hand, used: &mut u32, place: usize) -> u64
        requires sees { Sees self.now hand.old }
        requires place { place < 32 }
        requires room { used.old < 4294967295 }
        ensures same { hand.new ≡ hand.old }
        ensures counted { used.new ≡ used.old + 1 }
        ensures word { result ≡ slice_index (shown self.now hand.old) place };
}

impl Words for [u64; 32] {
    ghost use Rattle.std.specs.Prelude.{length};

    type Hand = ();

    ghost shown = { λ words hand. words };

    ghost Sees = { λ words hand. length words ≡ 32 };

    ghost long = { λ words hand sees. sees };

    fn word(&self, _hand: &mut (), used: &mut u32, place: usize) -> u64 {
        *used += 1;
        self[place]
    }
}

/// The word at a place, for those that do not count.
#[inline(always)]
pub fn word<W: Words>(source: &W, hand: &mut W::Hand, place: usize) -> u64
    requires sees { W.Sees source.now hand.old }
    requires place { place < 32 }
    ensures same { hand.new ≡ hand.old }
    ensures word { result ≡ slice_index (W.shown source.now hand.old) place }
{
    let mut used = 0;
    source.word(hand, &mut used, place)
}

/// All the words.
pub fn words_from<W: Words>(source: &W, hand: &mut W::Hand) -> [u64; 32]
    requires sees { W.Sees source.now hand.old }
    ensures same { hand.new ≡ hand.old }
    ensures words { result ≡ W.shown source.now hand.old }
{
    let mut words = [0; 32];
    for place in 0..32 {
        words[place] = word(source, hand, place);
    }
    words
}
