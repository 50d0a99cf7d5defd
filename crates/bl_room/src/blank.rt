//! Pages that nobody uses.

ghost use Rattle.std.specs.Prelude.{◌≡◌};
ghost use Rattle.bl_room.specs.Blanks.{is_blank};

/// Whether a page has only zeros, and so may be taken.
pub fn is_all_zeros(words: &[u64; 32]) -> bool
    ensures { result ≡ is_blank words.now }
{
    words.iter().all(|word| *word == 0)
}
