//! Who posts at a parent that it holds.

/// Who posts at a parent that it holds. There is a process that does so, of which there is no value.
pub trait Poster {
    ghost use Rattle.std.specs.Prelude.{◌≡◌, ℕ};
    ghost use Rattle.bl_index_edit.specs.Posters.{IsPoster, Opened, Staged};

    // The level of the parent, and the key that it is to list.
    ghost level_of: { Self → ℕ };

    ghost key_of: { Self → ℕ };

    // The process whose post has come so far.
    ghost staged: { (p : Self) → Staged (level_of p) };

    // The process that has opened its parent, by what the post replies.
    ghost opened: { (p : Self) → Opened (level_of p) };

    ghost posts: { (p : Self) → IsPoster (level_of p) (key_of p) (staged p) (opened p) };

    /// The level of the parent. Its children are of the one below, by which a walk knows its child.
    fn level(&self) -> u32
        ensures { result ≡ level_of self.now };

    /// The least key of the child that is to be listed.
    fn key(&self) -> u64
        ensures { result ≡ key_of self.now };
}
