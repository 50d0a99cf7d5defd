//! The queue, and what is put into it and taken out.

ghost use Rattle.std.specs.Prelude.{◌≡◌, true, is_some};
ghost use Rattle.std.specs.List.{list_all};

use arrayvec::ArrayVec;
use bl_answers::Hint;

/// The hints that wait, the oldest first. Where all places are taken, a further one is dropped: a page that no parent lists is reached by
/// the link of the page to its left, and a page with few rows is in nobody's way.
#[derive(Drop)]
pub struct Waiting {
    hints: ArrayVec<Option<Hint>, 32>,
    /// How many were dropped.
    pub dropped: u64,
    ghost real: { list_all is_some hints.items ≡ true },
}

impl Waiting {
    ghost use Rattle.std.specs.Prelude.{◌==◌, ◌↔◌, [], length};
    ghost use Rattle.bl_waiting.specs.Queue.{hints_of, IsNone, IsKept, IsTaken};

    /// No hint waits.
    pub fn new() -> Waiting
        ensures { IsNone result }
    {
        Waiting {
            hints: ArrayVec::new(),
            dropped: 0,
        }
    }

    /// How many hints wait.
    pub fn len(&self) -> u32
        ensures { result ≡ length (hints_of self.now) }
    {
        self.hints.len() as u32
    }

    /// Whether none waits.
    pub fn is_empty(&self) -> bool
        ensures { result ≡ true ↔ hints_of self.now ≡ [] }
    {
        self.hints.is_empty()
    }

    /// Whether all places are taken.
    pub fn is_full(&self) -> bool
        ensures { result ≡ (length (hints_of self.now) == 32) }
    {
        self.hints.is_full()
    }

    /// The hint that is left, if there is one, waits behind the others.
    pub fn keep(&mut self, left: Option<Hint>)
        ensures { IsKept left self.old self.new }
    {
        let Some(hint) = left else {
            return;
        };
        if self.hints.is_full() {
            self.dropped = self.dropped.saturating_add(1);
        } else {
            self.hints.push(Some(hint));
        }
    }

    /// Takes the oldest hint away, if one waits.
    pub fn take(&mut self) -> Option<Hint>
        ensures { IsTaken result self.old self.new }
    {
        if self.is_empty() {
            return None;
        }
        self.hints.remove(0)
    }
}
