//! An index is closed: all its passes come back, and what its pages hold is a sound image.

ghost use Rattle.std.specs.Prelude.{◌≡◌, ℕ, ◌<◌, ◌≤◌, true, false, [], length, vec_capacity, All, IfOk, IfErr};
ghost use Rattle.bl_store.specs.Closing.{HasEach};
ghost use Rattle.bl_index.specs.Calls.{pages_of, passes_of};
ghost use Rattle.bl_index.specs.Closed.{HasPass, HasCapacity, AreHandsOf};

use crate::config::CloseFault;
use crate::index::{Index, Pass};
use bl_check::Quiet;
use bl_image::Image;
use bl_index_rule::PassState;
use bl_page::Page;
use bl_store::Hand;
use std::alloc::{AllocError, Global};

/// The memory that a close fills.
#[derive(Drop)]
pub struct CloseRoom {
    words: Vec<[u64; 32]>,
    pages: Vec<Option<Page>>,
}

impl CloseRoom {
    /// Room for so many pages.
    fn of(alloc: Global, pages: usize) -> Result<CloseRoom, AllocError>
        ensures { IfOk result (HasCapacity pages) }
    {
        Ok(CloseRoom {
            words: Vec::with_capacity(alloc, pages)?,
            pages: Vec::with_capacity(alloc, pages)?,
        })
    }
}

/// Whether one of the passes has that number.
fn has_pass(passes: &[Pass], number: u32) -> bool
    ensures yes { result ≡ true → HasPass passes.now number }
    ensures no { result ≡ false → ¬ HasPass passes.now number }
{
    for pass in passes {
        if pass.hand.number() == number {
            return true;
        }
    }
    false
}

/// Whether there is a pass of each of the first so many numbers.
fn has_all(passes: &[Pass], count: u32) -> bool
    ensures yes { result ≡ true → (n : ℕ) → n < count → HasPass passes.now n }
    ensures no { result ≡ false → (n : ℕ) × (n < count) × ¬ HasPass passes.now n }
{
    for number in 0..count {
        if !has_pass(passes, number) {
            return false;
        }
    }
    true
}

/// The hands of the passes.
fn hands_of(mut passes: Vec<Pass>, mut room: Vec<Hand<PassState>>) -> Vec<Hand<PassState>>
    requires { (room.items ≡ []) × (length passes.items ≤ vec_capacity room) }
    ensures { AreHandsOf passes.items result.items }
{
    while let Some(pass) = passes.pop() {
        room.push_reserved(pass.hand);
    }
    room
}

impl Index {
    ghost use Rattle.bl_index.specs.Closed.{AreOf, AreAll, Closes, IsRefused, IsIdleOf, ClosesHands};

    /// Closes the index: the image of its pages, which is sound, and whose rows are the map after all that has happened. It
    /// takes all passes. Where one is missing, or there is no memory, the index and the passes come back as they were.
    pub fn close(
        self,
        alloc: Global,
        passes: Vec<Pass>,
    ) -> Result<Quiet, (Index, Vec<Pass>, CloseFault)>
        requires own { AreOf self passes.items }
        ensures ok { IfOk result (λ quiet. Closes self passes.items quiet.image.pages.items) }
        ensures fault { IfErr result (λ t. IsRefused self passes.items t.0 t.1.items t.2) }
    {
        if !has_all(passes.as_slice(), self.tree.passes) {
            return Err((self, passes, CloseFault::Pass));
        }
        let Ok(room) = self.close_room(alloc) else {
            return Err((self, passes, CloseFault::Memory));
        };
        match Vec::with_capacity(alloc, passes.len()) {
            Ok(hands) => Ok(self.close_hands(hands_of(passes, hands), room)),
            Err(_) => Err((self, passes, CloseFault::Memory)),
        }
    }

    /// The memory that a close of this index fills, for one who gives nothing away before he has it.
    pub fn close_room(&self, alloc: Global) -> Result<CloseRoom, AllocError>
        ensures { IfOk result (HasCapacity (pages_of self.now)) }
    {
        CloseRoom::of(alloc, self.tree.pages as usize)
    }

    /// Closes the index by all its hands, each outside a process, in room that was taken for it. It cannot fail.
    pub fn close_hands(self, hands: Vec<Hand<PassState>>, room: CloseRoom) -> Quiet
        requires own { All (IsIdleOf self) hands.items }
        requires all { HasEach (passes_of self) hands.items }
        requires room { HasCapacity (pages_of self) room }
        ensures { ClosesHands self hands.items result.image.pages.items }
    {
        let CloseRoom { words, pages } = room;
        let words = self.tree.store.close(hands, words);
        let image = Image::from_words(words.as_slice(), pages);
        Quiet::new(image)
    }
}
