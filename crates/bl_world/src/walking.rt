//! The walk that a search would take if nothing changed meanwhile.

ghost use Rattle.std.specs.Prelude.{ℕ, ◌^◌};
ghost use Rattle.bl_world.specs.Views.{view_of};
ghost use Rattle.bl_world.specs.Worlds.{IsWorld};
ghost use Rattle.bl_world.specs.Lone.{HasWalk};

use crate::lists::Lists;
use bl_proc_routes::{Step, top_page, way_from};

impl Lists {
    /// The leaf at which the lone walk of the key ends, and how many pages it gets, page 0 included.
    pub fn walk(&self, key: u64) -> (u32, u32)
        requires { IsWorld (view_of self.now) }
        ensures { ∥ HasWalk (view_of self.now) key result.0 result.1 ∥₁ }
    {
        let mut page = top_page(&self.pages[0]);
        let mut gets = 1;
        for _turn in 0..self.pages.len() {
            gets += 1;
            match way_from(&self.pages[page as usize], key, 0) {
                Step::Right(next) => page = next,
                Step::Down(next) => page = next,
                Step::Here => return (page, gets),
                Step::Again => unreachable!(),
            }
        }
        unreachable!()
    }
}
