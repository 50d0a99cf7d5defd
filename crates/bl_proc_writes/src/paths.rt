//! The pages by which a process has come down.

ghost use Rattle.std.specs.Prelude.{◌≡◌, ◌<◌, ◌≤◌};
ghost use Rattle.bl_proc_steps.specs.declared.acts.Seen.TheVariants as seen;
ghost use Rattle.bl_proc_steps.specs.declared.approach.Approach.TheVariants as approach;
ghost use Rattle.bl_proc_writes.specs.Paths.{page_at, noted, from_page, blank, IsBlank, Notes};

use bl_page::Page;
use bl_proc_routes::{Step, level_of, way_from};
use bl_proc_steps::{Approach, Seen};

/// The page from which a process last went down, for each level above the leaves.
#[derive(Drop)]
pub struct Path {
    /// From level 1 on. 0 stands for none: nobody goes down from the anchor.
    pub pages: [u32; 11],
}

impl Path {
    /// A path with no page noted.
    pub fn new() -> Path
        ensures path { result ≡ blank }
        ensures none { IsBlank result }
    {
        Path { pages: [0; 11] }
    }

    /// The page that is noted for that level, 0 for none.
    pub fn page(&self, level: u32) -> u32
        requires least { 0 < level }
        requires most { level ≤ 12 }
        ensures { result ≡ page_at self.now level }
    {
        if level == 12 {
            0
        } else {
            self.pages[level as usize - 1]
        }
    }

    /// Notes the page for that level.
    pub fn note(&mut self, level: u32, page: u32)
        requires least { 0 < level }
        requires most { level < 12 }
        ensures { self.new ≡ noted level page self.old }
    {
        self.pages[level as usize - 1] = page;
    }

    /// Where a writer of that level is to begin, by what is noted.
    pub fn way(&self, level: u32) -> Approach
        requires least { 0 < level }
        requires most { level ≤ 12 }
        ensures { result ≡ from_page (page_at self.now level) }
    {
        let page = self.page(level);
        if page == 0 {
            Approach::Start
        } else {
            Approach::Latching(page)
        }
    }

    /// Notes the page that was got, if the way to that level and key goes down from it.
    fn note_down(&mut self, level: u32, key: u64, at: u32, page: &Page)
        ensures { Notes level key (approach.At at) (seen.Words page.now) self.old self.new }
    {
        match way_from(page, key, level) {
            Step::Down(_) => self.note(level_of(page), at),
            Step::Again | Step::Right(_) | Step::Here => {}
        }
    }

    /// Notes the page from which the way to that level and key goes down, if it does, by what was seen on it.
    pub fn note_way(&mut self, level: u32, key: u64, approach: Approach, seen: &Seen)
        ensures { Notes level key approach seen.now self.old self.new }
    {
        if let Approach::At(at) = approach {
            if let Seen::Words(page) = seen {
                self.note_down(level, key, at, page);
            }
        }
    }
}
