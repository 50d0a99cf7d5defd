//! What stands in a world.

ghost use Rattle.std.specs.Prelude.{◌≡◌, ◌≤◌, length};

use crate::owners::Owner;
use crate::turns::Event;
use bl_page::Page;
use bl_proc::Proc;

/// Pages and their owners, processes in the order in which they were started, and the events so far.
#[derive(Drop)]
pub struct Lists {
    pub pages: Vec<Page>,
    pub owners: Vec<Owner>,
    pub processes: Vec<Proc>,
    pub events: Vec<Event>,
    ghost paired: { length owners.items ≡ length pages.items },
    ghost most: { length pages.items ≤ 65536 },
}
