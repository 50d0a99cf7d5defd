//! The walk of a post to the child that is to be listed.

ghost use Rattle.std.specs.Prelude.{◌≡◌, None};
ghost use Rattle.bl_model.specs.Rows.{map_of};
ghost use Rattle.bl_page.specs.Pairs.{IsWithin, IsWithin-prop, IsChild, IsChild-prop};

use bl_page::Inner;

/// The walk to the child that covers a key, from a parent that is held and does not list it.
#[derive(Drop)]
pub struct Walk {
    /// The number of the parent.
    pub at: u32,
    pub key: u64,
    /// The parent.
    pub parent: Inner,
    /// The page that is to be got next.
    pub child: u32,
    ghost covers: { IsWithin parent.low parent.high key } by { IsWithin-prop parent.low parent.high key },
    ghost unlisted: { map_of parent.children.items key ≡ None },
    ghost names: { IsChild child } by { IsChild-prop child },
}
