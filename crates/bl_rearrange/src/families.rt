//! A parent with two neighbouring children, as they are before their pairs move.

ghost use Rattle.std.specs.Prelude.{◌≡◌, ◌<◌, Some};
ghost use Rattle.bl_model.specs.Rows.{map_of};
ghost use Rattle.bl_page.specs.Pairs.{IsWithin, IsWithin-prop, IsChild, IsChild-prop};

use bl_page::Inner;

/// The numbers of a parent and of two neighbouring children.
#[derive(Clone, Copy)]
pub struct Siblings {
    pub parent: u32,
    pub left: u32,
    pub right: u32,
}

/// A parent, and two of its children that stand side by side.
#[derive(Drop)]
pub struct Family {
    /// The numbers of the three.
    pub at: Siblings,
    /// The parent.
    pub parent: Inner,
    /// The key by which it lists the right child.
    pub key: u64,
    ghost covers: { IsWithin parent.low parent.high key } by { IsWithin-prop parent.low parent.high key },
    ghost above: { parent.low < key },
    ghost lists: { map_of parent.children.items key ≡ Some at.right },
    ghost left_child: { IsChild at.left } by { IsChild-prop at.left },
    ghost right_child: { IsChild at.right } by { IsChild-prop at.right },
}
