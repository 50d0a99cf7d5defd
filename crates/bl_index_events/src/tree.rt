//! The pages of a tree that threads share.

ghost use Rattle.std.specs.Prelude.{◌≡◌};

use bl_index_rule::{PassState, Passes};
use bl_store::Store;

/// Pages of a tree that threads share, whose events all go by one rule. How many pages and passes there are stands beside them.
#[derive(Drop)]
pub struct Tree {
    pub store: Store<PassState, Passes>,
    pub pages: u32,
    pub passes: u32,
    pub ghost sized: { pages ≡ store.layout.pages },
    pub ghost shared: { passes ≡ store.layout.passes },
}
