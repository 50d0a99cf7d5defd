//! What a server begins with.

use bl_check::Quiet;

/// What the index of a server begins with.
#[derive(Drop)]
pub enum Origin {
    /// No rows, in so many pages: 4 to 2^28.
    Empty(u32),
    /// The pages of a sound image, and so its rows.
    Image(Quiet),
}
