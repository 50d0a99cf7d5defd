//! Rows and images: the rows of a sound image, and an image of rows.
//!
//! Promised to the commands `rows` and `load` and to `Map::load`: `rows_of` gives the rows of a sound image by rising keys,
//! and `image_of` gives a sound image that has exactly the given rows, whose pages are as full as is asked for, or says why
//! there is none.
#![tactic(auto)]

mod building;
mod fault;
mod image;
mod leaves;
mod making;
mod order;
mod size;

pub use fault::LoadFault;
pub use image::image_of;
pub use leaves::rows_of;
