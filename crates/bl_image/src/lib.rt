//! Images of an index at rest: the bytes of its pages.
//!
//! Promised to the checker and to whoever opens an index from an image: each image has one spelling, which
//! `Image::write` and `Image::spell` write and `read` reads; other bytes are refused with the head or the least page that is wrong.
#![tactic(auto)]

mod fault;
mod head;
mod image;
mod in_array;
mod reading;
mod words;
mod writing;

pub use fault::{ImageFault, WriteFault};
pub use image::Image;
pub use in_array::image_length;
pub use reading::read;
