//! The command `draw`.

use crate::check::read_observed;
use crate::fault::CommandFault;
use crate::image_file::image_file;
use bl_draw::{svg_of, text_of};
use bl_model::{Watched, write_out};
use std::alloc::Global;
use std::fs;
use std::io::{Read, Write};
use std::rt::Files;

/// How a picture is printed.
#[derive(Clone, Copy, Debug, PartialEq, Eq)]
pub enum Form {
    /// For a terminal.
    Text,
    /// For a browser.
    Svg,
}

/// Draws the image that the reader gives, and writes the picture: whether the image is sound.
pub fn draw_image<R: Read, W: Write>(
    alloc: Global,
    reader: &mut Watched<R>,
    length: Option<u64>,
    form: Form,
    writer: &mut Watched<W>,
) -> Result<bool, CommandFault> {
    let bytes = read_observed(alloc, reader, length)?;
    let (picture, is_sound) = match form {
        Form::Text => text_of(alloc, bytes.as_slice())?,
        Form::Svg => svg_of(alloc, bytes.as_slice())?,
    };
    match write_out(writer, picture.as_bytes()) {
        Ok(()) => Ok(is_sound),
        Err(_) => Err(CommandFault::Write),
    }
}

/// Draws the image in a file. A missing file, a folder, and a file that is cut while it is read are failed reads.
pub fn draw_file<R: Files + AllocGlobal, W: Write>(
    rt: &R,
    path: &str,
    form: Form,
    writer: &mut Watched<W>,
) -> Result<bool, CommandFault> {
    let Ok(file) = fs::open(rt, path) else {
        return Err(CommandFault::Read);
    };
    let (mut bytes, length) = image_file(rt.alloc(), file)?;
    draw_image(rt.alloc(), &mut bytes, length, form, writer)
}
