//! Writing an image.

ghost use Rattle.std.specs.Prelude.{◌≡◌, true, false, List, ℕ, length, flat_map, OnOk, OnErr};
ghost use Rattle.std.specs.List.{AllByRecursion};
ghost use Rattle.std.specs.Io.KnownBytes.{Appends};
ghost use Rattle.bl_model.specs.Stream.{StartsOut};
ghost use Rattle.bl_image.specs.Images.{IsCount, IsImage, Fits64, page_words, page_bytes, image_bytes};

use crate::fault::WriteFault;
use crate::head::head_of;
use crate::image::{Image, stored_of};
use crate::words::{bytes_of, words_of};
use bl_model::{Failed, Watched, write_text};
use bl_page::Page;
use std::io::Write;

/// Writes the bytes of each of these pages.
fn write_pages<W: Write>(writer: &mut Watched<W>, pages: &[Option<Page>]) -> Result<(), Failed>
    ensures ok { OnOk result (Appends (W.contents writer.old.inner) (W.contents writer.new.inner)
        (flat_map page_bytes pages.now)) }
    ensures fit { OnOk result (AllByRecursion (λ page. Fits64 (page_words page)) pages.now) }
    ensures err { OnErr result (StartsOut (W.contents writer.old.inner) (W.contents writer.new.inner)
        (flat_map page_bytes pages.now)) }
    ensures failed { OnErr result (writer.new.failed ≡ true) }
{
    for page in pages {
        write_text(writer, &bytes_of(&words_of(page)))?;
    }
    Ok(())
}

/// Writes the head and the pages that are stored, and flushes the writer.
fn write_image<W: Write>(writer: &mut Watched<W>, pages: &[Option<Page>]) -> Result<(), Failed>
    requires { IsCount (length pages.now) }
    ensures ok { OnOk result (Appends (W.contents writer.old.inner) (W.contents writer.new.inner)
        (image_bytes pages.now)) }
    ensures flushed { OnOk result (writer.new.pending ≡ false) }
    ensures fit { OnOk result (AllByRecursion (λ page. Fits64 (page_words page)) pages.now) }
    ensures err { OnErr result (StartsOut (W.contents writer.old.inner) (W.contents writer.new.inner)
        (image_bytes pages.now)) }
    ensures failed { OnErr result (writer.new.failed ≡ true) }
{
    let stored = stored_of(pages);
    write_text(writer, &head_of(pages.len() as u32, stored as u32))?;
    write_pages(writer, &pages[..stored])?;
    match writer.flush() {
        Ok(()) => Ok(()),
        Err(_) => Err(Failed),
    }
}

impl Image {
    /// Writes the bytes of the image, and flushes the writer. Takes no memory.
    ///
    /// The fault comes only where a call on the writer has failed. Then a beginning of the bytes is out.
    pub fn write<W: Write>(&self, writer: &mut Watched<W>) -> Result<(), WriteFault>
        // What is written is the image's one spelling.
        ensures ok { OnOk result ((bytes : List ℕ) × IsImage self.now.pages.items bytes
            × Appends (W.contents writer.old.inner) (W.contents writer.new.inner) bytes) }
        // The writer holds nothing back.
        ensures flushed { OnOk result (writer.new.pending ≡ false) }
        // A beginning of it after a fault.
        ensures beginning { OnErr result (StartsOut (W.contents writer.old.inner) (W.contents writer.new.inner)
            (image_bytes self.now.pages.items)) }
        ensures failed { OnErr result (writer.new.failed ≡ true) }
    {
        match write_image(writer, self.pages.as_slice()) {
            Ok(()) => Ok(()),
            Err(_) => Err(WriteFault),
        }
    }
}
