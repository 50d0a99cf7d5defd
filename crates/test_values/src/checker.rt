//! A sound image, and images whose check meets refused memory. What the checker finds in damaged images stands in `test_worked_values`.

use crate::images::opening;
use bl_check::{Fault, Report, chains_end, check, sound};
use bl_image::{ImageFault, read};
use std::alloc::Global;
use std::test::Fail;

#[test]
fn a_sound_image_is_quiet(rt: HostRuntime) -> Result<(), Fail> {
    let image = read(rt.alloc(), &opening(&[])).ok().ok_or("no image")?;
    let quiet = sound(rt.alloc(), image).ok().ok_or("not sound")?;
    let pages = quiet.image().pages.as_slice();
    assert!(rt; matches!(pages, [Some(_), Some(_), None, None]));
    Ok(())
}

/// The opening image, in which page 2 is a leaf on no chain.
fn stray() -> [u8; 1056] {
    opening(&[(548, 2), (552, 100)])
}

#[test]
fn an_image_that_is_not_sound_comes_back(rt: HostRuntime) -> Result<(), Fail> {
    let image = read(rt.alloc(), &stray()).ok().ok_or("no image")?;
    let (back, fault) = sound(rt.alloc(), image).err().ok_or("sound")?;
    assert!(rt; fault == Fault::Rule { rule: 6, page: 2 } && back.pages.len() == 4);
    Ok(())
}

/// The check of these bytes finds this, or wants memory.
fn finds(alloc: Global, bytes: &[u8], wanted: Result<Report, Fault>) -> bool {
    let found = check(alloc, bytes);
    found == wanted || found == Err(Fault::Memory)
}

/// The opening image is sound, or it is not read or comes back for want of memory.
fn is_sound_or_wants_memory(alloc: Global) -> bool {
    match read(alloc, &opening(&[])) {
        Ok(image) => match sound(alloc, image) {
            Ok(quiet) => quiet.image().pages.len() == 4,
            Err((back, fault)) => fault == Fault::Memory && back.pages.len() == 4,
        },
        Err(fault) => fault == ImageFault::Memory,
    }
}

/// Holds whichever allocation is refused: the answer is Memory, or that of ample memory.
#[test]
fn memory_or_the_answer(rt: HostRuntime) {
    let ample = Report {
        rows: 0,
        leaves: 1,
        inners: 0,
        levels: 1,
        unposted: 0,
        thin: 0,
    };
    assert!(rt; finds(rt.alloc(), &opening(&[]), Ok(ample)));
    assert!(rt; finds(rt.alloc(), &stray(), Err(Fault::Rule { rule: 6, page: 2 })));
    assert!(rt; is_sound_or_wants_memory(rt.alloc()));
}

#[test]
fn the_law_of_chains_does_nothing() {
    chains_end();
}
