//! Pictures of images.

use crate::checking::{Byte, split};
use bl_cli_commands::{CommandFault, Form, draw_image};
use bl_model::Watched;
use std::alloc::Global;
use std::test::Fail;

const HEAD: &str = "a page: number [its least key, its bound) entries; > is its link\n";

/// How `draw` ends on the small tree of `check`'s tests with those changes, and what it writes.
fn drawn(alloc: Global, changes: &[Byte], form: Form) -> (Result<bool, CommandFault>, Vec<u8>) {
    let mut writer = Watched::new(Vec::new(alloc));
    let bytes = split(changes);
    let mut reader = Watched::new(bytes.as_slice());
    let sound = draw_image(alloc, &mut reader, Some(2080), form, &mut writer);
    (sound, writer.into_inner())
}

/// Whether the picture is that head, the line on how pages are told, and those lines.
fn is_drawn(alloc: Global, changes: &[Byte], lines: &str, is_sound: bool) -> Result<bool, Fail> {
    let (sound, written) = drawn(alloc, changes, Form::Text);
    let wanted = format!(in alloc; "8 pages, 4 in use\n{HEAD}{lines}")?;
    Ok(sound == Ok(is_sound) && written.as_slice() == wanted.as_bytes())
}

// The sound image, and two damages: page 2's link leads back to page 1; no inner page lists page 2.
#[test]
fn pictures_of_a_small_tree(rt: HostRuntime) -> Result<(), Fail> {
    let cases: [(&[Byte], &str, bool); 3] = [
        (
            &[],
            "level 1: 1 page, 2 children\n    3 [0, ..) 2\nlevel 0: 2 pages, 15 rows\n    1 [0, 9) 8 > 2 [9, ..) 7\n",
            true,
        ),
        (
            &[(568, 1)],
            "level 1: 1 page, 2 children\n    3 [0, ..) 2\nlevel 0: 2 pages, 15 rows\n    1 [0, 9) 8 > 2 [9, ..) 7 > page 1, which is not next on this level\nfault C5 page 2\n    the rule: each link leads to the page that begins where this one ends\n",
            false,
        ),
        (
            &[(800, 1), (848, 0), (856, 0)],
            "level 1: 1 page, 1 children\n    3 [0, ..) 1\nlevel 0: 2 pages, 15 rows\n    1 [0, 9) 8 > 2 [9, ..) 7 unposted\n",
            true,
        ),
    ];
    for (changes, lines, is_sound) in cases {
        assert!(rt; is_drawn(rt.alloc(), changes, lines, is_sound)?, "{lines}");
    }
    Ok(())
}

#[test]
fn pictures_for_a_browser(rt: HostRuntime) {
    let (sound, written) = drawn(rt.alloc(), &[], Form::Svg);
    let text = written.as_slice();
    assert!(rt; sound == Ok(true) && text.starts_with(b"<svg ") && text.ends_with(b"</svg>\n"));
}
