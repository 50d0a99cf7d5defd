//! What a server has counted at its end.

ghost use Rattle.std.specs.Prelude.{◌≡◌};

use bl_serve_lines::{Totals, Wrong};
use bl_serve_reading::{Malformed, ParsedLines, SectionEnd};
use bl_serve_worker::Slot;

/// What whoever runs a server is told beside its totals. These are tested, and in no clause.
#[derive(Clone, Copy, Debug, PartialEq, Eq)]
pub struct Remarks {
    /// The number of the first malformed line, where the first line of the input has 1, and what is wrong with it.
    pub first_malformed: Option<(u64, Wrong)>,
    /// How many requests found no room.
    pub norooms: u64,
    /// The most bytes of replies that were kept until a section ended.
    pub longest: usize,
}

/// What a server has counted at its end.
#[derive(Clone, Copy, Debug, PartialEq, Eq)]
pub struct Summary {
    pub totals: Totals,
    pub remarks: Remarks,
}

impl Remarks {
    /// Nothing was served yet.
    pub(crate) fn new() -> Remarks {
        Remarks {
            first_malformed: None,
            norooms: 0,
            longest: 0,
        }
    }

    /// Looks for the first malformed one of lines with that end that stand behind so many others. Bytes behind the last LF are one.
    pub(crate) fn look_at(&mut self, lines: &ParsedLines, end: SectionEnd, before: u64) {
        let last = if end == SectionEnd::Rest {
            Some(Malformed {
                place: lines.len(),
                wrong: Wrong::Open,
            })
        } else {
            None
        };
        if let (None, Some(line)) = (self.first_malformed, lines.first_malformed().or(last)) {
            let number = before.saturating_add(line.place as u64).saturating_add(1);
            self.first_malformed = Some((number, line.wrong));
        }
    }

    /// Measures so many bytes of replies, which were kept for one section.
    pub(crate) fn measure(&mut self, bytes: usize) {
        self.longest = self.longest.max(bytes);
    }
}

/// All that was counted, where so many bytes of replies were kept for the last section.
pub(crate) fn summed_up(totals: Totals, remarks: Remarks, slots: &[Slot], bytes: usize) -> Summary
    ensures { result.totals ≡ totals }
{
    let mut remarks = remarks;
    remarks.measure(bytes);
    for slot in slots {
        remarks.norooms = remarks.norooms.saturating_add(slot.norooms);
    }
    Summary { totals, remarks }
}
