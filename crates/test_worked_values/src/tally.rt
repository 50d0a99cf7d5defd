//! How many calls were answered as they should.

/// How many lines have answers, and how many of these were right.
#[derive(Clone, Copy, Debug, PartialEq, Eq)]
pub struct Tally {
    pub lines: u64,
    pub right: u64,
}

/// The call of a line, and the answer that it is to have. None where the line is a comment.
pub fn call_of(line: &str) -> Option<(&str, &str)> {
    line.split_once(" = ")
}

impl Tally {
    /// Nothing was asked.
    pub fn new() -> Tally {
        Tally { lines: 0, right: 0 }
    }

    /// With one answer more.
    pub fn with(self, is_right: bool) -> Tally {
        Tally {
            lines: self.lines.saturating_add(1),
            right: self.right.saturating_add(u64::from(is_right)),
        }
    }
}
