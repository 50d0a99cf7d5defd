//! Who writes at a leaf that it holds.

ghost use Rattle.std.specs.Prelude.{◌≡◌};
ghost use Rattle.bl_index_edit.specs.Writers.{left_reply, left_by};

use bl_model::KeyWrite;
use bl_proc::Hint;
use bl_proc_steps::{Level, Outcome, hint_of_thin};
use bl_proc_writes::{Noted, WriteReply};

/// What a write has left when it has opened its leaf.
#[derive(Clone, Copy)]
pub enum Left {
    /// The leaf lists this with the key, and has stayed as it is.
    Kept(Option<u64>),
    /// The leaf has been put, and this was noted of it.
    Changed(Noted),
    /// The leaf, which listed this with the key, was split: the upper half begins at that key.
    Split(Option<u64>, u64),
    /// There was no room.
    Refused,
}

impl Left {
    /// The same, by what was noted of a leaf that was to be put and what became of it.
    #[inline(always)]
    pub(crate) fn by(noted: Noted, outcome: Outcome) -> Left
        ensures { result ≡ left_by noted outcome }
    {
        match outcome {
            Outcome::Edited => Left::Changed(noted),
            Outcome::SplitAt(separator) => Left::Split(noted.there, separator),
            Outcome::Refused => Left::Refused,
        }
    }

    /// The reply of the write.
    #[inline(always)]
    pub fn reply(self) -> WriteReply
        ensures { result ≡ left_reply self }
    {
        let level = Level::new(1);
        match self {
            Left::Kept(there) => WriteReply::Done(there, None),
            Left::Changed(noted) => {
                let hint = match noted.thin {
                    Some(low) => Some(hint_of_thin(level, low)),
                    None => None,
                };
                WriteReply::Done(noted.there, hint)
            }
            Left::Split(there, separator) => {
                let hint = Hint::Post {
                    level,
                    key: separator,
                };
                WriteReply::Done(there, Some(hint))
            }
            Left::Refused => WriteReply::NoRoom,
        }
    }
}

/// Who writes at a leaf that it holds. There is a process that does so, of which there is no value.
pub trait Writer {
    ghost use Rattle.std.specs.Prelude.{◌≡◌, ℕ};
    ghost use Rattle.bl_model.specs.declared.deciding.KeyWrite.{KeyWrite as WriteIs};
    ghost use Rattle.bl_proc.specs.declared.kinds.Proc.{Proc};
    ghost use Rattle.bl_proc_writes.specs.declared.writing.WriteStage.{WriteStage};
    ghost use Rattle.bl_index_edit.specs.declared.writers.Left.{Left as LeftIs};
    ghost use Rattle.bl_index_edit.specs.Writers.{IsWriter};

    // What it writes there, and with which key.
    ghost key_of: { Self → ℕ };

    ghost write_of: { Self → WriteIs };

    // The process whose write has come so far.
    ghost staged: { Self → WriteStage → Proc };

    // The process that has opened its leaf and has left that.
    ghost opened: { Self → LeftIs → Proc };

    ghost writes: { (w : Self) → IsWriter (key_of w) (write_of w) (staged w) (opened w) };

    /// The key that it writes.
    fn key(&self) -> u64
        ensures { result ≡ key_of self.now };

    /// What it writes there.
    fn write(&self) -> KeyWrite
        ensures { result ≡ write_of self.now };
}
