//! The file of a log.

ghost use Rattle.std.specs.Prelude.{◌≡◌, ℕ, List, ◌++◌, length, replicate, IfOk, OnOk};
ghost use Rattle.bl_journal.specs.Files.{AreZeros, Fills, Goes, IsFilled, Keeps, Only, Replaces};

use std::alloc::Global;

/// Why a call on the file failed. Nothing more is to be asked of it then.
#[derive(Clone, Copy, Debug, PartialEq, Eq)]
pub enum DeviceFault {
    /// There was no memory for what was read.
    Memory,
    /// The system has refused a call.
    Refused,
}

/// A file that is read as a whole, replaced as a whole, and written to where it has zeros.
pub trait Device {
    /// Whether the clauses below speak of it. They do of a file in memory; of a file of a system no clause can say what it holds.
    ghost is_modelled: { Self → Type 0 };

    /// The bytes that a read gives: none where there is no file yet.
    ghost seen: { Self → List ℕ };

    /// How many moments have gone by.
    ghost moment: { Self → ℕ };

    /// What a crash at the moment of that number may leave.
    ghost leaves: { Self → ℕ → List ℕ → Type 0 };

    /// All the bytes.
    fn read(&mut self, alloc: Global) -> Result<Vec<u8>, DeviceFault>
        ensures same { is_modelled self.old → is_modelled self.new }
        ensures read { is_modelled self.old → IfOk result (λ bytes. bytes.items ≡ seen self.old) }
        ensures seen { is_modelled self.old → seen self.new ≡ seen self.old }
        ensures crash { is_modelled self.old → Goes (moment self.old) (moment self.new) (leaves self.old) (leaves self.new) Keeps };

    /// Puts a new file with these bytes and so many zeros in the place of the one that is there, as a whole. Once this has answered Ok, a
    /// crash leaves the new one.
    fn replace(&mut self, bytes: &[u8], zeros: usize) -> Result<(), DeviceFault>
        ensures same { is_modelled self.old → is_modelled self.new }
        ensures replaced { is_modelled self.old → OnOk result (seen self.new ≡ bytes.now ++ replicate zeros 0) }
        ensures durable { is_modelled self.old → OnOk result (Only (bytes.now ++ replicate zeros 0) (leaves self.new (moment self.new))) }
        ensures crash { is_modelled self.old → Goes (moment self.old) (moment self.new) (leaves self.old) (leaves self.new)
            (Replaces (bytes.now ++ replicate zeros 0)) };

    /// Writes over zeros. Until a sync a crash may leave of each byte a zero still.
    fn fill(&mut self, at: usize, bytes: &[u8]) -> Result<(), DeviceFault>
        requires zeros { is_modelled self.old → AreZeros (seen self.old) at (length bytes.now) }
        ensures same { is_modelled self.old → is_modelled self.new }
        ensures filled { is_modelled self.old → OnOk result (IsFilled (seen self.old) at bytes.now (seen self.new)) }
        ensures crash { is_modelled self.old → Goes (moment self.old) (moment self.new) (leaves self.old) (leaves self.new) (Fills at bytes.now) };

    /// Once this has answered Ok, a crash leaves what a read gives.
    fn sync(&mut self) -> Result<(), DeviceFault>
        ensures same { is_modelled self.old → is_modelled self.new }
        ensures seen { is_modelled self.old → seen self.new ≡ seen self.old }
        ensures durable { is_modelled self.old → OnOk result (Only (seen self.old) (leaves self.new (moment self.new))) }
        ensures crash { is_modelled self.old → Goes (moment self.old) (moment self.new) (leaves self.old) (leaves self.new) Keeps };
}
