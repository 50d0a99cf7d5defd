//! Where a server prints its replies, and where it keeps what was changed before it prints them.

ghost use Rattle.std.specs.Prelude.{◌≡◌, ◌↔◌, ◌⊎◌, ℕ, List, Option, true, false, OnOk, OnErr};
ghost use Rattle.std.specs.Io.KnownBytes.{Appends, Keeps};
ghost use Rattle.bl_model.specs.Stream.{StartsOut};
ghost use Rattle.bl_journal.specs.Logs.{IsLogOf};
ghost use Rattle.bl_journal.specs.Rows.{Leads};
ghost use Rattle.bl_outside.specs.Crashes.{FindsOnly, KeepsFirst};

use bl_changes::Changes;
use bl_model::{Failed, Watched, write_out};
use std::alloc::Global;
use std::io::Write;

/// Where a server prints its replies, and keeps what was changed before it prints them. Once a call has failed, nothing more is asked of it.
pub trait Outside {
    /// What was printed, as far as that can be told.
    ghost printed: { Self → Option (List ℕ) };

    /// A call has failed.
    ghost has_failed: { Self → Type 0 };

    /// Nothing that was printed is held back.
    ghost is_flushed: { Self → Type 0 };

    /// Whether the clauses on crashes speak of it. They do of one in memory; of the streams and files of a system no clause can say what they
    /// hold.
    ghost is_modelled: { Self → Type 0 };

    /// It has the log of that map, and each crash leaves it.
    ghost holds: { Self → (ℕ → Option ℕ) → Type 0 };

    /// How many moments have gone by.
    ghost moment: { Self → ℕ };

    /// What a crash at the moment of that number may find printed, and which log it may leave.
    ghost finds: { Self → ℕ → Option (List ℕ) → List ℕ → Type 0 };

    /// A crash now finds what was printed, and leaves the log that it has.
    ghost finds_now: { (o : Self) (m : ℕ → Option ℕ) (told : Option (List ℕ)) (left : List ℕ) → is_modelled o → holds o m → finds o (moment o) told left
        → Keeps (printed o) told × IsLogOf left m };

    /// Whether changes are kept.
    fn keeps(&self) -> bool
        ensures { is_modelled self.now → result ≡ true };

    /// Keeps that these rows came and those went.
    fn keep(
        &mut self,
        alloc: Global,
        came: &[(u64, u64)],
        went: &[(u64, u64)],
    ) -> Result<(), Failed>
        requires log { is_modelled self.old → (m : ℕ → Option ℕ) × holds self.old m }
        ensures printed { Keeps (printed self.old) (printed self.new) }
        ensures failed { OnErr result (has_failed self.new) }
        ensures modelled { is_modelled self.old ↔ is_modelled self.new }
        ensures kept { is_modelled self.old → (old new : ℕ → Option ℕ) → holds self.old old → Leads came.now went.now old new → OnOk result (holds self.new new) }
        ensures any_moment { is_modelled self.old → (old new : ℕ → Option ℕ) → holds self.old old → Leads came.now went.now old new
            → FindsOnly moment finds self.old self.new (λ told left. Keeps (printed self.old) told × (IsLogOf left old ⊎ IsLogOf left new)) };

    /// Prints the whole text, and holds none of it back. Where that fails, a beginning of it is out.
    fn print(&mut self, text: &[u8]) -> Result<(), Failed>
        ensures ok { OnOk result (Appends (printed self.old) (printed self.new) text.now) }
        ensures flushed { OnOk result (is_flushed self.new) }
        ensures err { OnErr result (StartsOut (printed self.old) (printed self.new) text.now) }
        ensures failed { OnErr result (has_failed self.new) }
        ensures modelled { is_modelled self.old ↔ is_modelled self.new }
        ensures kept { is_modelled self.old → (m : ℕ → Option ℕ) → holds self.old m → OnOk result (holds self.new m) }
        ensures any_moment { is_modelled self.old → (m : ℕ → Option ℕ) → holds self.old m
            → FindsOnly moment finds self.old self.new (λ told left. StartsOut (printed self.old) told text.now × IsLogOf left m) };
}

/// A writer keeps no log.
impl<W: Write> Outside for Watched<W> {
    ghost printed = { λ writer. W.contents writer.inner };

    ghost has_failed = { λ writer. writer.failed ≡ true };

    ghost is_flushed = { λ writer. writer.pending ≡ false };

    ghost is_modelled = { λ writer. ⊥ };

    ghost holds = { λ writer m. ⊥ };

    ghost moment = { λ writer. 0 };

    ghost finds = { λ writer t told left. ⊥ };

    ghost finds_now = { λ writer m told left modelled. absurd modelled };

    fn keeps(&self) -> bool {
        false
    }

    fn keep(
        &mut self,
        _alloc: Global,
        _came: &[(u64, u64)],
        _went: &[(u64, u64)],
    ) -> Result<(), Failed> {
        Ok(())
    }

    fn print(&mut self, text: &[u8]) -> Result<(), Failed> {
        write_out(self, text)
    }
}

/// Keeps what was changed, and then prints a text. Where one of these fails, a beginning of the text is out.
pub fn keep_and_print<O: Outside>(
    outside: &mut O,
    alloc: Global,
    changes: &Changes,
    text: &[u8],
) -> Result<(), Failed>
    requires log { O.is_modelled outside.old → (m : ℕ → Option ℕ) × O.holds outside.old m }
    ensures ok { OnOk result (Appends (O.printed outside.old) (O.printed outside.new) text.now) }
    ensures flushed { OnOk result (O.is_flushed outside.new) }
    ensures err { OnErr result (StartsOut (O.printed outside.old) (O.printed outside.new) text.now) }
    ensures failed { OnErr result (O.has_failed outside.new) }
    ensures modelled { O.is_modelled outside.old ↔ O.is_modelled outside.new }
    ensures kept { O.is_modelled outside.old → (old new : ℕ → Option ℕ) → O.holds outside.old old
        → Leads changes.now.came.items changes.now.went.items old new → OnOk result (O.holds outside.new new) }
    // A crash at any moment of the call finds no text that its log does not account for.
    ensures any_moment { O.is_modelled outside.old → (old new : ℕ → Option ℕ) → O.holds outside.old old
        → Leads changes.now.came.items changes.now.went.items old new
        → FindsOnly O.moment O.finds outside.old outside.new (KeepsFirst (O.printed outside.old) text.now old new) }
{
    outside.keep(alloc, changes.came.as_slice(), changes.went.as_slice())?;
    outside.print(text)
}
