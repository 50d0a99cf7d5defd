//! The laws of the text. The function does nothing when it runs.

ghost use Rattle.std.specs.Prelude.{◌≡◌, ◌++◌, true, false, ℕ, List};
ghost use Rattle.bl_replay_script.specs.declared.command.Command.{Command as CommandSpec};
ghost use Rattle.bl_replay.specs.Pages.{AddsPages};
ghost use Rattle.bl_replay.specs.Plays.{PlaysOut};

/// Says that lines of pages are all that a text with pages has beside one without them: where a script prints a text, it may print the
/// other one for the same turns.
pub fn pages_are_added()
    ensures left_out { (pages : ℕ) (commands : List CommandSpec) (text : List ℕ) → PlaysOut true pages commands text
        → (plain : List ℕ) × PlaysOut false pages commands plain × AddsPages plain text }
    ensures added { (pages : ℕ) (commands : List CommandSpec) (plain : List ℕ) → PlaysOut false pages commands plain
        → (text : List ℕ) × PlaysOut true pages commands text × AddsPages plain text }
{}
