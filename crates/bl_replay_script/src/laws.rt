//! The laws of the grammar. The function does nothing when it runs.

ghost use Rattle.std.specs.Prelude.{◌≡◌, ℕ, List, [], ◌++◌};
ghost use Rattle.bl_replay_script.specs.declared.command.Command.{Command as CommandSpec};
ghost use Rattle.bl_replay_script.specs.declared.command.Kinds.{Kinds as KindsSpec};
ghost use Rattle.bl_replay_script.specs.Scripts.{IsScript, IsBadAt};

/// Says that bytes are one script at most, and that a script has no bad line: neither among its first bytes, however many
/// were read, nor in the whole. So a line that is named as bad stands in no script.
pub fn has_one_reading()
    ensures one { (kinds : KindsSpec) (pages other : ℕ) (commands others : List CommandSpec) (bytes : List ℕ)
        → IsScript kinds pages commands bytes → IsScript kinds other others bytes
        → (other ≡ pages) × (others ≡ commands) }
    ensures none { (kinds : KindsSpec) (pages : ℕ) (commands : List CommandSpec) (bytes more : List ℕ) (number : ℕ)
        → IsScript kinds pages commands (bytes ++ more) → IsBadAt kinds bytes (more ≡ []) number → ⊥ }
{}
