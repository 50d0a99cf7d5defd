//! Whether keys rise.

ghost use Rattle.std.specs.Prelude.{MatchOption};
ghost use Rattle.bl_model.specs.Rows.{HasRisingKeys};
ghost use Rattle.bl_load.specs.Loads.{FallsFirstAt};

/// The place of the first row whose key is not above the one before it.
pub(crate) fn first_fall(rows: &[(u64, u64)]) -> Option<usize>
    ensures { MatchOption result (HasRisingKeys rows.now) (FallsFirstAt rows.now) }
{
    for i in 1..rows.len() {
        if rows[i].0 <= rows[i - 1].0 {
            return Some(i);
        }
    }
    None
}
