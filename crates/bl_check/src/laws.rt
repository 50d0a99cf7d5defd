//! A law of the definitions.

ghost use Rattle.std.specs.Prelude.{List, Option};
ghost use Rattle.bl_page.specs.declared.page.Page.{Page};
ghost use Rattle.bl_check.specs.Rules.{NeverRound};

/// Says that no chain comes round: each `low` of a chain is greater than the one before, whatever the pages. It does
/// nothing when it runs.
pub fn chains_end()
    ensures { (pages : List (Option Page)) → NeverRound pages }
{}
