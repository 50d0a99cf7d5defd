//! The laws that join the checker's rules to those of the tree. The functions do nothing when they run.

ghost use Rattle.std.specs.Prelude.{◌≡◌, ◌≤◌, ◌^◌, ℕ, List, Option, None};
ghost use Rattle.bl_model.specs.Rows.{map_of};
ghost use Rattle.bl_page.specs.declared.page.Page.{Page};
ghost use Rattle.bl_page.specs.Machine.{State};
ghost use Rattle.bl_image.specs.Images.{IsImage};
ghost use Rattle.bl_check.specs.Rules.{AreSound};
ghost use Rattle.bl_check.specs.Rows.{AreRowsOf};
ghost use Rattle.bl_check_laws.specs.Begins.{MayBegin, HasOneListOfRows, BeginsWithRows};
ghost use Rattle.bl_claims.specs.Opening.{IsOpened};

/// Says that an index may begin with the pages of a sound image.
pub fn may_begin()
    ensures { (pages : List (Option Page)) (bytes : List ℕ) → IsImage pages bytes → AreSound pages → MayBegin pages }
{}

/// Says that a sound image has one list of rows, and that its keys rise and are below 2^64.
pub fn has_rows()
    ensures one { (pages : List (Option Page)) (bytes : List ℕ) → IsImage pages bytes → AreSound pages
        → HasOneListOfRows pages }
    ensures keys { (pages : List (Option Page)) (bytes : List ℕ) (rows : List (ℕ × ℕ)) (key : ℕ)
        → IsImage pages bytes → AreSound pages → AreRowsOf pages rows → 2 ^ 64 ≤ key → map_of rows key ≡ None }
{}

/// Says that an index that is opened from a sound image begins with the map of the image's rows: that map is what its
/// leaves say, and with it live leaves agree, no two live pages of a level overlap, each level has its chain, children are
/// listed as they are, and the lone walk of each key finds its leaf.
pub fn begins_with_rows()
    ensures { (pages : List (Option Page)) (bytes : List ℕ) (rows : List (ℕ × ℕ)) (s : State Page)
        → IsImage pages bytes → AreSound pages → AreRowsOf pages rows → IsOpened pages s → BeginsWithRows s rows }
{}
