//! Leaves that are read one after another, at one moment of the map.
//!
//! Each leaf is read at a moment of its own. But what was read of a leaf that nobody has put since is what the map has at any later moment up
//! to the next put; so where none of several leaves was put up to the last look at them, what was read of all of them is the map's at one
//! moment. Whether a page was put is told by how often: a page's word that names the same frame names the same put of it, as long as
//! nothing is given back that was swapped out since the first look.
//!
//! Promised to `bl_index_rule`, whose passes are told how often a page was put: [`law`], and that every moment of good worlds has the two
//! facts on which it rests. The crate has no other code.
#![tactic(auto)]

ghost use Rattle.std.specs.Prelude.{◌≡◌, ◌++◌, ℕ, List, [], ◌∷◌};
ghost use Rattle.bl_model.specs.Map.{Map};
ghost use Rattle.bl_model.specs.History.{final_map};
ghost use Rattle.bl_page.specs.declared.page.Page.{Page};
ghost use Rattle.bl_page.specs.Machine.{State};
ghost use Rattle.bl_page.specs.Nodes.{Covers, node_of, IsTreePage};
ghost use Rattle.bl_claims.specs.Trails.{Mark, Trail, history_of};
ghost use Rattle.bl_one_moment.specs.Moments.{HasFirmMoments, PutsNone, puts_at, IsKept, Adjoin, IsRange};

/// Says that the rows of leaves that were not put since they were got, side by side from one key up to another, are those of the map
/// after the trail: all of them at this one moment. And so is what such a leaf says of a key. And where a page was put as often later on as
/// when it was got, it was not put in between.
pub fn law()
    ensures key { (first : Map) (start : State Page) (trail : Trail) (x key : ℕ) (c : Page) → HasFirmMoments first start trail → IsKept trail x c
        → IsTreePage c → (node_of c).shape.level ≡ 0 → Covers (node_of c).shape key
        → (node_of c).look key ≡ final_map first (history_of trail) key }
    ensures range { (first : Map) (start : State Page) (trail : Trail) (from upto : ℕ) (rows : List (ℕ × ℕ)) → HasFirmMoments first start trail
        → Adjoin trail from upto rows → IsRange first trail from upto rows }
    ensures count { (x version : ℕ) (before since rest : Trail) (get : Mark) → puts_at x (before ++ get ∷ []) ≡ version
        → puts_at x ((before ++ get ∷ since) ++ rest) ≡ version → PutsNone x since }
{}
