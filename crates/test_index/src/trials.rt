//! Trials of a new index of 8 pages by its three passes, of which each says whether all came as it must. One function owns the index for all of
//! them: what a test owns makes its proof long.

ghost use Rattle.bl_index.specs.Calls.{IsPassOf};

use crate::near;
use crate::stops::begun::opened;
use crate::stops::{searching, turning};
use bl_index::{Index, Pass};
use std::alloc::Global;
use std::sync::Wait;

/// What is tried.
#[derive(Clone, Copy)]
enum Trial {
    AnyPage,
    ManyKeys,
    RetiredPage,
    StandingSearch,
    FreeWrite,
    HeldWrite,
    LowTree,
    HeldLeaf,
    NewLevel,
}

fn holds<R: Wait>(
    rt: &R,
    index: &Index,
    first: &mut Pass,
    second: &mut Pass,
    third: Pass,
    trial: Trial,
) -> bool
    requires { IsPassOf index.now first.old × IsPassOf index.now second.old × IsPassOf index.now third }
{
    match trial {
        Trial::AnyPage => near::any_page_will_do(rt, index, first),
        Trial::ManyKeys => near::many_go_in_turn(rt, index, first),
        Trial::RetiredPage => near::retired_page_is_left(rt, index, first, second),
        Trial::StandingSearch => searching::search_stands_still(rt, index, first, second, third),
        Trial::FreeWrite => turning::write_meets_nobody(index, first),
        Trial::HeldWrite => turning::write_is_done_or_not(rt, index, second, third),
        Trial::LowTree => turning::compression_is_alone(rt, index, second, third),
        Trial::HeldLeaf => turning::compression_gives_up(rt, index, first, second, third),
        Trial::NewLevel => turning::post_begins_anew(index, first),
    }
}

/// Whether a trial comes as it must; nothing, where no index is opened.
fn holds_anew<R: Wait>(rt: &R, alloc: Global, trial: Trial) -> Option<bool> {
    let (index, mut first, mut second, third) = opened(alloc)?;
    Some(holds(rt, &index, &mut first, &mut second, third, trial))
}

const TRIALS: [(&str, Trial); 9] = [
    ("a search begins at any page", Trial::AnyPage),
    ("many searches go one behind another", Trial::ManyKeys),
    (
        "a search does not begin at a retired page",
        Trial::RetiredPage,
    ),
    (
        "a search stands still beside a merge",
        Trial::StandingSearch,
    ),
    ("a write that meets nobody is done", Trial::FreeWrite),
    ("a write that may not wait is done or not", Trial::HeldWrite),
    ("a compression is alone in a low tree", Trial::LowTree),
    (
        "a compression gives up where a leaf is held",
        Trial::HeldLeaf,
    ),
    ("a post begins anew behind a new level", Trial::NewLevel),
];

#[test]
fn a_new_index_comes_through_each_trial(rt: HostRuntime) {
    for (name, trial) in TRIALS {
        assert!(rt; holds_anew(&rt, rt.alloc(), trial) == Some(true), "{name}");
    }
}
