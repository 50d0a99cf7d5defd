//! The steps of the change of one pair.

ghost use Rattle.std.specs.Prelude.{◌≡◌, ◌≤◌, None, IsSome};
ghost use Rattle.bl_model.specs.Rows.{map_of};
ghost use Rattle.bl_page.specs.Pages.{Covers};
ghost use Rattle.bl_page.specs.Pairs.{IsChild};
ghost use Rattle.bl_rearrange.specs.Rearranged.{MayHold, MayLose, pairs_of};
ghost use Rattle.bl_proc_steps.specs.declared.acts.Seen.TheVariants as seen;
ghost use Rattle.bl_proc_steps.specs.declared.edit.Edit.TheVariants as edit;
ghost use Rattle.bl_proc_steps.specs.declared.edit.Edited.TheVariants as changed;
ghost use Rattle.bl_proc_steps.specs.Given.{Gives};
ghost use Rattle.bl_proc_steps.specs.Edits.{edit_next, edit_needs, EntersPair, DropsPair, GivesValue, Changes};

use crate::acts::{Action, Seen};
use crate::edit::{Edit, Edited, Full, Outcome, Splitting};
use bl_model::limits::MOST_PAIRS;
use bl_page::Page;
use bl_proc_routes::count_of;
use bl_rearrange::{Fitted, with_pair, with_value, without};

/// A pair is to enter the page.
pub fn entering(at: u32, page: Page, key: u64, word: u64) -> Edit
    requires covers { Covers page key }
    requires absent { map_of (pairs_of page) key ≡ None }
    requires fits { MayHold page word }
    ensures { EntersPair at page key word result }
{
    if MOST_PAIRS <= count_of(&page) {
        return Edit::Taking(Full {
            at,
            key,
            word,
            page,
        });
    }
    // Any number stands for the new page, which is not needed.
    match with_pair(page, key, word, 1) {
        Fitted::Fits(page) => Edit::Putting(at, page),
        Fitted::Split(_, _, _) => unreachable!(),
    }
}

/// The pair of the key is to leave the page.
pub fn dropping(at: u32, page: Page, key: u64) -> Edit
    requires covers { Covers page key }
    requires first { MayLose page key }
    ensures { DropsPair at page key result }
{
    Edit::Putting(at, without(page, key))
}

/// A key that the page lists is to have that value in place of its own.
pub fn replacing(at: u32, page: Page, key: u64, value: u64) -> Edit
    requires listed { IsSome (map_of (pairs_of page) key) }
    requires fits { MayHold page value }
    ensures { GivesValue at page key value result }
{
    Edit::Putting(at, with_value(page, key, value))
}

/// The full page is split.
fn split(full: Full, new: u32) -> Edit
    requires { IsChild new }
    ensures { Changes (edit.Taking full) (seen.Took new) (changed.On result) }
{
    let Full {
        at,
        key,
        word,
        page,
    } = full;
    match with_pair(page, key, word, new) {
        Fitted::Split(left, right, separator) => Edit::PuttingNew(Splitting {
            at,
            new,
            left,
            right,
            separator,
        }),
        Fitted::Fits(_) => unreachable!(),
    }
}

impl Edit {
    /// The next action.
    pub fn next(&self) -> Action
        ensures { result ≡ edit_next self.now }
    {
        match self {
            Edit::Putting(at, page) => Action::Put(*at, page.copied()),
            Edit::Taking(_) => Action::Take,
            Edit::PuttingNew(splitting) => Action::Put(splitting.new, splitting.right.copied()),
            Edit::PuttingOld(splitting) => Action::Put(splitting.at, splitting.left.copied()),
            Edit::OpeningNew { new, .. } => Action::Open(*new),
            Edit::Opening(at, _) => Action::Open(*at),
        }
    }

    /// How many pages and frames are reserved before it.
    pub fn needs(&self) -> Option<(u32, u32)>
        ensures { result ≡ edit_needs self.now }
    {
        match self {
            Edit::Putting(_, _) => Some((0, 1)),
            Edit::Taking(_) => Some((1, 2)),
            _ => None,
        }
    }

    /// What becomes of the change, by what its action gave.
    pub fn took(self, seen: Seen) -> Edited
        requires { Gives (edit_next self) (edit_needs self) seen }
        ensures { Changes self seen result }
    {
        match self {
            Edit::Putting(at, _) => match seen {
                Seen::Done => Edited::On(Edit::Opening(at, Outcome::Edited)),
                Seen::Refused => Edited::On(Edit::Opening(at, Outcome::Refused)),
                _ => unreachable!(),
            },
            Edit::Opening(_, outcome) => Edited::Over(outcome),
            Edit::Taking(full) => match seen {
                Seen::Took(new) => Edited::On(split(full, new)),
                Seen::Refused => Edited::On(Edit::Opening(full.at, Outcome::Refused)),
                _ => unreachable!(),
            },
            Edit::PuttingNew(splitting) => Edited::On(Edit::PuttingOld(splitting)),
            Edit::PuttingOld(splitting) => Edited::On(Edit::OpeningNew {
                at: splitting.at,
                new: splitting.new,
                separator: splitting.separator,
            }),
            Edit::OpeningNew { at, separator, .. } => {
                Edited::On(Edit::Opening(at, Outcome::SplitAt(separator)))
            }
        }
    }
}
