//! What a pass knows, as plain data.

ghost use Rattle.std.specs.Prelude.{◌≡◌, []};

use bl_model::Entry;
use bl_page::Page;
use bl_proc::Proc;
use std::collections::LinkedList;
use std::marker::Model;
use std::snapshot::Snapshot;

/// What an index began with: the pages of an image, or no pages where it was opened empty. It takes no room.
#[derive(Drop)]
pub struct FirstPages<P> {
    pages: Snapshot<Vec<Option<P>>>,
}

// A clause sees the pages.
impl<P> Model for FirstPages<P> {
    ghost use Rattle.std.specs.Prelude.{List, Option as Optional};
    ghost use Rattle.std.specs.Coded.{coded_option};
    ghost use base.Stored.{coded_list};

    ghost Value = { List (Optional P) };

    ghost coded = { coded_list (coded_option P.code) };

    ghost view = { λ beginning. beginning.pages.value.items };
}

impl<P> FirstPages<P> {
    /// The beginning with these pages.
    pub fn of(pages: &Vec<Option<P>>) -> FirstPages<P>
        ensures { result ≡ pages.now.items }
    {
        FirstPages {
            pages: Snapshot::of(pages),
        }
    }
}

/// Nothing has happened: the one trail of which a program makes a value.
#[derive(Drop)]
struct Nothing;

impl Model for Nothing {
    ghost use Rattle.std.specs.Prelude.{[]};
    ghost use Rattle.std.specs.Coded.{codes};
    ghost use Rattle.bl_page.specs.contracts.page.Page as page;
    ghost use Rattle.bl_model.specs.contracts.operation.Reply as reply;
    ghost use Rattle.bl_claims.specs.Trails.{Trail};

    ghost Value = { Trail };

    ghost coded = { Prim.hlevel (codes, page.the_row.coded, reply.the_row.coded) };

    ghost view = { λ nothing. [] };
}

/// What has happened, as a trail: event by event. It takes no room, and only clauses see it.
#[derive(Drop)]
pub struct GhostTrail {
    trail: Snapshot<Nothing>,
}

impl Model for GhostTrail {
    ghost use Rattle.std.specs.Coded.{codes};
    ghost use Rattle.bl_page.specs.contracts.page.Page as page;
    ghost use Rattle.bl_model.specs.contracts.operation.Reply as reply;
    ghost use Rattle.bl_claims.specs.Trails.{Trail};

    ghost Value = { Trail };

    ghost coded = { Prim.hlevel (codes, page.the_row.coded, reply.the_row.coded) };

    ghost view = { λ happened. happened.trail.value };
}

impl GhostTrail {
    /// The trail before the first event.
    pub fn nothing() -> GhostTrail
        ensures { result ≡ [] }
    {
        GhostTrail {
            trail: Snapshot::of(&Nothing),
        }
    }
}

/// What a pass knows.
#[derive(Drop)]
pub struct PassState {
    /// The number of the pass, once it has begun a process.
    pub pass: u32,
    /// How many pages there are, once it has begun a process.
    pub pages: u32,
    /// How many passes there are, once it has begun a process.
    pub passes: u32,
    /// How many processes it has begun.
    pub number: u64,
    /// Whether the last of them still runs.
    pub runs: bool,
    /// Where the last of them stands.
    pub state: Proc,
    /// What the index began with.
    pub first: FirstPages<Page>,
    /// The entries of the pass before that process.
    pub past: LinkedList<Entry>,
    /// All that had happened up to its own last event.
    pub trail: GhostTrail,
}
