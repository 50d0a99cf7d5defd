//! An index is made.

ghost use Rattle.std.specs.Prelude.{◌≡◌, ◌≤◌, ◌^◌, [], length, IfOk, IfErr};
ghost use Rattle.bl_store.specs.Opening.{first_pages as store_pages, padded};
ghost use Rattle.bl_claims.specs.Seeing.{IsSeen};
ghost use Rattle.bl_index_rule.specs.Simulation.{beginner as unborn_pass, Simulates};
ghost use Rattle.bl_index.specs.Opened.{IsRefusal, IsLargeRefusal, IsRefusalOf, IsFirstAnchor, IsFirstLeaf, IsFirst, AreFirst, AreNew, ArePasses, IsBegun, IsIndexOpened, IsReopenedIn, IsLargerRefusal, IsReopened, IsImageRefusal};

use crate::config::{Config, OpenFault};
use crate::image_words::{ImageWords, QuietWords};
use crate::index::{Index, Pass};
use arrayvec::ArrayVec;
use bl_check::Quiet;
use bl_index_events::Tree;
use bl_index_rule::{FirstPages, GhostTrail, PassState, Passes};
use bl_layout::Layout;
use bl_model::limits::{LEAST_PAGES, MOST_LARGE_PAGES, MOST_PAGES};
use bl_page::{Anchor, Leaf, Page};
use bl_proc::{Find, FindStage, Proc};
use bl_room::FirstWords;
use bl_store::{Hand, Store};
use std::alloc::{AllocError, Global};
use std::collections::LinkedList;

/// So many pages an index has in use when it is opened without rows.
const PAGES_AT_FIRST: u32 = 2;

/// The anchor of a tree whose only page is page 1.
fn first_anchor() -> Page
    ensures { IsFirstAnchor result }
{
    let mut leftmost = ArrayVec::new();
    leftmost.push(1);
    Page::Anchor(Anchor { leftmost })
}

/// A leaf without rows.
fn first_leaf() -> Page
    ensures { IsFirstLeaf result }
{
    Page::Leaf(Leaf {
        low: 0,
        high: 0,
        right: 0,
        rows: ArrayVec::new(),
    })
}

/// The words of a page of the opening index: page 0 names page 1, which is an empty leaf, and all others are zeros.
fn first_words(page: u32) -> [u64; 32]
    ensures { IsFirst page result }
{
    match page {
        0 => first_anchor().to_words(),
        1 => first_leaf().to_words(),
        _ => [0; 32],
    }
}

/// The words of its first pages, so many.
fn first_pages(alloc: Global, pages: u32) -> Result<Vec<[u64; 32]>, AllocError>
    ensures { IfOk result (λ v. AreFirst pages v.items) }
{
    let mut first = Vec::with_capacity(alloc, pages as usize)?;
    for page in 0..pages {
        first.push(first_words(page))?;
    }
    Ok(first)
}

/// What an index begins with that is opened empty.
fn no_pages(alloc: Global) -> Vec<Option<Page>>
    ensures { result.items ≡ [] }
{
    Vec::new(alloc)
}

/// What each pass knows at first: it has begun no process, and has seen nothing.
fn beginner(alloc: Global, first: FirstPages<Page>) -> PassState
    ensures { result ≡ unborn_pass first }
{
    PassState {
        pass: 0,
        pages: 0,
        passes: 0,
        number: 0,
        runs: false,
        state: Proc::Find(Find {
            key: 0,
            stage: FindStage::New,
        }),
        first,
        past: LinkedList::new(alloc),
        trail: GhostTrail::nothing(),
    }
}

/// A pass of each hand.
fn passes_of(
    alloc: Global,
    store: &Store<PassState, Passes>,
    first: &FirstPages<Page>,
    hands: Vec<Hand<PassState>>,
) -> Result<Vec<Pass>, AllocError>
    requires hands { AreNew store.now.table.shared.table_id store.now.layout first.now 0 hands.items }
    requires seen { IsSeen first.now [] }
    ensures { IfOk result (λ v. ArePasses store.now.table.shared.table_id store.now.layout first.now (length hands.items) v.items) }
{
    let mut hands = hands;
    let count = hands.len();
    let mut passes = Vec::with_capacity(alloc, count)?;
    for _number in 0..count {
        passes.push(Pass {
            hand: hands.remove(0),
        })?;
    }
    Ok(passes)
}

impl Index {
    /// An index without rows, and its passes, in the order of their numbers.
    pub fn open(alloc: Global, config: Config) -> Result<(Index, Vec<Pass>), OpenFault>
        ensures ok { IfOk result (λ t. IsIndexOpened config t.0 t.1.items) }
        ensures fault { IfErr result (IsRefusal config) }
    {
        Self::open_within(alloc, config, MOST_PAGES)
    }

    /// The same of up to 2^28 pages.
    pub fn open_large(alloc: Global, config: Config) -> Result<(Index, Vec<Pass>), OpenFault>
        ensures ok { IfOk result (λ t. IsIndexOpened config t.0 t.1.items) }
        ensures fault { IfErr result (IsLargeRefusal config) }
    {
        Self::open_within(alloc, config, MOST_LARGE_PAGES)
    }

    /// Opens an empty index with so many pages at most, or says which limit is not kept.
    fn open_within(
        alloc: Global,
        config: Config,
        most: u32,
    ) -> Result<(Index, Vec<Pass>), OpenFault>
        requires { most ≤ 2 ^ 28 }
        ensures ok { IfOk result (λ t. IsIndexOpened config t.0 t.1.items) }
        ensures fault { IfErr result (IsRefusalOf 4 most config) }
    {
        if config.pages < LEAST_PAGES || config.pages > most {
            return Err(OpenFault::Pages);
        }
        if config.passes < 1 || config.passes > 64 {
            return Err(OpenFault::Passes);
        }
        match Self::made(alloc, config) {
            Ok(made) => Ok(made),
            Err(_) => Err(OpenFault::Memory),
        }
    }

    /// An empty index: an anchor and one leaf.
    fn made(alloc: Global, config: Config) -> Result<(Index, Vec<Pass>), AllocError>
        requires pages { (4 ≤ config.pages) × (config.pages ≤ 2 ^ 28) }
        requires passes { (1 ≤ config.passes) × (config.passes ≤ 64) }
        ensures { IfOk result (λ t. IsIndexOpened config t.0 t.1.items) }
    {
        let words = first_pages(alloc, PAGES_AT_FIRST)?;
        let image = no_pages(alloc);
        let first = FirstPages::of(&image);
        let observed = FirstPages::of(&image);
        Self::begun(alloc, words, config, first, observed)
    }

    // An index whose first pages have these words, which are those of the pages that it begins with, or of the opening index where it
    // begins with none. All other pages are free.
    fn begun<F: FirstWords + Drop>(
        alloc: Global,
        words: F,
        config: Config,
        first: FirstPages<Page>,
        observed: FirstPages<Page>,
    ) -> Result<(Index, Vec<Pass>), AllocError>
        requires pages { (4 ≤ config.pages) × (config.pages ≤ 2 ^ 28) }
        requires passes { (1 ≤ config.passes) × (config.passes ≤ 64) }
        requires words { length (F.contents words) ≤ config.pages }
        requires same { observed ≡ first }
        requires rule { Simulates (store_pages (padded config.pages (F.contents words)) config.passes (unborn_pass first)) }
        requires seen { IsSeen first [] }
        ensures { IfOk result (λ t. IsBegun first config.pages config.passes t.0 t.1.items) }
    {
        let known = beginner(alloc, observed);
        let layout = Layout::of(config.pages, config.passes);
        let (store, hands) = Store::of_layout(alloc, layout, words, &known)?;
        let made = passes_of(alloc, &store, &first, hands)?;
        let tree = Tree {
            store,
            pages: config.pages,
            passes: config.passes,
        };
        Ok((Index { tree }, made))
    }

    /// An index that begins with the pages of a sound image, each at its number, and so with the map of the image's rows; and
    /// its passes, in the order of their numbers. Where it is not opened, the image comes back as it was.
    pub fn open_image(
        alloc: Global,
        quiet: Quiet,
        passes: u32,
    ) -> Result<(Index, Vec<Pass>), (Quiet, OpenFault)>
        ensures ok { IfOk result (λ t. IsReopened quiet.image.pages.items passes t.0 t.1.items) }
        ensures fault { IfErr result (λ t. (t.0 ≡ quiet) × IsImageRefusal passes t.1) }
    {
        let pages = quiet.image().pages.len() as u32;
        Self::open_larger(alloc, quiet, pages, passes)
    }

    /// The same with so many pages, as many as the image has or more, up to 2^28. Those behind the image's are free.
    pub fn open_larger(
        alloc: Global,
        quiet: Quiet,
        pages: u32,
        passes: u32,
    ) -> Result<(Index, Vec<Pass>), (Quiet, OpenFault)>
        ensures ok { IfOk result (λ t. IsReopenedIn quiet.image.pages.items pages passes t.0 t.1.items) }
        ensures fault { IfErr result (λ t. (t.0 ≡ quiet) × IsLargerRefusal quiet.image.pages.items pages passes t.1) }
    {
        if quiet.image().pages.len() > pages as usize || pages > MOST_LARGE_PAGES {
            return Err((quiet, OpenFault::Pages));
        }
        if passes < 1 || passes > 64 {
            return Err((quiet, OpenFault::Passes));
        }
        match Self::made_from(alloc, &quiet, Config { pages, passes }) {
            Ok(opened) => Ok(opened),
            Err(_) => Err((quiet, OpenFault::Memory)),
        }
    }

    /// An index of that size, whose first pages are those of a checked image.
    fn made_from(
        alloc: Global,
        quiet: &Quiet,
        config: Config,
    ) -> Result<(Index, Vec<Pass>), AllocError>
        requires pages { (length quiet.now.image.pages.items ≤ config.pages) × (config.pages ≤ 2 ^ 28) }
        requires passes { (1 ≤ config.passes) × (config.passes ≤ 64) }
        ensures { IfOk result (λ t. IsReopenedIn quiet.now.image.pages.items config.pages config.passes t.0 t.1.items) }
    {
        let image = quiet.image();
        // Of 64 bits are the words of an image alone.
        image.is_of_64_bits();
        let first = FirstPages::of(&image.pages);
        let observed = FirstPages::of(&image.pages);
        Self::begun(alloc, ImageWords { image }, config, first, observed)
    }

    /// The same as `open_image`, but the image is let go when its words stand in the store, so that less memory is taken: by it
    /// an index takes no more while it is opened than one without rows. Where it is not opened, the image is gone.
    pub fn begin_with(
        alloc: Global,
        quiet: Quiet,
        passes: u32,
    ) -> Result<(Index, Vec<Pass>), OpenFault>
        ensures ok { IfOk result (λ t. IsReopened quiet.image.pages.items passes t.0 t.1.items) }
        ensures fault { IfErr result (IsImageRefusal passes) }
    {
        if passes > 64 || passes < 1 {
            return Err(OpenFault::Passes);
        }
        match Self::made_of(alloc, quiet, passes) {
            Ok(begun) => Ok(begun),
            Err(_) => Err(OpenFault::Memory),
        }
    }

    /// An index with as many pages as a checked image, which goes.
    fn made_of(alloc: Global, quiet: Quiet, passes: u32) -> Result<(Index, Vec<Pass>), AllocError>
        requires { (1 ≤ passes) × (passes ≤ 64) }
        ensures { IfOk result (λ t. IsReopened quiet.image.pages.items passes t.0 t.1.items) }
    {
        let image = quiet.image();
        image.is_of_64_bits();
        let first = FirstPages::of(&image.pages);
        let observed = FirstPages::of(&image.pages);
        let pages = image.pages.len() as u32;
        let config = Config { pages, passes };
        Self::begun(alloc, QuietWords { quiet }, config, first, observed)
    }
}
