//! Words read as a page.

ghost use Rattle.std.specs.Prelude.{◌≡◌, ℕ, ◌+◌, ◌<◌, ◌≤◌, ◌^◌, ◌↔◌, length, drop, take, IsTrue, IfOk, IfErr, IfSome, MatchOption, Ok, slice_index};
ghost use Rattle.bl_page.specs.Pairs.{RisesFrom, AllWithin, BeginsWith, NameChildren, NameNumbers, AreChildren, AreNumbers};
ghost use Rattle.bl_page.specs.Words.{words_of, IsBelow};
ghost use Rattle.bl_page.specs.Faults.{Kind, IsWordFault, IsOf, BoundsFit, count_in, level_in, pairs_in};
ghost use Rattle.bl_page.specs.declared.page.Page.TheVariants as page;
ghost use Rattle.bl_page.specs.declared.page.Page.{Page};

use crate::page::{Anchor, Dead, Inner, Leaf, Page, Pairs, WordFault};
use crate::places::{ENTRIES, FIRST_KEY, FIRST_WORD, HEAD, HIGH, LOW, RIGHT};
use crate::spelling::{KIND_UNIT, LEVEL_UNIT};
use arrayvec::ArrayVec;
use bl_model::limits::{MOST_LEVELS, MOST_PAIRS};

/// That many pairs behind the head.
fn pairs_at(words: &[u64; 32], count: usize) -> Pairs
    requires { count ≤ 14 }
    ensures pairs { result.items ≡ pairs_in count (drop 4 words.now) }
    ensures count { length result.items ≡ count }
{
    let mut pairs = ArrayVec::new();
    for i in 0..count {
        pairs.push((words[FIRST_KEY + 2 * i], words[FIRST_WORD + 2 * i]));
    }
    pairs
}

/// The keys rise strictly.
fn keys_rise(pairs: &[(u64, u64)]) -> bool
    ensures { IsTrue result ↔ RisesFrom 0 pairs.now }
{
    let mut last = None;
    for pair in pairs {
        match last {
            Some(key) if pair.0 <= key => return false,
            _ => last = Some(pair.0),
        }
    }
    true
}

/// Every key is within the bounds.
fn keys_are_within(low: u64, high: u64, pairs: &[(u64, u64)]) -> bool
    ensures { IsTrue result ↔ AllWithin low high pairs.now }
{
    for pair in pairs {
        if pair.0 < low || (high != 0 && high <= pair.0) {
            return false;
        }
    }
    true
}

/// Every pair names a page, by a number below that bound.
fn pairs_name_pages(pairs: &[(u64, u64)], most: u64) -> bool
    ensures { IsTrue result ↔ NameNumbers most pairs.now }
{
    for pair in pairs {
        if pair.1 == 0 || pair.1 >= most {
            return false;
        }
    }
    true
}

/// The words from that place on are zeros.
fn is_zero_from(words: &[u64; 32], from: usize) -> bool
    ensures { IsTrue result ↔ ((i : ℕ) → from ≤ i → i < 32 → slice_index words.now i ≡ 0) }
{
    for i in from..32 {
        if words[i] != 0 {
            return false;
        }
    }
    true
}

/// The first key is that one.
fn begins_with(low: u64, pairs: &[(u64, u64)]) -> bool
    ensures { IsTrue result ↔ BeginsWith low pairs.now }
{
    match pairs {
        [first, ..] => first.0 == low,
        [] => false,
    }
}

/// The level in the head of a page.
fn level_at(words: &[u64; 32]) -> u64
    ensures { result ≡ level_in words.now }
{
    words[HEAD] / LEVEL_UNIT % LEVEL_UNIT
}

/// How many entries a page has by its head.
fn count_at(words: &[u64; 32]) -> usize
    ensures { result ≡ count_in words.now }
{
    (words[HEAD] % LEVEL_UNIT) as usize
}

/// The bounds and the link of a leaf or an inner page.
fn bounds_fit(words: &[u64; 32], most: u64) -> bool
    ensures { IsTrue result ↔ BoundsFit most Kind.Leaf words.now }
{
    (words[HIGH] == 0 || words[LOW] < words[HIGH]) && words[RIGHT] < most
}

/// That many page numbers behind the head, if each is one below that bound.
fn leftmost_at(words: &[u64; 32], count: usize, most: u64) -> Option<ArrayVec<u32, MOST_LEVELS>>
    requires count { count ≤ 12 }
    requires most { most ≤ 2 ^ 32 }
    ensures found { MatchOption result (¬ AreNumbers most (take count (drop 4 words.now)))
        (λ leftmost. AreChildren leftmost.items × (leftmost.items ≡ take count (drop 4 words.now))) }
    ensures below { IfSome result (λ leftmost. AreNumbers most leftmost.items) }
{
    let mut leftmost = ArrayVec::new();
    for i in 0..count {
        let page = words[ENTRIES + i];
        if page == 0 || page >= most {
            return None;
        }
        leftmost.push(page as u32);
    }
    Some(leftmost)
}

/// Reads an anchor from the words of a page.
fn anchor_in(words: &[u64; 32], most: u64) -> Result<Anchor, WordFault>
    requires kind { IsOf Kind.Anchor words.now }
    requires most { most ≤ 2 ^ 32 }
    ensures ok { IfOk result (λ anchor. words.now ≡ words_of (page.Anchor anchor)) }
    ensures below { IfOk result (λ anchor. IsBelow most (page.Anchor anchor)) }
    ensures fault { IfErr result (λ fault. IsWordFault most fault words.now) }
{
    if level_at(words) != 0 {
        return Err(WordFault::Level);
    }
    let count = count_at(words);
    if count == 0 || count > MOST_LEVELS {
        return Err(WordFault::Count);
    }
    if words[LOW] != 0 || words[HIGH] != 0 || words[RIGHT] != 0 {
        return Err(WordFault::Bounds);
    }
    let Some(leftmost) = leftmost_at(words, count, most) else {
        return Err(WordFault::Cover);
    };
    if !is_zero_from(words, ENTRIES + count) {
        return Err(WordFault::Rest);
    }
    Ok(Anchor { leftmost })
}

/// Reads a leaf from the words of a page.
fn leaf_in(words: &[u64; 32], most: u64) -> Result<Leaf, WordFault>
    requires kind { IsOf Kind.Leaf words.now }
    requires most { most ≤ 2 ^ 32 }
    ensures ok { IfOk result (λ leaf. words.now ≡ words_of (page.Leaf leaf)) }
    ensures below { IfOk result (λ leaf. IsBelow most (page.Leaf leaf)) }
    ensures fault { IfErr result (λ fault. IsWordFault most fault words.now) }
{
    if level_at(words) != 0 {
        return Err(WordFault::Level);
    }
    let count = count_at(words);
    if count > MOST_PAIRS {
        return Err(WordFault::Count);
    }
    if !bounds_fit(words, most) {
        return Err(WordFault::Bounds);
    }
    let rows = pairs_at(words, count);
    if !keys_rise(rows.as_slice()) {
        return Err(WordFault::Order);
    }
    if !keys_are_within(words[LOW], words[HIGH], rows.as_slice()) {
        return Err(WordFault::Cover);
    }
    if !is_zero_from(words, ENTRIES + 2 * count) {
        return Err(WordFault::Rest);
    }
    Ok(Leaf {
        low: words[LOW],
        high: words[HIGH],
        right: words[RIGHT] as u32,
        rows,
    })
}

/// The children of an inner page whose keys rise, with what else is asked of them.
fn children_fit(words: &[u64; 32], children: &[(u64, u64)], most: u64) -> bool
    requires { most ≤ 2 ^ 32 }
    ensures fit { IsTrue result ↔ (AllWithin (slice_index words.now 1) (slice_index words.now 2) children.now
        × BeginsWith (slice_index words.now 1) children.now × NameNumbers most children.now) }
    ensures children { IsTrue result → NameChildren children.now }
{
    keys_are_within(words[LOW], words[HIGH], children)
        && begins_with(words[LOW], children)
        && pairs_name_pages(children, most)
}

/// Reads an inner page from the words of a page.
fn inner_in(words: &[u64; 32], most: u64) -> Result<Inner, WordFault>
    requires kind { IsOf Kind.Inner words.now }
    requires most { most ≤ 2 ^ 32 }
    ensures ok { IfOk result (λ inner. words.now ≡ words_of (page.Inner inner)) }
    ensures below { IfOk result (λ inner. IsBelow most (page.Inner inner)) }
    ensures fault { IfErr result (λ fault. IsWordFault most fault words.now) }
{
    let level = level_at(words);
    if level == 0 || level > 11 {
        return Err(WordFault::Level);
    }
    let count = count_at(words);
    if count == 0 || count > MOST_PAIRS {
        return Err(WordFault::Count);
    }
    if !bounds_fit(words, most) {
        return Err(WordFault::Bounds);
    }
    let children = pairs_at(words, count);
    if !keys_rise(children.as_slice()) {
        return Err(WordFault::Order);
    }
    if !children_fit(words, children.as_slice(), most) {
        return Err(WordFault::Cover);
    }
    if !is_zero_from(words, ENTRIES + 2 * count) {
        return Err(WordFault::Rest);
    }
    Ok(Inner {
        level: level as u32,
        low: words[LOW],
        high: words[HIGH],
        right: words[RIGHT] as u32,
        children,
    })
}

/// Reads a dead page from the words of a page.
fn dead_in(words: &[u64; 32], most: u64) -> Result<Dead, WordFault>
    requires kind { IsOf Kind.Dead words.now }
    requires most { most ≤ 2 ^ 32 }
    ensures ok { IfOk result (λ dead. words.now ≡ words_of (page.Dead dead)) }
    ensures below { IfOk result (λ dead. IsBelow most (page.Dead dead)) }
    ensures fault { IfErr result (λ fault. IsWordFault most fault words.now) }
{
    let level = level_at(words);
    if level > 11 {
        return Err(WordFault::Level);
    }
    if count_at(words) != 0 {
        return Err(WordFault::Count);
    }
    if words[HIGH] != 0 || words[RIGHT] >= most {
        return Err(WordFault::Bounds);
    }
    if !is_zero_from(words, ENTRIES) {
        return Err(WordFault::Rest);
    }
    Ok(Dead {
        level: level as u32,
        low: words[LOW],
        right: words[RIGHT] as u32,
    })
}

/// The page that the words spell, or the first fault that applies.
fn page_in(words: &[u64; 32], most: u64) -> Result<Page, WordFault>
    requires { most ≤ 2 ^ 32 }
    ensures ok { IfOk result (λ page. words.now ≡ words_of page) }
    ensures below { IfOk result (λ page. IsBelow most page) }
    ensures fault { IfErr result (λ fault. IsWordFault most fault words.now) }
{
    match words[HEAD] / KIND_UNIT {
        1 => Ok(Page::Anchor(anchor_in(words, most)?)),
        2 => Ok(Page::Leaf(leaf_in(words, most)?)),
        3 => Ok(Page::Inner(inner_in(words, most)?)),
        4 => Ok(Page::Dead(dead_in(words, most)?)),
        _ => Err(WordFault::Kind),
    }
}

/// The page that the words spell, where it names pages below a bound alone. Any other words are refused with the first fault
/// that applies.
pub fn from_words_below(words: &[u64; 32], most: u64) -> Result<Page, WordFault>
    requires { most ≤ 2 ^ 32 }
    // What is read is spelled so.
    ensures ok { IfOk result (λ page. words.now ≡ words_of page) }
    ensures below { IfOk result (λ page. IsBelow most page) }
    // What is spelled so is read.
    ensures only { (page : Page) → IsBelow most page → words.now ≡ words_of page → result ≡ Ok page }
    // Which fault it is.
    ensures fault { IfErr result (λ fault. IsWordFault most fault words.now) }
{
    page_in(words, most)
}

/// The page that the words spell, which are those of an index of at most 65,536 pages: it names pages from 1 to 65,535.
pub fn from_words(words: &[u64; 32]) -> Result<Page, WordFault>
    // What is read is spelled so.
    ensures ok { IfOk result (λ page. words.now ≡ words_of page) }
    ensures below { IfOk result (λ page. IsBelow (2 ^ 16) page) }
    // What is spelled so is read.
    ensures only { (page : Page) → IsBelow (2 ^ 16) page → words.now ≡ words_of page → result ≡ Ok page }
    // Which fault it is.
    ensures fault { IfErr result (λ fault. IsWordFault (2 ^ 16) fault words.now) }
{
    from_words_below(words, LEVEL_UNIT)
}

/// The page that the words spell, whatever pages it names.
pub fn from_wide_words(words: &[u64; 32]) -> Result<Page, WordFault>
    // What is read is spelled so.
    ensures ok { IfOk result (λ page. words.now ≡ words_of page) }
    // What is spelled so is read.
    ensures only { (page : Page) → words.now ≡ words_of page → result ≡ Ok page }
    // Which fault it is.
    ensures fault { IfErr result (λ fault. IsWordFault (2 ^ 32) fault words.now) }
{
    from_words_below(words, KIND_UNIT)
}
