//! Pairs with rising keys, by key.

ghost use Rattle.std.specs.Prelude.{◌≡◌, ◌≤◌, length};
ghost use Rattle.bl_model.specs.Rows.{map_of};
ghost use Rattle.bl_page.specs.Pairs.{place};

/// How many keys are at or below a key: the place behind them, where pairs rise.
pub fn place_of(pairs: &[(u64, u64)], key: u64) -> usize
    ensures place { result ≡ place key pairs.now }
    ensures within { result ≤ length pairs.now }
{
    for (i, pair) in pairs.iter().enumerate() {
        if key < pair.0 {
            return i;
        }
    }
    pairs.len()
}

/// What is listed with a key.
pub fn listed_with(pairs: &[(u64, u64)], key: u64) -> Option<u64>
    ensures { result ≡ map_of pairs.now key }
{
    for pair in pairs {
        if pair.0 == key {
            return Some(pair.1);
        }
    }
    None
}
