//! Decimal numbers without leading zeros.

ghost use Rattle.std.specs.Prelude.{◌≡◌, ◌≢◌, ℕ, ◌<◌, ◌^◌, ◌≤◌, ◌++◌, length, slice_index, codes, decimal, IfSome, IfNone, Option};
ghost use Rattle.bl_serve_lines.specs.Text.{IsLimit, limit_text};

/// The number that the text spells, which is at most `u64::MAX`.
pub fn number(text: &[u8]) -> Option<u64>
    ensures found { IfSome result (λ n. text.now ≡ decimal n) }
    ensures none { IfNone result ((n : ℕ) → n < 2 ^ 64 → text.now ≢ decimal n) }
{
    if text.is_empty() {
        return None;
    }
    if text[0] == b'0' && text.len() > 1 {
        return None; // a leading zero
    }
    let mut value = 0u64;
    for byte in text {
        if *byte < b'0' || *byte > b'9' {
            return None;
        }
        let digit = u64::from(*byte - b'0');
        value = value.checked_mul(10)?.checked_add(digit)?;
    }
    Some(value)
}

/// Where the first space stands, or the text's length where there is none.
pub(crate) fn first_space(text: &[u8]) -> usize
    ensures within { result ≤ length text.now }
    ensures before { (k : ℕ) → k < result → slice_index text.now k ≢ 32 }
    ensures found { result < length text.now → slice_index text.now result ≡ 32 }
{
    for (i, byte) in text.iter().enumerate() {
        if *byte == b' ' {
            return i;
        }
    }
    text.len()
}

/// Two numbers with one space between them.
pub fn two_numbers(text: &[u8]) -> Option<(u64, u64)>
    ensures found { IfSome result (λ p. text.now ≡ decimal p.0 ++ codes " " ++ decimal p.1) }
    ensures none { IfNone result ((m n : ℕ) → m < 2 ^ 64 → n < 2 ^ 64 → text.now ≢ decimal m ++ codes " " ++ decimal n) }
{
    let space = first_space(text);
    if space == text.len() {
        return None;
    }
    match (number(&text[..space]), number(&text[space + 1..])) {
        (Some(first), Some(second)) => Some((first, second)),
        _ => None,
    }
}

/// Three numbers with one space between each two.
pub fn three_numbers(text: &[u8]) -> Option<(u64, u64, u64)>
    ensures found { IfSome result (λ p. text.now ≡ decimal p.0 ++ codes " " ++ decimal p.1 ++ codes " " ++ decimal p.2) }
    ensures none { IfNone result ((m n k : ℕ) → m < 2 ^ 64 → n < 2 ^ 64 → k < 2 ^ 64
        → text.now ≢ decimal m ++ codes " " ++ decimal n ++ codes " " ++ decimal k) }
{
    let space = first_space(text);
    if space == text.len() {
        return None;
    }
    match (number(&text[..space]), two_numbers(&text[space + 1..])) {
        (Some(first), Some((second, third))) => Some((first, second, third)),
        _ => None,
    }
}

/// The limit of rows that the text spells, which is at most `u32::MAX`; no limit where it is empty.
fn limit(text: &[u8]) -> Option<Option<u32>>
    ensures found { IfSome result (λ most. IsLimit most × (text.now ≡ limit_text most)) }
    ensures none { IfNone result ((most : Option ℕ) → IsLimit most → text.now ≢ limit_text most) }
{
    match text {
        [] => Some(None),
        [b' ', b'l', b'i', b'm', b'i', b't', b' ', rest @ ..] => {
            let most = number(rest)?;
            if most > u64::from(u32::MAX) {
                return None;
            }
            Some(Some(most as u32))
        }
        _ => None,
    }
}

/// A number, and a limit of rows behind it, if there is one.
pub fn number_and_limit(text: &[u8]) -> Option<(u64, Option<u32>)>
    ensures found { IfSome result (λ p. IsLimit p.1 × (text.now ≡ decimal p.0 ++ limit_text p.1)) }
    ensures none { IfNone result ((n : ℕ) (most : Option ℕ) → n < 2 ^ 64 → IsLimit most → text.now ≢ decimal n ++ limit_text most) }
{
    let space = first_space(text);
    match (number(&text[..space]), limit(&text[space..])) {
        (Some(first), Some(most)) => Some((first, most)),
        _ => None,
    }
}

/// Two numbers with one space between them, and a limit of rows behind them, if there is one.
pub fn two_numbers_and_limit(text: &[u8]) -> Option<(u64, u64, Option<u32>)>
    ensures found { IfSome result (λ p. IsLimit p.2 × (text.now ≡ decimal p.0 ++ codes " " ++ decimal p.1 ++ limit_text p.2)) }
    ensures none { IfNone result ((m n : ℕ) (most : Option ℕ) → m < 2 ^ 64 → n < 2 ^ 64 → IsLimit most
        → text.now ≢ decimal m ++ codes " " ++ decimal n ++ limit_text most) }
{
    let space = first_space(text);
    if space == text.len() {
        return None;
    }
    match (number(&text[..space]), number_and_limit(&text[space + 1..])) {
        (Some(first), Some((second, most))) => Some((first, second, most)),
        _ => None,
    }
}
