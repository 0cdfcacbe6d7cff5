//! Numbers in decimal and hexadecimal.
ghost use Rattle.std.specs.Prelude.{◌≡◌, ◌≤◌, IfSome};
ghost use Rattle.trace_text.specs.Words.{digit_in, with_digit, number_by_radix};

/// What a digit stands for, the letters `a` to `f` among them.
fn digit(byte: u8) -> Option<u64>
    ensures { result ≡ digit_in byte }
{
    match byte {
        b'0'..=b'9' => Some(u64::from(byte - b'0')),
        b'a'..=b'f' => Some(u64::from(byte - b'a') + 10),
        _ => None,
    }
}

/// The number with one more digit, if it is one of this radix and the number then is at most `most`.
fn next(radix: u64, most: u64, n: u64, byte: u8) -> Option<u64>
    requires radix { radix ≤ 16 }
    ensures number { result ≡ with_digit radix most n byte }
    ensures most { IfSome result (λ m. m ≤ most) }
{
    let d = digit(byte)?;
    if d >= radix {
        return None;
    }
    let n = n.checked_mul(radix)?.checked_add(d)?;
    if n > most {
        return None;
    }
    Some(n)
}

/// The number of this radix that a word is, if it is at most `most`.
pub fn number(radix: u64, most: u64, word: &[u8]) -> Option<u64>
    requires radix { radix ≤ 16 }
    ensures number { result ≡ number_by_radix radix most word.now }
    ensures most { IfSome result (λ n. n ≤ most) }
{
    if word.is_empty() {
        return None;
    }
    let mut n = 0;
    for byte in word {
        n = next(radix, most, n, *byte)?;
    }
    Some(n)
}
