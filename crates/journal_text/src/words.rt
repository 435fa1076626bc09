// Words and numbers at the front of a text.
ghost use Rattle.std.specs.Prelude.{◌≡◌, ◌+◌, ◌-◌, ◌*◌, ◌^◌, ◌≤◌, IfSome, IfNone, nat_lt, option_copied, option_map, if◌then◌else◌};
ghost use Rattle.journal_text.specs.inside.Reading.{number_on, index_at, named_index_at, named_number_at, number_at, begins_number, word_at};

/// What follows this word.
pub(crate) fn after_word<'a>(bytes: &'a [u8], word: &[u8]) -> Option<&'a [u8]>
    ensures { option_copied result ≡ word_at word.now bytes.now }
{
    if bytes.len() < word.len() || &bytes[..word.len()] != word {
        return None;
    }
    Some(&bytes[word.len()..])
}

/// A number of 64 bits, without leading zeros, and what follows it.
#[tactic(auto, unfolding(crate::specs::inside::Reading::number_at))]
pub(crate) fn number_at(bytes: &[u8]) -> Option<(u64, &[u8])>
    ensures { option_map (λ x. (x.0, x.1.now)) result ≡ number_at bytes.now }
{
    if begins_number(bytes) {
        digits_at(bytes)
    } else {
        None
    }
}

// Whether there is a digit at the front, and no other behind a zero.
fn begins_number(bytes: &[u8]) -> bool
    ensures { result ≡ begins_number bytes.now }
{
    match bytes {
        [] => false,
        [byte] => byte.is_ascii_digit(),
        [byte, next, ..] => byte.is_ascii_digit() && !(*byte == b'0' && next.is_ascii_digit()),
    }
}

// The number that the digits at the front write, if it has 64 bits, and what follows them.
fn digits_at(bytes: &[u8]) -> Option<(u64, &[u8])>
    ensures { option_map (λ x. (x.0, x.1.now)) result
        ≡ (if nat_lt (number_on 0 bytes.now).0 (2 ^ 64)
        then Some (number_on 0 bytes.now) else None) }
{
    let mut value = 0u64;
    for (i, byte) in bytes.iter().enumerate() {
        if !byte.is_ascii_digit() {
            return Some((value, &bytes[i..]));
        }
        let Some(more) = with_digit(value, *byte) else {
            return None;
        };
        value = more;
    }
    Some((value, &[]))
}

// The number with one more digit, if it has 64 bits.
fn with_digit(value: u64, digit: u8) -> Option<u64>
    requires { 48 ≤ digit }
    ensures some { IfSome result (λ more. more ≡ value * 10 + (digit - 48)) }
    ensures none { IfNone result (2 ^ 64 ≤ value * 10 + (digit - 48)) }
{
    value.checked_mul(10)?.checked_add(u64::from(digit - b'0'))
}

/// A number of 32 bits, without leading zeros, and what follows it.
#[tactic(auto, unfolding(crate::specs::inside::Reading::index_at))]
pub(crate) fn index_at(bytes: &[u8]) -> Option<(u32, &[u8])>
    ensures { option_map (λ x. (x.0, x.1.now)) result ≡ index_at bytes.now }
{
    let (number, rest) = number_at(bytes)?;
    if number > u64::from(u32::MAX) {
        return None;
    }
    Some((number as u32, rest))
}

/// The number after this word, and what follows it.
#[tactic(auto, unfolding(crate::specs::inside::Reading::named_number_at))]
pub(crate) fn named_number_at<'a>(bytes: &'a [u8], word: &[u8]) -> Option<(u64, &'a [u8])>
    ensures { option_map (λ x. (x.0, x.1.now)) result ≡ named_number_at word.now bytes.now }
{
    number_at(after_word(bytes, word)?)
}

/// The number of 32 bits after this word, and what follows it.
#[tactic(auto, unfolding(crate::specs::inside::Reading::named_index_at))]
pub(crate) fn named_index_at<'a>(bytes: &'a [u8], word: &[u8]) -> Option<(u32, &'a [u8])>
    ensures { option_map (λ x. (x.0, x.1.now)) result ≡ named_index_at word.now bytes.now }
{
    index_at(after_word(bytes, word)?)
}
