// Counts at several places of a list.
ghost use Rattle.std.specs.Prelude.{◌≡◌, ◌==◌, ◌+◌, ◌<◌, ◌^◌, length, All, map, fold, min, count_by, slice_index, slice_set};
ghost use Rattle.journal_rules.specs.Complete.{least};

/// Adds one to a count.
pub fn add_one(counts: &mut Vec<u64>, at: usize)
    requires place { at < length counts.old.items }
    requires room { slice_index counts.old.items at < 2 ^ 63 }
    ensures { counts.new.items
        ≡ slice_set counts.old.items at (slice_index counts.old.items at + 1) }
{
    counts[at] += 1;
}

/// The least count at these places, and 0 where there is no place.
pub fn least_at(counts: &[u64], places: &[u32]) -> u64
    requires { All (λ at. at < length counts.now) places.now }
    ensures { result ≡ least (map (λ at. slice_index counts.now at) places.now) }
{
    match places {
        [] => 0,
        [first, rest @ ..] => lowest(counts[*first as usize], counts, rest),
    }
}

// The least of a number and the counts at these places.
fn lowest(number: u64, counts: &[u64], places: &[u32]) -> u64
    requires { All (λ at. at < length counts.now) places.now }
    ensures { result ≡ fold min number (map (λ at. slice_index counts.now at) places.now) }
{
    let mut least = number;
    for at in places {
        least = least.min(counts[*at as usize]);
    }
    least
}

/// How many of the counts at these places are a number.
pub fn count_at(counts: &[u64], places: &[u32], number: u64) -> u64
    requires { All (λ at. at < length counts.now) places.now }
    ensures { result ≡ count_by (λ at. slice_index counts.now at == number) places.now }
{
    let mut found = 0;
    for at in places {
        if counts[*at as usize] == number {
            found += 1;
        }
    }
    found
}
