// Numbers of a command line.
ghost use Rattle.std.specs.Prelude.{◌≡◌, ◌↔◌, ◌<◌, ◌≤◌, All, IsTrue, IfSome, option_map};
ghost use Rattle.std.specs.Char.{is_ascii_digit};
ghost use Rattle.std.specs.Str.Parse.{digits_value};
ghost use Rattle.command_line.specs.Requests.{grain_by, limit_by, workers_by};
ghost use Rattle.command_line.specs.Numbers.{number_in, is_short_number};

/// The greatest number to which the starts of a run may be limited.
pub const GREATEST_LIMIT: u64 = 1_000_000;

/// How many starts a run may have where nothing is said.
pub const DEFAULT_LIMIT: u64 = 100_000;

/// The greatest number of workers of a run.
pub const GREATEST_WORKERS: u32 = 16;

/// How many workers a run has where nothing is said.
pub const DEFAULT_WORKERS: u32 = 4;

/// The greatest number of rounds: of those that are asked for, and of those that are run until a word occurs.
pub const GREATEST_TIMES: u64 = 1_000;

/// The greatest number of layers of a generated graph.
pub const GREATEST_LAYERS: u64 = 900;

/// The greatest number of lines of a chunk.
pub const GREATEST_GRAIN: u64 = 1_000_000;

/// How many lines a chunk has where nothing is said.
pub const DEFAULT_GRAIN: u64 = 1_000;

/// The limit that an option's value asks for; without the option, the default.
pub(crate) fn limit_of(text: Option<&str>) -> Option<u64>
    ensures value { result ≡ limit_by (option_map (λ t. t.now) text.entry) }
    ensures limit { IfSome result (λ limit. limit ≤ GREATEST_LIMIT) }
{
    match text {
        Some(text) => number_in(text, 1, GREATEST_LIMIT),
        None => Some(DEFAULT_LIMIT),
    }
}

/// The number of workers that an option's value asks for; without the option, the default.
pub(crate) fn workers_of(text: Option<&str>) -> Option<u32>
    ensures value { result ≡ workers_by (option_map (λ t. t.now) text.entry) }
    ensures workers { IfSome result (λ workers. (0 < workers) × (workers ≤ GREATEST_WORKERS)) }
{
    match text {
        Some(text) => {
            let workers = number_in(text, 1, u64::from(GREATEST_WORKERS))?;
            Some(workers as u32)
        }
        None => Some(DEFAULT_WORKERS),
    }
}

/// The number of lines of a chunk that an option's value asks for; without the option, the default.
pub(crate) fn grain_of(text: Option<&str>) -> Option<u64>
    ensures value { result ≡ grain_by (option_map (λ t. t.now) text.entry) }
    ensures grain { IfSome result (λ grain. (1 ≤ grain) × (grain ≤ GREATEST_GRAIN)) }
{
    match text {
        Some(text) => number_in(text, 1, GREATEST_GRAIN),
        None => Some(DEFAULT_GRAIN),
    }
}

/// The number that an argument writes: 1 to 7 ASCII digits, from `least` to `most`.
pub(crate) fn number_in(text: &str, least: u64, most: u64) -> Option<u64>
    ensures value { result ≡ number_in least most text.now }
    ensures range { IfSome result (λ number. (least ≤ number) × (number ≤ most)) }
{
    if !is_short_number(text.as_bytes()) {
        return None;
    }
    let number = value_of(text);
    if least <= number && number <= most {
        Some(number)
    } else {
        None
    }
}

// The number that 1 to 7 digits write.
fn value_of(text: &str) -> u64
    requires { IsTrue (is_short_number text.now) }
    ensures { result ≡ digits_value 10 text.now }
{
    match text.parse::<u64>() {
        Ok(number) => number,
        Err(_) => unreachable!(),
    }
}

// Whether these are 1 to 7 ASCII digits.
#[tactic(auto, using(crate::proofs::Digits::digits_from_each, crate::proofs::Digits::each_from_digits))]
fn is_short_number(text: &[u8]) -> bool
    ensures { IsTrue result ↔ IsTrue (is_short_number text.now) }
{
    !text.is_empty() && text.len() <= 7 && are_digits(text)
}

// Whether each byte is an ASCII digit.
fn are_digits(text: &[u8]) -> bool
    ensures { IsTrue result ↔ All (λ byte. IsTrue (is_ascii_digit byte)) text.now }
{
    text.iter().all(|byte| byte.is_ascii_digit())
}
