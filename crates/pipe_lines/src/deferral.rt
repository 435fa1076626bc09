// What defers tokens.
ghost use Rattle.std.specs.Prelude.{◌≡◌, ◌↔◌, IsTrue, All, true};
ghost use Rattle.pipe_lines.specs.DeferRows.{AreApart, AreDeferRows, IsDeferRow, is_deferred};

use outside_io::List;

/// How many tokens a pipeline may be given.
pub const MAX_TOKENS: u64 = 65_536;

/// How many tokens may be deferred.
pub const MAX_DEFER_ROWS: usize = 256;

/// For how many others a token may wait.
pub const MAX_TARGETS: usize = 8;

/// The greatest number that a token for which others wait may have. It may be one that never comes.
pub const MAX_TARGET: u64 = 1_000_000;

/// A token that is deferred until others have passed, its targets.
#[derive(Drop)]
pub struct DeferRow {
    pub token: u64,
    pub to: List<u64>,
}

/// Whether tokens may be deferred by these rows: there are at most `MAX_DEFER_ROWS`, of different tokens, each below
/// `MAX_TOKENS` and with 1 to `MAX_TARGETS` targets, none above `MAX_TARGET`.
pub fn are_defer_rows(rows: &[DeferRow]) -> bool
    ensures { IsTrue result ↔ AreDeferRows rows.now }
{
    rows.len() <= MAX_DEFER_ROWS && all_fit(rows) && are_apart(rows)
}

// Whether each row keeps its limits.
fn all_fit(rows: &[DeferRow]) -> bool
    ensures { IsTrue result ↔ All IsDeferRow rows.now }
{
    rows.iter().all(|row| fits(row))
}

// Whether a row keeps its limits.
fn fits(row: &DeferRow) -> bool
    ensures { IsTrue result ↔ IsDeferRow row.now }
{
    row.token < MAX_TOKENS
        && !row.to.is_empty()
        && row.to.len() <= MAX_TARGETS
        && row.to.as_slice().iter().all(|&target| target <= MAX_TARGET)
}

// Whether no two rows are of one token.
fn are_apart(rows: &[DeferRow]) -> bool
    ensures { IsTrue result ↔ AreApart rows.now }
{
    for (place, row) in rows.iter().enumerate() {
        if is_deferred(&rows[place + 1..], row.token) {
            return false;
        }
    }
    true
}

/// Whether one of these rows is of the token.
pub fn is_deferred(rows: &[DeferRow], token: u64) -> bool
    ensures { result ≡ is_deferred rows.now token }
{
    rows.iter().any(|row| row.token == token)
}
