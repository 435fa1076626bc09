// How often a graph is run.
ghost use Rattle.std.specs.Prelude.{◌≡◌, ◌≤◌, IfSome, option_map};
ghost use Rattle.command_line.specs.Requests.{most_rounds, rounds_by};
ghost use Rattle.command_line.specs.Rounds.{asked_rounds};

use super::numbers::{GREATEST_TIMES, number_in};

/// How often a graph is run, each round after the one before it.
#[derive(Clone, Copy)]
pub enum Rounds<'w> {
    /// Once, where neither option is there. The report has no line for the round, unlike that of `Times(1)`.
    Once,
    /// So many times, from 0 to 1,000.
    Times(u64),
    /// Until a round passes on a line in which this word occurs, but at most 1,000 times. The word may be empty.
    Until(&'w str),
}

/// The rounds that the values of `--times` and `--until` ask for, of which one at most may be there.
pub(crate) fn rounds_of<'w>(times: Option<&str>, until: Option<&'w str>) -> Option<Rounds<'w>>
    ensures value { option_map asked_rounds result
        ≡ rounds_by (option_map (λ t. t.now) times.entry) (option_map (λ u. u.now) until.entry) }
    ensures times { IfSome result
        (λ rounds. most_rounds (asked_rounds rounds) ≤ GREATEST_TIMES) }
{
    match (times, until) {
        (None, None) => Some(Rounds::Once),
        (Some(times), None) => Some(Rounds::Times(number_in(times, 0, GREATEST_TIMES)?)),
        (None, Some(word)) => Some(Rounds::Until(word)),
        (Some(_), Some(_)) => None,
    }
}
