// What is looked up in the books of a desk.
ghost use Rattle.std.specs.Prelude.{◌≡◌, ◌+◌, ◌≤◌, ◌<◌, ◌↔◌, ℕ, length, IsTrue};
ghost use Rattle.desk_book.specs.Histories.{IsOver};
ghost use Rattle.desk_book.specs.inside.Looks.{turn_at, lesser, IsFirstFrom, IsLastOf, IsLeast};
ghost use Rattle.desk_book.specs.declared.turn.Turn.TheVariants.{Waiting};

use crate::entry::Ask;
use crate::turn::Turn;

/// How far an ask is; one past the last waits.
pub fn turn_at(turns: &[Turn], n: usize) -> Turn
    ensures { result ≡ turn_at turns.now n }
{
    match turns.get(n) {
        Some(turn) => *turn,
        None => Turn::Waiting,
    }
}

// Whether nobody has taken an ask.
fn is_waiting(turns: &[Turn], n: usize) -> bool
    ensures { IsTrue result ↔ (turn_at turns.now n ≡ Waiting) }
{
    match turn_at(turns, n) {
        Turn::Waiting => true,
        Turn::Open => false,
        Turn::Over(_) => false,
    }
}

/// Whether an ask has ended.
pub fn is_over(turns: &[Turn], n: usize) -> bool
    ensures { IsTrue result ↔ IsOver (turn_at turns.now n) }
{
    match turn_at(turns, n) {
        Turn::Waiting => false,
        Turn::Open => false,
        Turn::Over(_) => true,
    }
}

/// The first number from this one on of an ask that nobody has taken; one past the last waits.
pub fn first_waiting(turns: &[Turn], from: usize) -> usize
    requires { from ≤ length turns.now }
    ensures range { (from ≤ result) × (result ≤ length turns.now) }
    ensures skipped { (n : ℕ) → from ≤ n → n < result → turn_at turns.now n ≡ Waiting → ⊥ }
    ensures waits { turn_at turns.now result ≡ Waiting }
{
    for n in from..turns.len() {
        if is_waiting(turns, n) {
            return n;
        }
    }
    turns.len()
}

/// The first number of an ask that has not ended; one past the last has not.
pub fn first_unended(turns: &[Turn]) -> usize
    ensures range { result ≤ length turns.now }
    ensures ended { (n : ℕ) → n < result → IsOver (turn_at turns.now n) }
    ensures not_ended { IsOver (turn_at turns.now result) → ⊥ }
{
    for n in 0..turns.len() {
        if !is_over(turns, n) {
            return n;
        }
    }
    turns.len()
}

/// The last ask of a graph.
pub fn last_of(asks: &[Ask], graph: u32) -> Option<usize>
    ensures { IsLastOf asks.now graph result }
{
    for back in 0..asks.len() {
        let n = asks.len() - 1 - back;
        if asks[n].graph == graph {
            return Some(n);
        }
    }
    None
}

/// The first ask of a graph after a number.
pub fn first_after(asks: &[Ask], graph: u32, number: usize) -> Option<u64>
    requires { number < length asks.now }
    ensures { IsFirstFrom asks.now graph (number + 1) result }
{
    for n in number + 1..asks.len() {
        if asks[n].graph == graph {
            return Some(n as u64);
        }
    }
    None
}

/// The least number that is there.
pub fn least(numbers: &[Option<u64>]) -> Option<u64>
    ensures { IsLeast numbers.now result }
{
    let mut least = None;
    for number in numbers {
        least = lesser(least, *number);
    }
    least
}

// The lesser of two numbers, where they are there.
fn lesser(left: Option<u64>, right: Option<u64>) -> Option<u64>
    ensures { result ≡ lesser left right }
{
    match (left, right) {
        (None, right) => right,
        (left, None) => left,
        (Some(n), Some(m)) => Some(if n <= m { n } else { m }),
    }
}
