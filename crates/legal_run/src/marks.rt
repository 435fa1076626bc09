// Whether the numbers of a list differ.
ghost use Rattle.std.specs.Prelude.{◌≡◌, ◌↔◌, ◌==◌, ◌<◌, Bool, true, false, ℕ, length, IsTrue, IfOk, All, slice_index_or, if◌then◌else◌};
ghost use Rattle.std.specs.List.{IsDistinct, list_any};
ghost use Rattle.legal_run.specs.inside.Marking.{AreClear};

use outside_io::NoMemory;
use std::alloc::Global;
use std::marker::Model;

/// Marks for the numbers below a bound, with which a list's numbers are compared in time in proportion to the list.
/// Between two calls nothing is marked.
#[derive(Drop)]
pub struct Marks {
    flags: Vec<bool>,
}

impl Model for Marks {
    ghost use Rattle.std.specs.Prelude.{ℕ, length};
    ghost use Rattle.legal_run.specs.inside.Marking.{AreClear};

    ghost Value = { ℕ };

    ghost view = { λ m. length m.flags.items };

    ghost invariant = { λ m. AreClear m.flags.items };
}

impl Marks {
    /// Marks for the numbers below `bound`.
    pub fn new(alloc: Global, bound: usize) -> Result<Marks, NoMemory>
        ensures { IfOk result (λ marks. marks ≡ bound) }
    {
        Ok(Marks {
            flags: vec![in alloc; false; bound]?,
        })
    }

    /// Whether no number occurs twice in a list.
    pub fn are_distinct(&mut self, numbers: &[u32]) -> bool
        requires { All (λ n. n < self.old) numbers.now }
        ensures distinct { IsTrue result ↔ IsDistinct ◌==◌ numbers.now }
        ensures bound { self.new ≡ self.old }
    {
        let distinct = mark_each(&mut self.flags, numbers);
        clear_each(&mut self.flags, numbers);
        distinct
    }
}

// Marks each number, and says whether none was marked before.
fn mark_each(flags: &mut Vec<bool>, numbers: &[u32]) -> bool
    requires in_range { All (λ n. n < length flags.old.items) numbers.now }
    requires clear { AreClear flags.old.items }
    ensures distinct { IsTrue result ↔ IsDistinct ◌==◌ numbers.now }
    ensures len { length flags.new.items ≡ length flags.old.items }
    ensures each { (k : ℕ) (d : Bool) → k < length flags.old.items
        → slice_index_or flags.new.items k d ≡ list_any (λ n. n == k) numbers.now }
{
    let mut distinct = true;
    for number in numbers {
        distinct = distinct && !flags[*number as usize];
        flags[*number as usize] = true;
    }
    distinct
}

// Takes the mark of each number away.
fn clear_each(flags: &mut Vec<bool>, numbers: &[u32])
    requires { All (λ n. n < length flags.old.items) numbers.now }
    ensures len { length flags.new.items ≡ length flags.old.items }
    ensures each { (k : ℕ) (d : Bool) → k < length flags.old.items →
        slice_index_or flags.new.items k d
        ≡ (if list_any (λ n. n == k) numbers.now then false
        else slice_index_or flags.old.items k d) }
{
    for number in numbers {
        flags[*number as usize] = false;
    }
}
