// A transform and a for-each by several workers.
ghost use Rattle.std.specs.Prelude.{◌≡◌, ◌*◌, ◌≤◌, IfOk, length, map, slice_index};
ghost use Rattle.std.specs.List.{range_with_len};

use crate::samples::{Doubles, Visits};
use grain_tasks::{Fold, GrainError, reduce_drawn};
use outside_io::List;
use std::alloc::Global;
use std::thread::Threads;

/// Each number twice over, in order, by several workers.
#[tactic(auto, using(crate::proofs::Concatenation::doubles_listed))]
pub fn doubles<R: Threads + Sync>(
    rt: &R,
    alloc: Global,
    workers: u32,
    fold: &Doubles,
    grain: u64,
) -> Result<List<u64>, GrainError>
    requires some { 1 ≤ workers }
    requires few { workers ≤ 16 }
    requires count { length fold.now.numbers ≤ 1099511627776 }
    requires grain { grain ≤ 1000000 }
    ensures { IfOk result (λ list. list
        ≡ map (λ i. slice_index fold.now.numbers i * 2) (range_with_len 0 (length fold.now.numbers))) }
{
    reduce_drawn(rt, alloc, workers, fold, fold.count(), grain)
}

/// Visits each index once, and puts the indices down in order, by several workers.
#[tactic(auto, using(crate::proofs::Concatenation::visits_listed))]
pub fn visits<R: Threads + Sync>(
    rt: &R,
    alloc: Global,
    workers: u32,
    fold: &Visits,
    grain: u64,
) -> Result<List<u64>, GrainError>
    requires some { 1 ≤ workers }
    requires few { workers ≤ 16 }
    requires count { fold.now.count ≤ 1099511627776 }
    requires grain { grain ≤ 1000000 }
    ensures { IfOk result (λ list. list ≡ range_with_len 0 fold.now.count) }
{
    reduce_drawn(rt, alloc, workers, fold, fold.count(), grain)
}
