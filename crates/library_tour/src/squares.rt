// A loop over numbers, as a job.
ghost use Rattle.std.specs.Prelude.{◌≡◌, IfSome};
ghost use Rattle.grain_tasks.specs.Folds.{plain_fold};
ghost use Rattle.library_tour.specs.Squares.{squares, squaring};

use grain_tasks::{ChunkJob, Fold};
use outside_io::NoMemory;
use run_frame::Job;
use span_profile::SpanCount;
use std::alloc::Global;
use std::sync::{Arc, Wait};
use table_frames::run_alone;

/// The squares of the numbers below a count, added up. A sum stays at the greatest `u64`.
#[derive(Drop)]
pub struct Squares {
    pub count: u64,
}

impl Fold for Squares {
    ghost use Rattle.library_tour.specs.Squares.{squaring, squaring_lawful};

    type V = u64;

    ghost folding = { squaring };

    fn count(&self) -> u64 {
        self.count
    }

    fn unit(&self, _alloc: Global) -> Result<u64, NoMemory> {
        Ok(0)
    }

    fn at(&self, _alloc: Global, index: u64) -> Result<u64, NoMemory> {
        Ok(index.saturating_mul(index))
    }

    fn join(&self, _alloc: Global, left: u64, right: &u64) -> Result<u64, NoMemory> {
        Ok(left.saturating_add(*right))
    }

    ghost lawful = { squaring_lawful };
}

/// The squares of the numbers below `count`, added up by a job with a task for `grain` numbers each. `None`: an
/// allocation failed, there would be no number in a chunk or more than 65,536 chunks, or the run was cut short.
pub fn sum_of_squares<R: Wait>(rt: &R, alloc: Global, count: u64, grain: u64) -> Option<u64>
    ensures { IfSome result (λ sum. sum ≡ plain_fold squaring (squares count) count) }
{
    let fold = Arc::new(alloc, Squares { count }).ok()?;
    let Ok(job) = ChunkJob::new(alloc, fold, count, grain) else {
        return None;
    };
    let job = Arc::new(alloc, job).ok()?;
    let Ok(run) = run_alone(rt, alloc, job, &mut SpanCount::new()) else {
        return None;
    };
    if !run.is_fine() {
        return None;
    }
    match run.job.gather(alloc, &run) {
        Ok(sum) => Some(sum),
        Err(_error) => None,
    }
}
