// Static chunks as a job.
ghost use Rattle.std.specs.Prelude.{◌≡◌, ◌≤◌, IfOk, IfErr, OnOk};
ghost use Rattle.std.specs.Arc.{arc_value};
ghost use Rattle.grain_tasks.specs.ChunkWork.{RefusesJob, RunsAreFine, TakesJob, chunk_work};
ghost use Rattle.grain_tasks.specs.Folds.{plain_fold};
ghost use Rattle.grain_tasks.specs.inside.Gathering.{AreChunkValues, EndWithChunks};

use crate::chunk::chunk_at;
use crate::chunk_values::ChunkValues;
use crate::errors::GrainError;
use crate::fold::Fold;
use join_words::Ins;
use journal_rules::Journal;
use nested_runs::{SpreadError, spread_net};
use outside_io::NoMemory;
use run_frame::{Answer, Done, FrameRun, Job, JobError, ValueRow, Valued};
use std::alloc::Global;
use std::marker::Model;
use std::sync::Arc;
use task_graph::Net;

/// A task for each chunk of a range, which folds the chunk. Contracts see it as a `ChunkWork`.
#[derive(Drop)]
pub struct ChunkJob<F: Fold> {
    net: Arc<Net>,
    fold: Arc<F>,
    count: u64,
    grain: u64,
}

impl<F: Fold> Model for ChunkJob<F> {
    ghost use Rattle.std.specs.Arc.{arc_value};
    ghost use Rattle.nested_runs.specs.Spreads.{IsSpreadNet};
    ghost use Rattle.grain_tasks.specs.ChunkWork.{ChunkWork, IsChunkWork, chunk_work, task_count};

    ghost Value = { ChunkWork F };

    ghost view = { λ job. chunk_work (arc_value job.fold) job.count job.grain };

    ghost invariant = { λ job. IsChunkWork F.folding (chunk_work (arc_value job.fold) job.count job.grain)
        × IsSpreadNet (task_count (chunk_work (arc_value job.fold) job.count job.grain)) (arc_value job.net) };
}

impl<F: Fold + Drop> ChunkJob<F> {
    /// The job of the first `count` indices of a fold, in chunks of `grain` indices each; the last chunk may have
    /// fewer.
    pub fn new(
        alloc: Global,
        fold: Arc<F>,
        count: u64,
        grain: u64,
    ) -> Result<ChunkJob<F>, GrainError>
        requires { count ≤ F.folding.count (arc_value fold) }
        ensures job { IfOk result (λ job. job ≡ chunk_work (arc_value fold) count grain) }
        ensures taken { OnOk result (TakesJob count grain) }
        ensures refused { IfErr result (RefusesJob count grain) }
    {
        if grain == 0 {
            return Err(GrainError::ZeroGrain);
        }
        let net = match spread_net(alloc, count.div_ceil(grain)) {
            Ok(net) => net,
            Err(SpreadError::TooWide(chunks)) => return Err(GrainError::TooMany(chunks)),
            Err(SpreadError::NoMemory) => return Err(GrainError::NoMemory),
        };
        let net = Arc::new(alloc, net)?;
        Ok(ChunkJob {
            net,
            fold,
            count,
            grain,
        })
    }
}

impl<F: Fold> Valued for ChunkJob<F>
where
    F::V: Send + Sync,
{
    type V = F::V;
}

impl<F: Fold + Send + Sync> Job for ChunkJob<F>
where
    F::V: Send + Sync,
{
    ghost use Rattle.grain_tasks.specs.ChunkWork.{IsChunkWork, chunk_job};
    ghost use Rattle.grain_tasks.specs.JobLaws.{chunk_answers_fit, chunk_faults_own, chunk_gather_faults_own};

    ghost meaning = { chunk_job F.folding };

    ghost keeps = { IsChunkWork F.folding };

    fn net(&self) -> &Arc<Net> {
        &self.net
    }

    fn limit(&self) -> u64 {
        self.count.div_ceil(self.grain).max(1)
    }

    /// Folds the chunk of a task.
    fn run(
        &self,
        alloc: Global,
        task: u32,
        _ins: &Ins<F::V>,
    ) -> Result<Done<ChunkJob<F>>, JobError> {
        let chunk = chunk_at(self.count, self.grain, task as u64);
        match self.fold.fold_chunk(alloc, chunk) {
            Ok(value) => Ok(Done::Value(value, Answer::All)),
            Err(NoMemory) => Err(JobError::NoMemory),
        }
    }

    /// Joins what the tasks ended with, in the order of their chunks: the plain fold.
    fn gather(&self, alloc: Global, run: &FrameRun<ChunkJob<F>>) -> Result<F::V, JobError> {
        match gathered(
            alloc,
            &*self.fold,
            self.count,
            self.grain,
            &run.journal,
            run.values.as_slice(),
        ) {
            Ok(value) => Ok(value),
            Err(NoMemory) => Err(JobError::NoMemory),
        }
    }

    ghost answers_fit = { chunk_answers_fit F.folding };

    ghost faults_own = { chunk_faults_own F.folding };

    ghost gather_faults_own = { chunk_gather_faults_own F.folding };
}

/// Nothing is cut short in a legal and complete run of a job of static chunks.
pub fn runs_of_chunks_are_fine<F: Fold>(fold: &F)
    ensures { RunsAreFine F.folding }
{
    let _fold = fold;
}

// Joins what the tasks of a run ended with, in the order of their chunks.
fn gathered<F: Fold>(
    alloc: Global,
    fold: &F,
    count: u64,
    grain: u64,
    journal: &Journal,
    rows: &[ValueRow<F::V>],
) -> Result<F::V, NoMemory>
    requires some { 1 ≤ grain }
    requires within { count ≤ F.folding.count fold.now }
    requires ends { EndWithChunks F.folding fold.now count grain journal.now rows.now }
    ensures { IfOk result (λ v. v ≡ plain_fold F.folding fold.now count) }
{
    let values = ChunkValues::of(alloc, journal, rows, count.div_ceil(grain) as usize)?;
    join_values(alloc, fold, count, grain, &values)
}

// Joins the folds of all chunks, in order.
#[tactic(auto, using(crate::proofs::GatherLemmas::joined_none, crate::proofs::GatherLemmas::joined_next))]
fn join_values<F: Fold>(
    alloc: Global,
    fold: &F,
    count: u64,
    grain: u64,
    values: &ChunkValues<F::V>,
) -> Result<F::V, NoMemory>
    requires some { 1 ≤ grain }
    requires within { count ≤ F.folding.count fold.now }
    requires values { AreChunkValues F.folding fold.now count grain values.now }
    ensures { IfOk result (λ v. v ≡ plain_fold F.folding fold.now count) }
{
    let mut value = fold.unit(alloc)?;
    for task in 0..count.div_ceil(grain) {
        let Some(next) = values.get(task as usize) else {
            unreachable!()
        };
        value = fold.join(alloc, value, next)?;
    }
    Ok(value)
}
