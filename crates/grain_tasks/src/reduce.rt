// Folds by several workers, each of which draws chunks.
ghost use Rattle.std.specs.Prelude.{◌≡◌, ◌+◌, ◌<◌, ◌≤◌, [], All, IfOk, IfErr, OnOk, map, vec_len};
ghost use Rattle.std.specs.List.Sorted.{IsNonDecreasingBy, IsPermutation};
ghost use Rattle.grain_tasks.specs.Chunks.{HaveEachOnce};
ghost use Rattle.grain_tasks.specs.Folds.{joined, plain_fold};
ghost use Rattle.grain_tasks.specs.Rows.{RefusesRow};
ghost use Rattle.grain_tasks.specs.inside.Folding.{AreAllowed, AreFoldedParts, IsFoldedBy, begin_of, chunks_in, value_in};

use crate::chunk::Chunk;
use crate::errors::GrainError;
use crate::fold::Fold;
use crate::row::{ChunkRow, Drained, Draw, Drawn, RowParts};
use outside_io::NoMemory;
use std::alloc::Global;
use std::thread::{Threads, map_vec};

// A chunk with its fold.
#[derive(Drop)]
pub(crate) struct Part<V> {
    pub(crate) chunk: Chunk,
    pub(crate) value: V,
}

// What seats drew, with the folds of their chunks.
#[derive(Drop)]
pub(crate) struct Folded<V> {
    pub(crate) drained: Drained,
    pub(crate) parts: Vec<Part<V>>,
}

// Draws and folds chunks until the row is drawn.
fn fold_draws<F: Fold>(
    alloc: Global,
    row: &ChunkRow,
    fold: &F,
    draw: Draw,
) -> Result<Folded<F::V>, NoMemory>
    requires row { draw.row ≡ row.now }
    requires fresh { draw.drawn ≡ [] }
    requires some { 1 ≤ row.now.shape.grain }
    requires within { row.now.shape.count ≤ F.folding.count fold.now }
    ensures { IfOk result (IsFoldedBy F.folding fold.now row.now 1) }
{
    let mut draw = draw;
    let mut parts = Vec::new(alloc);
    loop {
        match row.draw(draw) {
            Drawn::Chunk(next, chunk) => {
                let value = fold.fold_chunk(alloc, chunk)?;
                parts.push(Part { chunk, value })?;
                draw = next;
            }
            Drawn::Empty(drained) => return Ok(Folded { drained, parts }),
        }
    }
}

// Puts together what seats drew and folded.
fn put_together<F: Fold>(
    row: &ChunkRow,
    fold: &F,
    all: Folded<F::V>,
    next: Folded<F::V>,
) -> Result<Folded<F::V>, NoMemory>
    requires one { IsFoldedBy F.folding fold.now row.now 1 next }
    requires all { IsFoldedBy F.folding fold.now row.now all.drained.seats all }
    ensures { IfOk result (IsFoldedBy F.folding fold.now row.now (all.drained.seats + 1)) }
{
    let _fold = fold;
    let Folded { drained, mut parts } = all;
    let Folded {
        drained: other,
        parts: mut more,
    } = next;
    parts.append(&mut more)?;
    Ok(Folded {
        drained: row.gather(drained, other),
        parts,
    })
}

// Joins the folds of chunks that have each index once, in the order of their places.
fn join_parts<F: Fold>(
    alloc: Global,
    fold: &F,
    count: u64,
    mut parts: Vec<Part<F::V>>,
) -> Result<F::V, NoMemory>
    requires within { count ≤ F.folding.count fold.now }
    requires folded { AreFoldedParts F.folding fold.now count parts.items }
    requires whole { HaveEachOnce count (chunks_in parts.items) }
    ensures { IfOk result (λ v. v ≡ plain_fold F.folding fold.now count) }
{
    sort_parts(&mut parts)?;
    join_in_order(alloc, fold, parts.as_slice())
}

// Joins the folds of chunks, in order.
fn join_in_order<F: Fold>(alloc: Global, fold: &F, parts: &[Part<F::V>]) -> Result<F::V, NoMemory>
    requires { AreAllowed F.folding fold.now parts.now }
    ensures { IfOk result (λ v. v ≡ joined F.folding fold.now (map value_in parts.now)) }
{
    let mut value = fold.unit(alloc)?;
    for part in parts {
        value = fold.join(alloc, value, &part.value)?;
    }
    Ok(value)
}

// Puts parts in the order of their places.
fn sort_parts<V: Drop>(parts: &mut Vec<Part<V>>) -> Result<(), NoMemory>
    ensures same { OnOk result (IsPermutation parts.old.items parts.new.items) }
    ensures sorted { OnOk result (IsNonDecreasingBy begin_of parts.new.items) }
{
    parts.sort_by_key(|part| part.chunk.from)?;
    Ok(())
}

// Has each seat draw and fold chunks, by as many threads as can be made.
fn fold_all<R: Threads + Sync, F: Fold + Send + Sync>(
    rt: &R,
    alloc: Global,
    row: &ChunkRow,
    fold: &F,
    draws: Vec<Draw>,
) -> Result<Vec<Result<Folded<F::V>, NoMemory>>, NoMemory>
where
    F::V: Send,
    requires draws { All (λ d. (d.row ≡ row.now) × (d.drawn ≡ [])) draws.items }
    requires some { 1 ≤ row.now.shape.grain }
    requires within { row.now.shape.count ≤ F.folding.count fold.now }
    ensures len { IfOk result (λ rs. vec_len rs ≡ vec_len draws) }
    ensures each { IfOk result
        (λ rs. All (λ r. IfOk r (IsFoldedBy F.folding fold.now row.now 1)) rs.items) }
{
    let results = map_vec(
        rt,
        draws,
        &|draw: Draw| -> Result<Folded<F::V>, NoMemory>
            requires { (draw.row ≡ row.now) × (draw.drawn ≡ []) × (1 ≤ row.now.shape.grain)
                × (row.now.shape.count ≤ F.folding.count fold.now) }
            ensures { IfOk result (IsFoldedBy F.folding fold.entry.now row.entry.now 1) }
        { fold_draws(alloc, row, fold, draw) },
    )?;
    Ok(results)
}

// Puts together what all seats drew and folded.
fn gather_all<F: Fold>(
    row: &ChunkRow,
    fold: &F,
    mut results: Vec<Result<Folded<F::V>, NoMemory>>,
) -> Result<Folded<F::V>, NoMemory>
    requires any { 1 ≤ vec_len results }
    requires each { All (λ r. IfOk r (IsFoldedBy F.folding fold.now row.now 1)) results.items }
    ensures { IfOk result (IsFoldedBy F.folding fold.now row.now (vec_len results)) }
{
    let mut all = match results.pop() {
        Some(first) => first?,
        None => unreachable!(),
    };
    while let Some(next) = results.pop() {
        all = put_together(row, fold, all, next?)?;
    }
    Ok(all)
}

// So many chunks for each worker let a slow one take fewer. More of them take longer to draw, to begin and to join.
const CHUNKS_FOR_EACH: u64 = 64;

// How many indices are drawn at once: `grain`, or a multiple of it where there would be too many chunks. So each chunk
// begins where one of `grain` indices would. But where the multiple would be over 1,000,000 it is 1,000,000, which
// needn't be a multiple.
fn drawn_grain(count: u64, grain: u64, workers: u32) -> u64
    requires some { 1 ≤ workers }
    requires few { workers ≤ 16 }
    requires grain { (1 ≤ grain) × (grain ≤ 1000000) }
    ensures { (grain ≤ result) × (result ≤ 1000000) }
{
    let most = u64::from(workers) * CHUNKS_FOR_EACH;
    let least = count.div_ceil(most).min(1000000);
    let past = least % grain;
    if past == 0 {
        return grain.max(least);
    }
    grain.max((least - past + grain).min(1000000))
}

/// The fold of the first `count` indices by several workers, each of which draws chunks of at least `grain` indices,
/// and of more, up to 1,000,000, where there would be over 64 chunks for each worker: the plain fold, whatever the
/// grain and the workers are and however their turns fall.
pub fn reduce_drawn<R: Threads + Sync, F: Fold + Send + Sync>(
    rt: &R,
    alloc: Global,
    workers: u32,
    fold: &F,
    count: u64,
    grain: u64,
) -> Result<F::V, GrainError>
where
    F::V: Send,
    requires some { 1 ≤ workers }
    requires few { workers ≤ 16 }
    requires within { count ≤ F.folding.count fold.now }
    requires count { count ≤ 1099511627776 }
    requires grain { grain ≤ 1000000 }
    ensures value { IfOk result (λ v. v ≡ plain_fold F.folding fold.now count) }
    ensures taken { OnOk result (1 ≤ grain) }
    ensures refused { IfErr result (RefusesRow grain) }
{
    if grain == 0 {
        return Err(GrainError::ZeroGrain);
    }
    let drawn = drawn_grain(count, grain, workers);
    let RowParts { row, draws } = ChunkRow::new(alloc, count, drawn, workers)?;
    let results = fold_all(rt, alloc, &row, fold, draws)?;
    let folded = gather_all(&row, fold, results)?;
    let value = join_parts(alloc, fold, count, folded.parts)?;
    Ok(value)
}
