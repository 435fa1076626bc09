// Folds.
ghost use Rattle.std.specs.Prelude.{◌≡◌, ◌<◌, ◌≤◌, IfOk};
ghost use Rattle.grain_tasks.specs.Chunks.{JoinsChunks, chunk_fold};
ghost use Rattle.grain_tasks.specs.Folds.{Folding, IsLawful};

use crate::chunk::Chunk;
use outside_io::NoMemory;
use std::alloc::Global;

/// A value for each index of a range, and a join by which they are put together.
pub trait Fold {
    /// The type of the values.
    type V: Drop;

    /// What folds of this type compute.
    ghost folding: { Folding Self Self.V };

    /// How many indices it has.
    fn count(&self) -> u64
        ensures { result ≡ folding.count self.now };

    /// The value of no index.
    fn unit(&self, alloc: Global) -> Result<Self::V, NoMemory>
        ensures { IfOk result (λ v. v ≡ folding.unit self.now) };

    /// The value at an index.
    fn at(&self, alloc: Global, index: u64) -> Result<Self::V, NoMemory>
        requires { index < folding.count self.now }
        ensures { IfOk result (λ v. v ≡ folding.at self.now index) };

    /// Joins two allowed values, of which the left one is of lower indices. A list that is the left one can be added
    /// to.
    fn join(&self, alloc: Global, left: Self::V, right: &Self::V) -> Result<Self::V, NoMemory>
        requires left { folding.allowed self.now left }
        requires right { folding.allowed self.now right.now }
        ensures { IfOk result (λ v. v ≡ folding.join self.now left right.now) };

    /// The unit joined with the values at the indices of a chunk, in order: one by one, unless a fold of this type
    /// knows a faster way.
    #[tactic(auto, using(crate::proofs::FoldLemmas::fold_from_more, crate::proofs::FoldLemmas::fold_from_none))]
    fn fold_chunk(&self, alloc: Global, chunk: Chunk) -> Result<Self::V, NoMemory>
        requires order { chunk.from ≤ chunk.to }
        requires within { chunk.to ≤ folding.count self.now }
        ensures { IfOk result (λ v. v ≡ chunk_fold folding self.now chunk) }
    {
        let mut value = self.unit(alloc)?;
        for index in chunk.from..chunk.to {
            value = self.join(alloc, value, &self.at(alloc, index)?)?;
        }
        Ok(value)
    }

    /// Each fold keeps the laws.
    ghost lawful: { (f : Self) → IsLawful folding f };
}

/// However a range is cut into chunks, their folds, joined in the order of the chunks, are the fold of the range.
pub fn chunks_join<F: Fold>(fold: &F)
    ensures { JoinsChunks F.folding fold.now }
{
    let _fold = fold;
}
