// Chunks of a range of indices.
ghost use Rattle.std.specs.Prelude.{◌≡◌, ◌<◌, ◌≤◌};
ghost use Rattle.grain_tasks.specs.Chunks.{chunk_at, chunk_count};

/// The indices from one up to another, which is the first that isn't among them.
#[derive(Clone, Copy, Debug, PartialEq, Eq)]
pub struct Chunk {
    pub from: u64,
    pub to: u64,
}

// The chunk at a place, of the chunks of so many indices each into which a range is cut.
#[tactic(auto, using(crate::proofs::ChunkLemmas::place_below))]
pub(crate) fn chunk_at(count: u64, grain: u64, place: u64) -> Chunk
    requires some { 1 ≤ grain }
    requires place { place < chunk_count count grain }
    ensures chunk { result ≡ chunk_at count grain place }
    ensures order { result.from ≤ result.to }
    ensures within { result.to ≤ count }
{
    let from = place * grain;
    Chunk {
        from,
        to: from + grain.min(count - from),
    }
}
