// Numbers drawn one after another.
ghost use Rattle.std.specs.Prelude.{◌≡◌, IfOk};
ghost use Rattle.graph_generator.specs.Draws.{next_state};
ghost use Rattle.graph_generator.specs.inside.Drawn.{draws};

use outside_io::{List, NoMemory};
use std::alloc::Global;

// A draw is the state divided by this, its upper 31 bits.
const LOWER_BITS: u64 = 8_589_934_592;

/// So many draws from this seed.
pub(crate) fn draws_from(alloc: Global, seed: u64, count: usize) -> Result<List<u64>, NoMemory>
    ensures { IfOk result (λ list. list ≡ draws seed count) }
{
    let mut draws = List::with_room(alloc, count)?;
    let mut state = seed;
    for _number in 0..count {
        state = next_state(state);
        draws.push(state / LOWER_BITS)?;
    }
    Ok(draws)
}

fn next_state(state: u64) -> u64
    ensures { result ≡ next_state state }
{
    state
        .wrapping_mul(6_364_136_223_846_793_005)
        .wrapping_add(1_442_695_040_888_963_407)
}
