// Chunks that are drawn from a row, and folds by workers that draw them.
ghost use Rattle.std.specs.Prelude.{◌≡◌, ◌≤◌};

use crate::listings::{doubles, visits};
use crate::samples::{Doubles, Sum, Visits};
use grain_tasks::{Chunk, ChunkRow, Draw, Drawn, Fold, GrainError, RowParts, reduce_drawn};
use outside_io::{List, NoMemory};
use std::alloc::Global;
use std::test::Fail;
use std::thread::Threads;

// The chunks that the one seat of a row draws, the first ten at most.
fn first_chunks(alloc: Global, count: u64, grain: u64) -> Result<Vec<Chunk>, GrainError>
    requires count { count ≤ 1099511627776 }
    requires grain { grain ≤ 1000000 }
{
    let RowParts { row, mut draws } = ChunkRow::new(alloc, count, grain, 1)?;
    chunks_of(alloc, &row, draws.remove(0))
}

fn chunks_of(alloc: Global, row: &ChunkRow, mut draw: Draw) -> Result<Vec<Chunk>, GrainError>
    requires { draw.row ≡ row.now }
{
    let mut chunks = Vec::new(alloc);
    for _ in 0..10 {
        match row.draw(draw) {
            Drawn::Chunk(next, chunk) => {
                chunks.push(chunk)?;
                draw = next;
            }
            Drawn::Empty(_drained) => return Ok(chunks),
        }
    }
    Ok(chunks)
}

fn is_list(found: Result<List<u64>, GrainError>, wanted: &[u64]) -> bool {
    match found {
        Ok(list) => list.as_slice() == wanted,
        Err(_error) => false,
    }
}

#[test]
fn one_seat_draws_all_chunks(rt: HostRuntime) -> Result<(), Fail> {
    let five = [
        Chunk { from: 0, to: 2 },
        Chunk { from: 2, to: 4 },
        Chunk { from: 4, to: 5 },
    ];
    assert!(rt;
        matches!(first_chunks(rt.alloc(), 5, 2), Ok(chunks) if chunks.as_slice() == five.as_slice())
    );
    assert!(rt; matches!(first_chunks(rt.alloc(), 0, 2), Ok(chunks) if chunks.is_empty()));
    assert!(rt; matches!(first_chunks(rt.alloc(), 5, 0), Err(GrainError::ZeroGrain)));
    Ok(())
}

// The numbers below a count.
fn numbers_below(alloc: Global, count: u64) -> Result<List<u64>, NoMemory> {
    let mut numbers = List::new(alloc);
    for number in 0..count {
        numbers.push(number)?;
    }
    Ok(numbers)
}

// A case: how many indices, how many a chunk has, and how many workers.
#[derive(Clone, Copy)]
struct Case {
    count: u64,
    grain: u64,
    workers: u32,
}

// The sum of the numbers below a case's count by its workers, and the indices in the order in which they visit
// them. There is none where the case is out of range.
fn found_by<R: Threads + Sync>(rt: &R, alloc: Global, case: Case) -> Option<(u64, List<u64>)> {
    let Case {
        count,
        grain,
        workers,
    } = case;
    let fold = Sum {
        numbers: numbers_below(alloc, count).ok()?,
    };
    if workers == 0 || workers > 16 || grain > 1_000_000 || fold.count() > 1_000_000 {
        return None;
    }
    let sum = reduce_drawn(rt, alloc, workers, &fold, fold.count(), grain).ok()?;
    let count = fold.count();
    let seen = visits(rt, alloc, workers, &Visits { count }, grain).ok()?;
    Some((sum, seen))
}

#[test]
fn workers_fold_as_one_thread_does(rt: HostRuntime) -> Result<(), Fail> {
    for (count, grain, workers) in [
        (0, 1, 1),
        (1, 1_000_000, 16),
        (3, 2, 16),
        (5, 2, 2),
        (100, 1, 4),
        (1_000, 7, 3),
        (1_000, 1_000, 2),
    ] {
        let wanted = numbers_below(rt.alloc(), count)?;
        let case = Case {
            count,
            grain,
            workers,
        };
        match found_by(&rt, rt.alloc(), case) {
            Some((sum, seen)) => {
                assert_eq!(rt;
                    sum.wrapping_mul(2),
                    count.wrapping_mul(count.saturating_sub(1))
                );
                assert!(rt; seen.as_slice() == wanted.as_slice(), "{count} {grain}");
            }
            None => assert!(rt; false, "{count} {grain}"),
        }
    }
    Ok(())
}

#[test]
fn two_workers_transform_in_order(rt: HostRuntime) -> Result<(), Fail> {
    let numbers = List::from_slice(rt.alloc(), &[4u32, 1, 4_294_967_295])?;
    let list = doubles(&rt, rt.alloc(), 2, &Doubles { numbers }, 1);
    let wanted = [8u64, 2, 8_589_934_590];
    assert!(rt; is_list(list, &wanted));
    Ok(())
}
