// `push` and `take_own` of a ready list.
ghost use Rattle.std.specs.Prelude.{◌≡◌, [], All};

use super::{THREADS, TURNS, nanos_each};
use ready_deques::{Owner, Ready, Shares, Tagged};
use std::alloc::{AllocError, Global};
use std::io;
use std::sync::Wait;
use std::thread::{Threads, for_each_mut};
use std::time::{Clock, Instant};

/// An item of any list without a tag.
#[derive(Drop)]
struct Item {
    _number: u32,
}

impl Tagged for Item {
    ghost use Rattle.std.specs.Prelude.{[]};

    ghost tag = { λ _. [] };
}

fn push_and_take<R: Wait>(rt: &R, owner: &mut Owner<Item>, number: u32)
    requires { owner.old.tag ≡ [] }
    ensures { owner.new.tag ≡ [] }
{
    let _ = owner.push(rt, Item { _number: number });
    let _ = owner.take_own();
}

fn push_and_take_often<R: Wait>(rt: &R, owner: &mut Owner<Item>)
    requires { owner.old.tag ≡ [] }
{
    for number in 0..TURNS {
        push_and_take(rt, owner, number);
    }
}

/// A `push` with its `take_own`, by so many of the owners of one list side by side.
pub fn pushes<R: Threads + Wait + Clock + Sync>(
    rt: &R,
    alloc: Global,
    threads: usize,
) -> io::Result<u64> {
    let Ok(Shares { ready, mut owners }) = Ready::new(alloc, THREADS as u32, &Item { _number: 0 })
    else {
        return Err(AllocError.into());
    };
    let _ = ready;
    owners.truncate(threads);
    timed(rt, &mut owners)
}

fn timed<R: Threads + Wait + Clock + Sync>(rt: &R, owners: &mut [Owner<Item>]) -> io::Result<u64>
    requires { All (λ owner. owner.tag ≡ []) owners.old }
{
    let start = Instant::now(rt)?;
    for_each_mut(
        rt,
        owners,
        THREADS,
        &|_, owner|
            requires { owner.old.tag ≡ [] }
        { push_and_take_often(rt, owner) },
    );
    nanos_each(rt, start)
}
