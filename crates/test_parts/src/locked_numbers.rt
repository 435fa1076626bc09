// `keyed_lock` with threads that raise one number.
use keyed_lock::{Held, KeyedLock};
use std::sync::Wait;
use std::test::Fail;
use std::thread::{Threads, for_each_mut};

const TURNS: u32 = 100_000;

// Raises the number under the lock by one, so many times.
fn raise_often<R: Wait>(rt: &R, lock: &KeyedLock<u64>) {
    for _ in 0..TURNS {
        let Held { value, pass } = lock.take(rt);
        lock.put(Held {
            value: value.wrapping_add(1),
            pass,
        });
    }
}

fn raise_together<R: Threads + Wait + Sync>(rt: &R, lock: &KeyedLock<u64>) {
    let mut threads = [0u8; 4];
    for_each_mut(rt, &mut threads, 4, &|_, _| raise_often(rt, lock));
}

#[test]
fn no_turn_of_four_threads_is_lost(rt: HostRuntime) -> Result<(), Fail> {
    let lock = KeyedLock::new(rt.alloc(), 0u64)?;
    raise_together(&rt, &lock);
    assert_eq!(rt; lock.take(&rt).value, 400_000);
    Ok(())
}
