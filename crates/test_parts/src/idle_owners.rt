// `ready_deques`: an owner that sleeps is woken.
ghost use Rattle.std.specs.Prelude.{◌≡◌, []};

use crate::numbers::{Number, next_owner};
use ready_deques::{Owner, Ready, Shares};
use std::hint::spin_loop;
use std::sync::Wait;
use std::sync::atomic::AtomicU64;
use std::sync::atomic::Ordering::SeqCst;
use std::test::Fail;
use std::thread::{Threads, join, yield_now};

// What one owner shows to the thread that wakes it.
#[derive(Drop)]
struct Shown {
    // The items that it took and the closings that it found.
    seen: AtomicU64,
    // 1 while it is idle, else 0.
    idle: AtomicU64,
}

// Waits until a word has this value, and then a little longer, so that an owner that is idle falls asleep.
fn await_word<R: Wait>(rt: &R, word: &AtomicU64, value: u64) {
    for _ in rt.forever() {
        if word.load(SeqCst) == value {
            break;
        }
        yield_now();
    }
    for _ in 0..1000u32 {
        spin_loop();
    }
}

// Takes items in turn with closings, up to an item 0. It is idle between.
fn serve<R: Wait>(rt: &R, ready: &Ready<Number>, mut owner: Owner<Number>, shown: &Shown) {
    for _ in rt.forever() {
        match owner.take(rt) {
            Some(Number(0)) => return,
            Some(_) => {
                shown.seen.fetch_add(1, SeqCst);
            }
            None if ready.is_closed() => {
                // The closing after this item, once.
                if shown.seen.load(SeqCst) % 2 == 1 {
                    shown.seen.fetch_add(1, SeqCst);
                }
            }
            None => {
                shown.idle.store(1, SeqCst);
                owner.idle(rt);
                shown.idle.store(0, SeqCst);
            }
        }
    }
}

// Pushes an item and closes the list, a thousand times, each as soon as the other thread has seen the last and sleeps.
fn wake<R: Wait>(rt: &R, ready: &Ready<Number>, mut owner: Owner<Number>, shown: &Shown) -> bool
    requires { owner.tag ≡ [] }
{
    for round in 0..1000u64 {
        await_word(rt, &shown.idle, 1);
        if owner.push(rt, Number(1)).is_err() {
            return false;
        }
        await_word(rt, &shown.seen, 2 * round + 1);
        await_word(rt, &shown.idle, 1);
        ready.close();
        await_word(rt, &shown.seen, 2 * round + 2);
        ready.reopen();
    }
    owner.push(rt, Number(0)).is_ok()
}

fn wake_and_serve<R: Threads + Wait + Sync>(
    rt: &R,
    ready: &Ready<Number>,
    first: Owner<Number>,
    second: Owner<Number>,
) -> bool
    requires { second.tag ≡ [] }
{
    let shown = Shown {
        seen: AtomicU64::new(0),
        idle: AtomicU64::new(0),
    };
    let shown = &shown;
    join(
        rt,
        move || serve(rt, ready, first, shown),
        move ||
            requires { second.tag ≡ [] }
        { wake(rt, ready, second, shown) },
    )
    .1
}

#[test]
fn an_idle_owner_is_woken(rt: HostRuntime) -> Result<(), Fail> {
    let Shares { ready, mut owners } = Ready::<Number>::new(rt.alloc(), 2, &Number(0))?;
    let second = next_owner(&mut owners)?;
    let first = next_owner(&mut owners)?;
    assert!(rt; wake_and_serve(&rt, &ready, first, second));
    Ok(())
}
