// Workers whose folds wait for one another: workers that don't draw at the same time never meet.
use grain_tasks::{Fold, reduce_drawn};
use outside_io::NoMemory;
use std::alloc::Global;
use std::sync::atomic::AtomicU64;
use std::sync::atomic::Ordering::SeqCst;
use std::test::Fail;
use std::thread::yield_now;

// How often a fold looks for the other.
const LOOKS: u32 = 10_000_000;

// A fold of two indices, whose values wait for one another. Each is 1.
#[derive(Drop)]
struct Gates {
    come: AtomicU64,
    met: AtomicU64,
}

impl Gates {
    fn meet(&self) {
        self.come.fetch_add(1, SeqCst);
        for _ in 0..LOOKS {
            if self.come.load(SeqCst) >= 2 {
                self.met.fetch_add(1, SeqCst);
                return;
            }
            yield_now();
        }
    }
}

impl Fold for Gates {
    ghost use Rattle.test_grains.specs.Gates.{counting, counting_lawful};

    type V = u64;

    ghost folding = { counting };

    fn count(&self) -> u64 {
        2
    }

    fn unit(&self, _alloc: Global) -> Result<u64, NoMemory> {
        Ok(0)
    }

    fn at(&self, _alloc: Global, _index: u64) -> Result<u64, NoMemory> {
        self.meet();
        Ok(1)
    }

    fn join(&self, _alloc: Global, left: u64, right: &u64) -> Result<u64, NoMemory> {
        Ok(left.saturating_add(*right))
    }

    ghost lawful = { counting_lawful };
}

#[test]
fn two_workers_draw_at_once(rt: HostRuntime) -> Result<(), Fail> {
    let gates = Gates {
        come: AtomicU64::new(0),
        met: AtomicU64::new(0),
    };
    assert!(rt; matches!(reduce_drawn(&rt, rt.alloc(), 2, &gates, 2, 1), Ok(2)));
    assert_eq!(rt; gates.met.load(SeqCst), 2);
    Ok(())
}
