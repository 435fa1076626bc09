// `semaphore_park`: in which order what is parked is woken.
ghost use Rattle.std.specs.Prelude.{◌≡◌, IfOk};
ghost use Rattle.semaphore_park.specs.Parking.{yard_key};
ghost use Rattle.semaphore_park.specs.Yards.{opened_as};
ghost use Rattle.test_parts.specs.declared.parked_numbers.TheConstants.{SEMS};

use keyed_lock::Held;
use semaphore_park::{ParkYard, Parkable, YardState};
use std::alloc::Global;
use std::sync::Wait;
use std::test::Fail;

/// A number, which may wait on any semaphore.
#[derive(Clone, Copy, Debug, PartialEq, Eq)]
struct Waiter(u32);

impl Parkable for Waiter {
    type Home = ();

    ghost waits_at = { λ _ _ _. Unit {0} };
}

const SEMS: usize = 3;

/// A call, and its answer.
#[derive(Clone, Copy)]
enum Call {
    /// A number is parked behind all others on a semaphore.
    Last(u32, u32),
    /// It is parked before all others.
    First(u32, u32),
    /// A number is woken, or there is none.
    Wake(u32, Option<u32>),
    /// So many are parked.
    Count(u32, usize),
}

use Call::{Count, First, Last, Wake};

const CASES: [(&str, &[Call]); 5] = [
    (
        "woken as they were parked",
        &[
            Last(0, 1),
            Last(0, 2),
            Last(0, 3),
            Wake(0, Some(1)),
            Wake(0, Some(2)),
            Wake(0, Some(3)),
            Wake(0, None),
        ],
    ),
    (
        "parked in front, woken first",
        &[
            Last(1, 2),
            First(1, 1),
            Last(1, 3),
            Wake(1, Some(1)),
            Wake(1, Some(2)),
            Wake(1, Some(3)),
        ],
    ),
    (
        "each semaphore has its own",
        &[
            Last(0, 1),
            Last(2, 2),
            Last(0, 3),
            Count(0, 2),
            Count(1, 0),
            Count(2, 1),
            Wake(2, Some(2)),
            Wake(2, None),
            Wake(1, None),
            Wake(0, Some(1)),
            Wake(0, Some(3)),
        ],
    ),
    (
        "parked again before the others",
        &[
            Last(0, 1),
            Last(0, 2),
            Wake(0, Some(1)),
            First(0, 1),
            Count(0, 2),
            Wake(0, Some(1)),
            Last(0, 1),
            Wake(0, Some(2)),
            Wake(0, Some(1)),
            Count(0, 0),
        ],
    ),
    (
        "nothing is parked",
        &[Count(0, 0), Count(2, 0), Wake(0, None), Wake(2, None)],
    ),
];

// Whether a call has its answer.
fn is_answered(state: &mut YardState<Waiter>, call: Call) -> bool
    requires { (yard_key state.old).sems ≡ SEMS }
    ensures { yard_key state.new ≡ yard_key state.old }
{
    let (Last(sem, _) | First(sem, _) | Wake(sem, _) | Count(sem, _)) = call;
    if sem as usize >= SEMS {
        return false;
    }
    match call {
        Last(sem, number) => state.park_in(sem, Waiter(number)).is_ok(),
        First(sem, number) => state.park_first(sem, Waiter(number)).is_ok(),
        Wake(sem, woken) => state.wake_in(sem) == woken.map(Waiter),
        Count(sem, count) => state.count(sem) == count,
    }
}

// The same, by a caller who takes the lock for it.
fn is_answered_locked<R: Wait>(rt: &R, yard: &ParkYard<Waiter>, call: Call) -> bool
    requires { (yard_key (opened_as yard.now)).sems ≡ SEMS }
{
    let Held { mut value, pass } = yard.lock(rt);
    let answered = is_answered(&mut value, call);
    yard.unlock(Held { value, pass });
    answered
}

fn opened(alloc: Global) -> Result<ParkYard<Waiter>, Fail>
    ensures { IfOk result (λ yard. (yard_key (opened_as yard)).sems ≡ SEMS) }
{
    Ok(ParkYard::new(alloc, SEMS, &())?)
}

#[test]
fn are_woken_in_order(rt: HostRuntime) -> Result<(), Fail> {
    for (name, calls) in &CASES {
        let yard = opened(rt.alloc())?;
        for (i, call) in calls.iter().enumerate() {
            assert!(rt; is_answered_locked(&rt, &yard, *call), "{name}: call {i}");
        }
    }
    Ok(())
}
