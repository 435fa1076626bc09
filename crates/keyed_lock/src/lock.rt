// The lock and its calls.
ghost use Rattle.std.specs.Prelude.{◌≡◌, ◌∷◌, [], IfOk, IfErr, Some, None};
ghost use Rattle.keyed_lock.specs.declared.lock.TheConstants.{WORDS};

use crate::keyed::Keyed;
use crate::rule::{Enters, Gives, HasKey, Takes};
use atomic_table::{Refused, Seat, Table};
use outside_io::Back;
use std::alloc::Global;
use std::hint::spin_loop;
use std::snapshot::Snapshot;
use std::sync::Wait;

// The words of the table. Only the one in the middle is used, so that no other data is on its cache line.
const WORDS: usize = 16;

const WORD: usize = 8;

// What the word says.
const FREE: u64 = 0;

const TAKEN: u64 = 1;

const AWAITED: u64 = 2;

// The slot.
const SLOT: usize = 0;

// How often a caller looks at the word before it sleeps.
const LOOKS: u32 = 100;

/// A value that one caller at a time has.
#[derive(Drop)]
pub struct KeyedLock<T: Keyed> {
    table: Table<Option<T>, Snapshot<T>, Snapshot<T>, HasKey, Global>,
    ghost words: { table.shared.table_id.words ≡ WORDS },
}

/// The right to put a value into its lock, while the lock has none. It has no bytes.
#[derive(Drop)]
pub struct LockPass<T: Keyed> {
    seat: Seat<Option<T>, Snapshot<T>>,
}

/// A value that is out of its lock, with the pass to put it back. Who drops it leaves the lock without a value,
/// and whoever takes that lock then waits for ever.
#[derive(Drop)]
pub struct Held<T: Keyed> {
    pub value: T,
    pub pass: LockPass<T>,
}

impl<T: Keyed + Drop> KeyedLock<T> {
    ghost use Rattle.keyed_lock.specs.Locks.{made_with};

    /// A lock with this value, which comes back if an allocation fails.
    pub fn new(alloc: Global, value: T) -> Result<KeyedLock<T>, Back<T>>
        ensures ok { IfOk result (λ lock. made_with lock ≡ value) }
        ensures back { IfErr result (λ back. back.item ≡ value) }
    {
        let first = Snapshot::of(&value);
        let mut slots = match Vec::with_capacity(alloc, 1) {
            Ok(slots) => slots,
            Err(_) => return Err(Back { item: value }),
        };
        slots.push_reserved(Some(value));
        match Table::new(alloc, &[FREE; WORDS], slots, &first) {
            Ok((table, _)) => Ok(KeyedLock { table }),
            Err(refused) => Err(Back {
                item: only_slot(refused),
            }),
        }
    }
}

impl<T: Keyed> KeyedLock<T> {
    ghost use Rattle.keyed_lock.specs.Locks.{made_with, IsLockPass};
    ghost use Rattle.keyed_lock.specs.inside.Rule.{HasValue, TakesIfFree};

    /// Takes the value out, as soon as it is there. The value has the lock's key. It may wait.
    pub fn take<R: Wait>(&self, rt: &R) -> Held<T>
        ensures key { T.key result.value ≡ T.key (made_with self.now) }
        ensures pass { IsLockPass self.now result.pass }
    {
        let shared = &self.table.shared;
        let (_, mut seat) = shared.load_new_seat::<Enters>(WORD);
        if self.take_unmarked(&mut seat) == FREE {
            return self.take_out(seat);
        }
        self.look_for_free();
        if self.take_unmarked(&mut seat) == FREE {
            return self.take_out(seat);
        }
        // Who is about to sleep marks the word, and so does who has slept, since others may sleep still.
        for _ in rt.forever() {
            if shared.swap::<Takes>(&mut seat, WORD, AWAITED) == FREE {
                return self.take_out(seat);
            }
            shared.park(rt, WORD, AWAITED as u32);
            self.look_for_free();
        }
        unreachable!()
    }

    /// Puts the value back, and wakes a caller who sleeps for it.
    pub fn put(&self, held: Held<T>)
        requires key { T.key held.value ≡ T.key (made_with self.now) }
        requires pass { IsLockPass self.now held.pass }
    {
        let shared = &self.table.shared;
        let Held { value, pass } = held;
        let LockPass { mut seat } = pass;
        let before = shared.exchange(&mut seat, SLOT, Some(value));
        let None = before else { unreachable!() };
        if shared.swap::<Gives>(&mut seat, WORD, FREE) == AWAITED {
            shared.wake_one(WORD);
        }
    }

    // Takes the lock if the word is `FREE`, and says what the word was. It leaves no mark, so that `put` wakes nobody.
    fn take_unmarked(&self, seat: &mut Seat<Option<T>, Snapshot<T>>) -> u64
        requires table { seat.old.table_id ≡ self.now.table.shared.table_id }
        requires first { seat.old.me ≡ (self.now.table.shared.key, []) }
        ensures table { seat.new.table_id ≡ seat.old.table_id }
        ensures taken { TakesIfFree T.key seat.old.me result seat.new.me }
    {
        self.table
            .shared
            .compare_exchange::<Takes>(seat, WORD, FREE, TAKEN)
    }

    // Empties the slot, which the seat holds.
    fn take_out(&self, mut seat: Seat<Option<T>, Snapshot<T>>) -> Held<T>
        requires table { seat.table_id ≡ self.now.table.shared.table_id }
        requires value { HasValue T.key (made_with self.now) seat.me.1 }
        ensures key { T.key result.value ≡ T.key (made_with self.now) }
        ensures pass { IsLockPass self.now result.pass }
    {
        let value = self.table.shared.exchange(&mut seat, SLOT, None);
        let Some(value) = value else { unreachable!() };
        Held {
            value,
            pass: LockPass { seat },
        }
    }

    // Looks at the word a few times, while it is taken and nobody sleeps for it.
    fn look_for_free(&self) {
        for _ in 0..LOOKS {
            if self.table.shared.peek(WORD) != TAKEN {
                return;
            }
            spin_loop();
        }
    }
}

// The value in the one slot of a table that was not made.
fn only_slot<T: Drop>(refused: Refused<Option<T>, Global>) -> T
    requires { (value : T) × (refused.slots.items ≡ Some value ∷ []) }
    ensures { refused.slots.items ≡ Some result ∷ [] }
{
    let Refused { mut slots } = refused;
    let Some(Some(value)) = slots.pop() else {
        unreachable!()
    };
    value
}
