//! A lock whose value keeps its key.
//!
//! A `Mutex` gives out a value that is known by its type alone. Where several locks have values of one type, as
//! each run of a graph has a keeper, whoever takes a lock has to know that what it gets belongs there. So a value
//! has a key (`Keyed`), plain data that says where it belongs: a lock gives out only values with its key, and
//! takes back no other.
//!
//! # The protocol
//!
//! A lock is a table of `atomic_table` with one word in use and one slot. The word is `FREE` while the value is
//! in the slot, `TAKEN` while one caller has it, and `AWAITED` while one caller has it and others may sleep.
//!
//! - `take` turns `FREE` into `TAKEN` by a compare-exchange, and the caller who does so is the one who takes the
//!   value out of the slot. Whoever finds another word looks again for a short while, while nobody sleeps, and tries
//!   once more. Then it swaps in `AWAITED`: if it finds `FREE` there the value is its own, and otherwise it sleeps on
//!   the word. Who has slept takes the lock by that swap alone.
//! - `put` lays the value into the slot and swaps in `FREE`. If it finds `AWAITED` it wakes one sleeper, who swaps
//!   in `AWAITED` again, so that no other sleeper is forgotten. Where it finds `TAKEN` it makes no call to the system.
//!
//! The slot is read and written only by the caller who found `FREE`, up to its `put`: it holds the slot by its
//! pass, a token without bytes. The rule of the table says that a value in the slot has the lock's key.
//!
//! The layer above knows a lock by the value that it was made with (`made_with`), and a pass by the lock that it
//! is for (`IsLockPass`), both in `specs/Locks.antt`. It is not proved that a caller who waits is ever served.
#![tactic(auto)]

mod keyed;
mod lock;
mod rule;

pub use keyed::Keyed;
pub use lock::{Held, KeyedLock, LockPass};
