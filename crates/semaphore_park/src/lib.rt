//! Yards, where what waits for a unit of a semaphore is parked, and woken first come first served.
//!
//! A worker that finds no unit of a semaphore doesn't wait for one: it parks what needs the unit, and goes on with
//! other work. Whoever gives a unit back wakes what was parked for it first. A yard has a queue for each semaphore, all
//! under one lock. Waking takes constant time and no memory, however much is parked. Parking does too, except where a
//! queue is full and doubles.
//!
//! # What can be parked
//!
//! An item is `Parkable`: it belongs to a home, as a turn belongs to its table, and waits for a unit of a semaphore.
//! What that means is a fact that its type chooses. A yard is made for one home. Whoever parks an item shows that it
//! waits there, and whoever wakes one learns it again, of that home and that semaphore. So nothing of another home is
//! woken, and no item for a unit that it doesn't need.
//!
//! # The protocol
//!
//! A unit can come back after it was looked for and before what needs it is parked. It isn't missed if
//!
//! - whoever finds no unit takes the yard's lock, looks again, and parks under this same lock if there is still none;
//! - whoever gives a unit back does so first, and then takes the lock and wakes an item of that semaphore.
//!
//! The second look comes after the unit is back, or the waking after the item is parked. That callers keep to it is not
//! for this crate to prove.
//!
//! # What the layer above knows
//!
//! A yard is seen as its home and a list of items for each semaphore, the first to be woken in front (`YardView`).
//! Parking adds to one list, at its end (`park_in`) or in front (`park_first`), waking takes the first of one
//! (`wake_in`), and all other lists stay. Items are moved, so none is doubled, and an item for which there is no memory
//! is handed back. These words are in `specs/Parking.antt`.
//!
//! While others may have the lock nothing is known of the lists, but what is woken later waits as above, and the yard
//! keeps its key: its home and the number of its semaphores. A yard is known by the view with which it was opened
//! (`opened_as`), and its passes by `IsYardPass`, both in `specs/Yards.antt`.
#![tactic(auto)]

mod parkable;
mod queue;
mod state;
mod yard;

pub use parkable::Parkable;
pub use state::YardState;
pub use yard::ParkYard;
