//! Tests of the parts that the program is made of. There is nothing here but tests.
//!
//! Each module has the tests of one crate: lists, texts and sinks of `outside_io`, what starts find of `join_words`,
//! journals of `journal_text` and operations of `text_ops`. A case is a line of a table, whose bytes are written as
//! `fields.rt` says, and one function walks all cases of a table.
//!
//! Those of `keyed_lock`, `tickets` and `ready_deques` have real threads and show what no clause says: that no turn
//! under a lock is lost, that what was left under a lock is found there, that each item of a ready list is taken once,
//! and that an owner that sleeps is woken. That of `semaphore_park` parks numbers and wakes them, in written orders.
#![tactic(auto)]

#[cfg(test)]
mod fields;
#[cfg(test)]
mod idle_owners;
#[cfg(test)]
mod ins;
#[cfg(test)]
mod journals;
#[cfg(test)]
mod locked_numbers;
#[cfg(test)]
mod numbers;
#[cfg(test)]
mod operation_cases;
#[cfg(test)]
mod operations;
#[cfg(test)]
mod outside;
#[cfg(test)]
mod parked_numbers;
#[cfg(test)]
mod ready_items;
#[cfg(test)]
mod shared_books;
