//! The ready items of a group of workers, who steal from each other.
//!
//! Each worker owns a deque. It pushes what it makes ready there and takes the newest first, so that it goes on with
//! what is still in its caches. Who finds its own deque empty takes the oldest item that came from outside, and then
//! the oldest of another worker's deque. No item is lost or doubled on the way, and each is of the list that it is
//! taken from. No lock lies on the way of an item that its own worker pushes and takes.
//!
//! # The deques
//!
//! A list has a deque of `crossbeam_deque` for each owner, with a stealer for each other owner, and one more for items
//! from outside, whose own end lies under a lock and from which all owners steal. All of them follow one rule
//! (`HoldsQueued`): each item has the list's tag, numbers that say where it belongs, and carries a seat that holds one
//! count of the list's count word. A deque is bound to its list by the first step on it, which gives its passes the
//! list's name: its tag and the table of its count word. Whoever pushes shows that the item fits the name, and whoever
//! takes one learns that it does.
//!
//! # Each item once
//!
//! The calls that push and take are generic in an item's type, of which they don't know that it is `Drop` or `Clone`.
//! Types are linear, so the body of such a call can't drop an item, forget it or double it: an item that comes in goes
//! into a deque of the list or back to the caller, and an item that leaves a deque goes into one again or to the
//! caller. The type is `Drop` only where a list is made, or is dropped with the items that are still queued.
//!
//! # The count word and the spare counts
//!
//! A table of `atomic_table` has the count word and, for each owner, a word of spare counts. Its rule (`Counted`) says
//! that the count word is the number of counts that the seats hold and of those that are spare. So the count word is
//! never below the number of queued items.
//!
//! - A push first gets a seat with one count, and then queues the item with that seat. The count is one that the owner
//!   has to spare, and the count word stays as it is; an owner with none to spare raises the count word by one. If
//!   neither the owner's deque nor the one for items from outside takes the item, the caller has the item again, and
//!   the count is spare. A push from outside always raises the word, and lowers it again if it is refused.
//! - An owner that takes an item, of its own or of another, adds the count of the item's seat to its own spare counts
//!   and leaves the count word alone. So owners that push and take their own items write no word in common.
//! - A `take` that finds no item first gathers the spare counts of all owners, from each word into its own seat, and
//!   takes them out of the count word. Only then it loads the count word. So an owner that is busy with an item keeps
//!   no other from `None`. A load that finds 0 is counted in the owner's account. So where `take` answers `None`, no
//!   seat held a count at a step of that call, and since each queued item holds one, none was queued.
//!
//! An owner raises the count word by a sum, which never fails when other owners do the same. So that the sum can't
//! wrap, each owner's account has room, which was cut from a first account of 2^62 and is spent by each such push.
//! Without room, and from outside, the word is raised by a compare-exchange from a number below 2^62. A word of spare
//! counts is raised by a sum too, and can't wrap since it is at most the count word.
//!
//! # The sleepers
//!
//! An owner that finds nothing may sleep in `idle`. It puts itself into the set of sleepers, then looks at the count
//! word and at the mark of closing once more, and only then parks. A push has the item's count before it looks at that
//! set, and the count word is not 0 while the item is queued. So an owner that enters the set before the push looks is
//! there to be woken, and one that enters later finds a count word that is not 0. The push takes one owner out of the
//! set and unparks it; where the set is empty it makes no call to the system. `close` sets its mark and unparks all.
//! An owner may be unparked without a reason, and then looks in vain. Where nothing but spare counts keeps the count
//! word above 0, `idle` returns at once, and the next `take` gathers them. That a wake arrives, and that workers
//! steal, is shown by tests and not proved.
//!
//! The count word, each word of spare counts and the set of sleepers lie on cache lines of their own, since pushes and
//! takes write them.
//!
//! The layer above sees a list by its tag (`tag_of`), and an owner as an `OwnerState`: the tag of its list, the table
//! of its count word, and how many of its loads found 0. The definitions are in `specs/Lists.antt`.
#![tactic(auto)]

mod about;
mod count;
mod deque;
mod owner;
mod ready;
mod shares;
mod sleepers;
mod stealer;
mod tagged;

pub use count::MAX_WORKERS;
pub use owner::Owner;
pub use ready::Ready;
pub use shares::Shares;
pub use tagged::Tagged;
