//! Tickets for what is outstanding under a lock.
//!
//! A caller who lets go of a lock and takes it again must know that what it left behind is still there: that a run
//! which it found closed hasn't been handed out, say. It can't look, since others had the lock meanwhile. So what is
//! outstanding is in a book, which lies under the lock, and each outstanding item is named by one ticket, which its
//! owner carries. A ticket can be redeemed once, and whoever redeems it learns that its item was outstanding until now.
//! The items mean nothing to this crate.
//!
//! # The protocol
//!
//! A register is a table of `atomic_table` whose words say nothing. What counts are the views of its seats, which have
//! no bytes: the book is the seat that knows what is outstanding, by number, and a ticket is a seat that knows a number
//! and its item. So a book may have any number of outstanding items, and costs nothing for them.
//!
//! - `issue` tells the book the item by a compare-exchange, which alone can say a value to a step, and then splits the
//!   book's view into the longer book and the ticket of the new number.
//! - `redeem` joins the ticket's view into the book's, which spends it, and then loads a word. At that load the rule
//!   shows that the item was outstanding, and from then on it isn't.
//!
//! The rule of the table says that there is one book, that each ticket names what is outstanding there, and that each
//! outstanding item is named by one ticket. So a ticket can't be redeemed at another register or twice, and what it was
//! issued for can't be gone before.
//!
//! The layer above sees a register as the name of its table, a book as a `BookState` and a ticket as a `TicketState`,
//! both in `specs/Books.antt`. A ticket that is dropped leaves its item outstanding for good.
#![tactic(auto)]

mod register;
mod view;

pub use register::{Book, Register, Ticket};
