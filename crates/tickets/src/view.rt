// What the seats of a register know, its rule, and what its steps tell.
use atomic_table::{Join, Play, Split, TableRule};
use std::collections::LinkedList;

/// What a seat knows. No value of it is made.
pub enum View<X> {
    /// What is outstanding, by number. A number whose item is not outstanding any more has `None`.
    Book(LinkedList<Option<X>>),
    /// The book, and the item that is to be issued next.
    Issuing(LinkedList<Option<X>>, X),
    /// The book, and a ticket that came back: its number and its item.
    Redeeming(LinkedList<Option<X>>, u64, X),
    /// A ticket: its number and its item.
    Ticket(u64, X),
    /// A ticket that was redeemed.
    Spent,
}

/// There is one book, and each outstanding item is named by one ticket.
pub struct Registered;

impl<X> TableRule<X, View<X>, ()> for Registered {
    ghost use Rattle.std.specs.Prelude.{[]};
    ghost use Rattle.tickets.specs.declared.view.View.TheVariants.{Book};
    ghost use Rattle.tickets.specs.inside.Views.{AreViewsOfOneBook};

    ghost holds = { λ _ s. AreViewsOfOneBook s.views };

    ghost first = { λ _. Book [] };
}

/// The book is told an item.
pub struct Notes;

impl<X> Play<X, View<X>> for Notes {
    ghost use Rattle.tickets.specs.inside.Views.{NotesItem};

    ghost then = { NotesItem };
}

/// The item is issued: it is in the book, and a new seat is its ticket.
pub struct Issues;

impl<X> Split<View<X>> for Issues {
    ghost use Rattle.tickets.specs.inside.Views.{book_issued, ticket_issued};

    ghost left = { book_issued };

    ghost right = { ticket_issued };
}

/// The book takes a ticket in.
pub struct TakesIn;

impl<X> Join<View<X>> for TakesIn {
    ghost use Rattle.tickets.specs.declared.view.View.TheVariants.{Spent};
    ghost use Rattle.tickets.specs.inside.Views.{with_ticket};

    ghost both = { with_ticket };

    ghost spent = { Spent };
}

/// The ticket's item was outstanding, and isn't any more.
pub struct Settles;

impl<X> Play<X, View<X>> for Settles {
    ghost use Rattle.tickets.specs.inside.Views.{SettlesTicket};

    ghost then = { SettlesTicket };
}
