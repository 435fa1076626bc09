// Registers, books and tickets.
ghost use Rattle.std.specs.Prelude.{◌≡◌, ◌++◌, ◌∷◌, [], length, IfOk, Some, None, slice_get, slice_set};
ghost use Rattle.tickets.specs.Books.{book_state, ticket_state};

use crate::view::{Issues, Notes, Registered, Settles, TakesIn, View};
use atomic_table::{Seat, Table};
use outside_io::NoMemory;
use std::alloc::Global;
use std::marker::Model;

// The words of a register's table. Only the one in the middle is written, so that no other data is on its cache
// line. None ever changes.
const WORDS: usize = 16;

const WORD: usize = 8;

/// The table that one book and its tickets share.
#[derive(Drop)]
pub struct Register<X> {
    table: Table<X, View<X>, (), Registered, Global>,
}

impl<X> Model for Register<X> {
    ghost use Rattle.std.specs.Prelude.{◌≡◌};
    ghost use Rattle.atomic_table.specs.Seated.{TableId, table_id_coded};

    ghost Value = { TableId };

    ghost coded = { table_id_coded };

    ghost view = { λ register. register.table.shared.table_id };

    ghost invariant = { λ register. register.table.shared.table_id.words ≡ 16 };
}

/// What is outstanding at a register. It has no bytes.
#[derive(Drop)]
pub struct Book<X> {
    seat: Seat<X, View<X>>,
}

impl<X> Model for Book<X> {
    ghost use Rattle.std.specs.Prelude.{◌≡◌, []};
    ghost use Rattle.tickets.specs.Books.{BookState, book_state};
    ghost use Rattle.tickets.specs.inside.Views.{book_view, items_of};

    ghost Value = { BookState X };

    ghost view = { λ book. book_state book.seat.table_id (items_of book.seat.me.0) };

    ghost invariant = { λ book. book.seat.me ≡ (book_view (items_of book.seat.me.0), []) };
}

/// The right to one outstanding item, with the item.
#[derive(Drop)]
pub struct Ticket<X> {
    item: X,
    seat: Seat<X, View<X>>,
}

impl<X> Model for Ticket<X> {
    ghost use Rattle.std.specs.Prelude.{◌≡◌, []};
    ghost use Rattle.tickets.specs.Books.{TicketState, ticket_state};
    ghost use Rattle.tickets.specs.inside.Views.{ticket_view, view_number};

    ghost Value = { TicketState X };

    ghost view = { λ ticket. ticket_state ticket.seat.table_id (view_number ticket.seat.me.0)
        ticket.item };

    ghost invariant = { λ ticket. ticket.seat.me
        ≡ (ticket_view (view_number ticket.seat.me.0) ticket.item, []) };
}

impl<X> Register<X> {
    /// A register with its book, in which nothing is outstanding.
    pub fn new(alloc: Global) -> Result<(Register<X>, Book<X>), NoMemory>
        ensures { IfOk result (λ made. made.1 ≡ book_state made.0 []) }
    {
        let (table, seat) = Table::of_words(alloc, &[0; WORDS], &())?;
        Ok((Register { table }, Book { seat }))
    }

    /// Writes an item into the book, under the next number, and gives the ticket for it.
    pub fn issue(&self, book: &mut Book<X>, item: X) -> Ticket<X>
        requires { book.old.register ≡ self.now }
        ensures book { book.new ≡ book_state self.now (book.old.items ++ Some item ∷ []) }
        ensures ticket { result ≡ ticket_state self.now (length book.old.items) item }
    {
        let shared = &self.table.shared;
        shared.compare_exchange_with::<Notes>(&mut book.seat, WORD, 0, 0, &item);
        let seat = shared.split_seat::<Issues>(&mut book.seat);
        Ticket { item, seat }
    }

    /// Takes a ticket back. Its item was outstanding until now, and isn't any more.
    pub fn redeem(&self, book: &mut Book<X>, ticket: Ticket<X>) -> X
        requires book { book.old.register ≡ self.now }
        requires ticket { ticket.register ≡ self.now }
        ensures item { result ≡ ticket.item }
        ensures outstanding { slice_get book.old.items ticket.number ≡ Some (Some ticket.item) }
        ensures book { book.new
            ≡ book_state self.now (slice_set book.old.items ticket.number None) }
    {
        let shared = &self.table.shared;
        let Ticket { item, seat } = ticket;
        shared.join_seat::<TakesIn>(&mut book.seat, seat);
        shared.load::<Settles>(&mut book.seat, WORD);
        item
    }
}

impl<X> Ticket<X> {
    /// What it is for.
    pub fn item(&self) -> &X
        ensures { result.now ≡ self.now.item }
    {
        &self.item
    }
}
