// Passes of callers.
ghost use Rattle.std.specs.Prelude.{◌≡◌};
ghost use Rattle.desk_book.specs.Books.{with_items};
ghost use Rattle.desk_book.specs.States.{with_book};
ghost use Rattle.desk_book.specs.Passes.{HasLooked, IsTicketOf};

use crate::outstanding::Outstanding;
use crate::state::DeskState;
use nested_runs::Recurs;
use std::marker::Model;
use tickets::{Register, Ticket};

/// A caller's pass to a desk. It has seen some of the desk's history, and in it all asks of its caller.
#[derive(Drop)]
pub struct DeskPass {
    pub(crate) caller: u32,
    pub(crate) ticket: Option<Ticket<Outstanding>>,
}

impl Model for DeskPass {
    ghost use Rattle.desk_book.specs.Passes.{PassState, pass_state, IsHeld};

    ghost Value = { PassState };

    ghost view = { λ p. pass_state p.caller p.ticket };

    ghost invariant = { λ p. IsHeld p.caller p.ticket };
}

impl DeskPass {
    /// It looks at its desk, whose lock is taken.
    pub(crate) fn look<J: Recurs + Drop>(
        &mut self,
        state: &mut DeskState<J>,
        register: &Register<Outstanding>,
    )
        requires register { state.old.book.register ≡ register.now }
        requires ticket { IsTicketOf register.now self.old.ticket }
        ensures desk { state.new ≡ with_book state.old state.new.book }
        ensures book { state.new.book ≡ with_items state.old.book state.new.book.items }
        ensures looked { HasLooked register.now state.old.book.history self.old self.new }
    {
        let Some(ticket) = self.ticket.take() else {
            unreachable!()
        };
        self.ticket = Some(state.look(register, ticket, self.caller));
    }
}
