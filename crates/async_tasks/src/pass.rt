// Passes of callers.
use crate::outstanding::Outstanding;
use crate::work::AsyncWork;
use std::marker::Model;
use tickets::Ticket;

/// A caller's pass to a book of tasks. It has seen some of the book's rows, and all that were added by it.
#[derive(Drop)]
pub struct Pass<W: AsyncWork> {
    pub(crate) caller: u32,
    pub(crate) ticket: Option<Ticket<Outstanding<W, W::V>>>,
}

impl<W: AsyncWork> Model for Pass<W> {
    ghost use Rattle.async_tasks.specs.Passes.{PassState, pass_state, IsHeld};

    ghost Value = { PassState W W.V };

    ghost view = { λ p. pass_state p.caller p.ticket };

    ghost invariant = { λ p. IsHeld p.caller p.ticket };
}
