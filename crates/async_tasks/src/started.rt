// Open starts.
use crate::outstanding::Outstanding;
use crate::work::AsyncWork;
use outside_io::List;
use std::marker::Model;
use std::sync::Arc;
use tickets::Ticket;

/// A start that has no end, with its task's work and what it found. Who drops it leaves the start open for good.
#[derive(Drop)]
pub struct Started<W: AsyncWork> {
    pub(crate) ticket: Ticket<Outstanding<W, W::V>>,
    pub(crate) task: u32,
    pub(crate) work: Arc<W>,
    pub(crate) ins: List<Arc<W::V>>,
}

impl<W: AsyncWork> Model for Started<W> {
    ghost use Rattle.std.specs.Prelude.{map};
    ghost use Rattle.std.specs.Arc.{arc_value};
    ghost use Rattle.async_tasks.specs.Starts.{OpenStart, open_start, IsTicketFor};

    ghost Value = { OpenStart W W.V };

    ghost view = { λ s. open_start s.ticket.register s.task (arc_value s.work)
        (map arc_value s.ins) };

    ghost invariant = { λ s. IsTicketFor s.task (arc_value s.work) (map arc_value s.ins)
        s.ticket.item };
}

/// The work of a start and what it found, which are left when it has ended.
#[derive(Drop)]
pub struct Carried<W: AsyncWork> {
    pub work: Arc<W>,
    pub ins: List<Arc<W::V>>,
}
