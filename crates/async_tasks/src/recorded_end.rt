// Ends that were recorded.
use crate::outstanding::Outstanding;
use crate::work::AsyncWork;
use std::marker::Model;
use tickets::Ticket;

/// The end of a task as its book recorded it, for who ended the task. A book gives one for each end.
#[derive(Drop)]
pub struct RecordedEnd<W: AsyncWork> {
    pub(crate) ticket: Ticket<Outstanding<W, W::V>>,
    pub(crate) task: u32,
    pub(crate) place: u64,
}

impl<W: AsyncWork> Model for RecordedEnd<W> {
    ghost use Rattle.async_tasks.specs.Starts.{EndRecord, end_record, IsEndAt};

    ghost Value = { EndRecord };

    ghost view = { λ e. end_record e.ticket.register e.task e.place };

    ghost invariant = { λ e. IsEndAt e.task e.place e.ticket.item };
}
