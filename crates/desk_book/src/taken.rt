// Asks that were taken.
ghost use Rattle.std.specs.Prelude.{◌≡◌};
ghost use Rattle.desk_book.specs.Taking.{open_ask};

use crate::entry::Ask;
use crate::outstanding::Outstanding;
use std::marker::Model;
use tickets::Ticket;

/// An ask that was taken and has not ended. While it is there no other ask of its graph is taken; who drops it leaves
/// the graph busy for good.
#[derive(Drop)]
pub struct Taken {
    pub(crate) ticket: Ticket<Outstanding>,
    pub(crate) ask: Ask,
}

impl Model for Taken {
    ghost use Rattle.std.specs.Prelude.{◌≡◌};
    ghost use Rattle.desk_book.specs.declared.outstanding.Outstanding.TheVariants.{Running};
    ghost use Rattle.desk_book.specs.Taking.{OpenAsk, open_ask};

    ghost Value = { OpenAsk };

    ghost view = { λ t. open_ask t.ticket.register t.ask };

    ghost invariant = { λ t. t.ticket.item ≡ Running t.ask };
}

impl Taken {
    /// The ask.
    pub fn ask(&self) -> Ask
        ensures { result ≡ self.now.ask }
    {
        self.ask
    }
}
