// A place in the order in which tokens pass.
ghost use Rattle.std.specs.Prelude.{◌≡◌, ◌≤◌, IfOk};
ghost use Rattle.pipe_lines.specs.DeferRows.{AreDeferRows, token_limit};
ghost use Rattle.pipe_lines.specs.Gates.{after_pass};
ghost use Rattle.pipe_lines.specs.Orders.{IsOrder, passed_at};

use crate::deferral::DeferRow;
use crate::order::{Order, Passed, pass_order};
use outside_io::NoMemory;
use std::alloc::Global;
use std::marker::Model;
use std::sync::Arc;

/// The gate before the first pipe: the order in which tokens pass, which a gate shares with its copies, and how many
/// have passed.
#[derive(Drop)]
pub struct Gate {
    order: Arc<Order>,
    place: u64,
}

impl Model for Gate {
    ghost use Rattle.pipe_lines.specs.Gates.{GateView};

    ghost Value = { GateView };

    ghost use Rattle.std.specs.Arc.{arc_value};

    ghost view = { λ gate. record { order = arc_value gate.order; place = gate.place } };

    ghost use Rattle.std.specs.Prelude.{length, ◌≤◌};
    ghost use Rattle.pipe_lines.specs.DeferRows.{token_limit};

    ghost invariant = { λ gate. length (arc_value gate.order).passed ≤ token_limit };
}

impl Gate {
    /// The gate that so many tokens are to pass, of which these are deferred. None has passed yet.
    pub fn new(alloc: Global, tokens: u64, defers: &[DeferRow]) -> Result<Gate, NoMemory>
        requires tokens { tokens ≤ token_limit }
        requires defers { AreDeferRows defers.now }
        ensures order { IfOk result (λ gate. IsOrder tokens defers.now gate.order) }
        ensures place { IfOk result (λ gate. gate.place ≡ 0) }
    {
        let order = pass_order(alloc, tokens, defers)?;
        Ok(Gate {
            order: Arc::new(alloc, order)?,
            place: 0,
        })
    }

    /// Lets the next token pass, if one does. It takes no memory. After Stop or Unmet each further call returns the
    /// same.
    pub fn pass(&mut self) -> Passed
        ensures answer { result ≡ passed_at self.old.order self.old.place }
        ensures after { self.new ≡ after_pass self.old }
    {
        let passed = self.order.at(self.place);
        if let Passed::Token(_) = passed {
            self.place += 1;
        }
        passed
    }

    /// Another gate at the same place.
    pub fn copy(&self) -> Result<Gate, NoMemory>
        ensures { IfOk result (λ gate. gate ≡ self.now) }
    {
        Ok(Gate {
            order: self.order.clone()?,
            place: self.place,
        })
    }
}
