// The order in which tokens pass the first pipe.
ghost use Rattle.std.specs.Prelude.{◌≡◌, ◌≤◌, length, IfOk};
ghost use Rattle.pipe_lines.specs.DeferRows.{AreDeferRows, token_limit};
ghost use Rattle.pipe_lines.specs.Orders.{IsOrder, passed_at};

use crate::deferral::DeferRow;
use crate::passing::pass_all;
use crate::waits::Waits;
use outside_io::{List, NoMemory};
use std::alloc::Global;

/// The tokens that pass, in their order, and the least that never does.
#[derive(Drop)]
pub struct Order {
    pub passed: List<u64>,
    pub unmet: Option<u64>,
}

/// What is at a place of the order: a token that passes, the end, or the end of those that pass with the least token
/// that never does.
#[derive(Clone, Copy, Debug, PartialEq, Eq)]
pub enum Passed {
    Token(u64),
    Stop,
    Unmet(u64),
}

impl Order {
    /// What is at a place. Behind the last token it is the same at each.
    pub fn at(&self, place: u64) -> Passed
        ensures { result ≡ passed_at self.now place }
    {
        match self.passed.get(place as usize) {
            Some(token) => Passed::Token(*token),
            None => match self.unmet {
                Some(token) => Passed::Unmet(token),
                None => Passed::Stop,
            },
        }
    }
}

/// The order in which so many tokens pass, of which these are deferred. It takes time in proportion to the tokens and
/// rows.
pub fn pass_order(alloc: Global, tokens: u64, defers: &[DeferRow]) -> Result<Order, NoMemory>
    requires tokens { tokens ≤ token_limit }
    requires defers { AreDeferRows defers.now }
    ensures order { IfOk result (IsOrder tokens defers.now) }
    ensures few { IfOk result (λ order. length order.passed ≤ tokens) }
{
    let waits = Waits::new(alloc, tokens, defers)?;
    let (passed, unmet) = pass_all(alloc, &waits)?.into_parts();
    Ok(Order { passed, unmet })
}
