// New desks, with their passes.
ghost use Rattle.std.specs.Prelude.{◌≡◌, ◌≤◌, [], All, IfOk, length, map};
ghost use Rattle.std.specs.Arc.{arc_value};
ghost use Rattle.desk_book.specs.Desks.{AreFirstPasses, ArePassesOf, caller_limit, graph_limit};
ghost use Rattle.desk_book.specs.States.{key_of};

use crate::desk::Desk;
use crate::opening::Opening;
use crate::outstanding::Outstanding;
use crate::pass::DeskPass;
use crate::state::DeskState;
use keyed_lock::KeyedLock;
use nested_runs::Recurs;
use outside_io::NoMemory;
use std::alloc::Global;
use std::sync::Arc;
use tickets::Register;

/// How many graphs a desk may have.
pub const MAX_GRAPHS: usize = 64;

/// How many callers a desk may have.
pub const MAX_CALLERS: u32 = 64;

/// A new desk, with a pass for each caller, at the caller's place.
#[derive(Drop)]
pub struct DeskParts<J: Recurs + Drop> {
    pub desk: Desk<J>,
    pub passes: Vec<DeskPass>,
}

impl<J: Recurs + Drop> Desk<J> {
    /// A desk where nobody has asked, for 1 to `MAX_GRAPHS` jobs, one for each graph, and 1 to `MAX_CALLERS` callers.
    pub fn new(alloc: Global, jobs: Vec<Arc<J>>, callers: u32) -> Result<DeskParts<J>, NoMemory>
        requires jobs { (1 ≤ length jobs.items) × (length jobs.items ≤ graph_limit) }
        requires recurs { All J.may_recur (map arc_value jobs.items) }
        requires callers { (1 ≤ callers) × (callers ≤ caller_limit) }
        ensures jobs { IfOk result (λ parts. parts.desk.jobs ≡ map arc_value jobs.items) }
        ensures callers { IfOk result (λ parts. parts.desk.callers ≡ callers) }
        ensures passes { IfOk result (λ parts. ArePassesOf parts.desk parts.passes.items) }
    {
        let Opening {
            register,
            mut state,
        } = DeskState::new(alloc, &jobs, callers)?;
        let passes = open_passes(alloc, &register, &mut state, callers)?;
        let lock = KeyedLock::new(alloc, state)?;
        let desk = Desk {
            register,
            lock,
            jobs,
        };
        Ok(DeskParts { desk, passes })
    }
}

// A pass for each caller of a new desk.
#[tactic(auto, using(crate::proofs::Beginning::register_of, crate::proofs::Beginning::passes_push))]
fn open_passes<J: Recurs + Drop>(
    alloc: Global,
    register: &Register<Outstanding>,
    state: &mut DeskState<J>,
    callers: u32,
) -> Result<Vec<DeskPass>, NoMemory>
    requires register { state.old.book.register ≡ register.now }
    requires none { state.old.book.items ≡ [] }
    ensures key { key_of state.new ≡ key_of state.old }
    ensures passes { IfOk result (λ passes. (length passes.items ≡ callers)
        × AreFirstPasses register.now passes.items) }
{
    let mut passes = Vec::new(alloc);
    for caller in 0..callers {
        let ticket = Some(state.open_pass(register, caller));
        passes.push(DeskPass { caller, ticket })?;
    }
    Ok(passes)
}
