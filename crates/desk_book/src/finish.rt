// The end of a desk.
ghost use Rattle.std.specs.Prelude.{◌≡◌, ◌<◌, IsSomeAnd, length, slice_get, slice_set};
ghost use Rattle.desk_book.specs.Desks.{ArePassesOf};
ghost use Rattle.desk_book.specs.Finishes.{IsFinished};
ghost use Rattle.desk_book.specs.Books.{with_items};
ghost use Rattle.desk_book.specs.States.{with_book};
ghost use Rattle.desk_book.specs.Passes.{AllLooked, HasLooked, HaveSeen, HaveTickets, PassState};

use crate::desk::Desk;
use crate::desk_run::DeskRun;
use crate::outstanding::Outstanding;
use crate::pass::DeskPass;
use crate::state::DeskState;
use keyed_lock::Held;
use nested_runs::Recurs;
use std::sync::Wait;
use tickets::Register;

/// What finishing a desk came to.
#[derive(Drop)]
pub enum DeskEnd<J: Recurs + Drop> {
    /// Each ask ended: what the desk came to.
    Done(DeskRun<J>),
    /// The first ask that has not ended, with the desk and its passes.
    Open(Desk<J>, Vec<DeskPass>, u64),
}

impl<J: Recurs + Drop> Desk<J> {
    /// Finishes the desk, if each ask has ended. It takes no memory, and may wait. `Open` is returned exactly if an ask
    /// has not ended. It carries the first such ask, and each pass has looked and has seen that it is the first.
    pub fn finish<R: Wait>(self, rt: &R, passes: Vec<DeskPass>) -> DeskEnd<J>
        requires { ArePassesOf self passes.items }
        ensures { IsFinished J.Job.meaning self passes.items result }
    {
        let mut passes = passes;
        let Held {
            value: mut state,
            pass,
        } = self.lock.take(rt);
        if let Some(ask) = state.first_unended() {
            look_all(&mut state, &self.register, &mut passes);
            self.lock.put(Held { value: state, pass });
            return DeskEnd::Open(self, passes, ask);
        }
        close_all(&mut state, &self.register, passes);
        DeskEnd::Done(state.into_run())
    }
}

// Each pass looks at the desk.
fn look_all<J: Recurs + Drop>(
    state: &mut DeskState<J>,
    register: &Register<Outstanding>,
    passes: &mut Vec<DeskPass>,
)
    requires register { state.old.book.register ≡ register.now }
    requires passes { HaveTickets register.now passes.old.items }
    ensures desk { state.new ≡ with_book state.old state.new.book }
    ensures book { state.new.book ≡ with_items state.old.book state.new.book.items }
    ensures each { AllLooked register.now state.old.book.history passes.old.items passes.new.items }
{
    for at in 0..passes.len() {
        look_at(state, register, passes, at);
    }
}

// The pass at a place looks at the desk.
fn look_at<J: Recurs + Drop>(
    state: &mut DeskState<J>,
    register: &Register<Outstanding>,
    passes: &mut Vec<DeskPass>,
    at: usize,
)
    requires register { state.old.book.register ≡ register.now }
    requires passes { HaveTickets register.now passes.old.items }
    requires at { at < length passes.old.items }
    ensures desk { state.new ≡ with_book state.old state.new.book }
    ensures book { state.new.book ≡ with_items state.old.book state.new.book.items }
    ensures there { IsSomeAnd (slice_get passes.old.items at) (λ old.
        (new : PassState) × (passes.new.items ≡ slice_set passes.old.items at new)
        × HasLooked register.now state.old.book.history old new) }
{
    let pass = &mut passes[at];
    pass.look(state, register);
}

// Takes the tickets of all passes back for good.
fn close_all<J: Recurs + Drop>(
    state: &mut DeskState<J>,
    register: &Register<Outstanding>,
    passes: Vec<DeskPass>,
)
    requires register { state.old.book.register ≡ register.now }
    requires passes { HaveTickets register.now passes.items }
    ensures desk { state.new ≡ with_book state.old state.new.book }
    ensures book { state.new.book ≡ with_items state.old.book state.new.book.items }
    ensures seen { HaveSeen state.old.book.history passes.items }
{
    let mut left = passes;
    while let Some(pass) = left.pop() {
        state.close(register, pass);
    }
}
