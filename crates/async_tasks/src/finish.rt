// The end of a book.
ghost use Rattle.std.specs.Prelude.{◌≡◌};
ghost use Rattle.async_tasks.specs.AsyncBooks.{ArePassesOf};
ghost use Rattle.async_tasks.specs.Adds.{with_items};
ghost use Rattle.async_tasks.specs.Passes.{HaveLooked};
ghost use Rattle.async_tasks.specs.Finishes.{HaveSeen, HaveTickets, IsFinished};

use crate::book::AsyncBook;
use crate::outstanding::Outstanding;
use crate::pass::Pass;
use crate::run::AsyncRun;
use crate::state::BookState;
use crate::work::AsyncWork;
use keyed_lock::Held;
use std::snapshot::Snapshot;
use std::sync::Wait;
use tickets::Register;

/// What finishing a book came to.
#[derive(Drop)]
pub enum Finished<W: AsyncWork> {
    /// Each task ended: the run.
    Done(AsyncRun<W>),
    /// A task that has no end, with the book and its passes, which have seen all rows. `found` has no bytes: it is the
    /// book's history at that moment, for contracts.
    Open {
        book: AsyncBook<W>,
        passes: Vec<Pass<W>>,
        task: u32,
        found: Snapshot<BookState<W>>,
    },
}

impl<W: AsyncWork> AsyncBook<W> {
    /// Ends the book, if each of its tasks ended. It takes no memory, and may wait. `Open` has a task without an end,
    /// and is returned exactly where there is one. A book that is open can be added to, stepped and finished as before.
    pub fn finish<R: Wait>(self, rt: &R, mut passes: Vec<Pass<W>>) -> Finished<W>
        requires { ArePassesOf self passes.items }
        ensures { IsFinished W.answers self passes.items result }
    {
        let Held {
            value: mut shelved,
            pass,
        } = self.lock.take(rt);
        let Some(task) = shelved.state.first_open() else {
            close_all(&mut shelved.state, &self.register, passes);
            return Finished::Done(shelved.into_run());
        };
        look_with_all(&mut shelved.state, &self.register, &mut passes);
        let found = Snapshot::of(&*shelved.state);
        self.lock.put(Held {
            value: shelved,
            pass,
        });
        Finished::Open {
            book: self,
            passes,
            task,
            found,
        }
    }
}

// Looks into the book with each of these passes.
fn look_with_all<W: AsyncWork>(
    state: &mut BookState<W>,
    register: &Register<Outstanding<W, W::V>>,
    passes: &mut [Pass<W>],
)
    requires register { state.old.register ≡ register.now }
    requires passes { HaveTickets register.now passes.old }
    ensures book { state.new ≡ with_items state.old state.new.items }
    ensures tickets { HaveTickets register.now passes.new }
    ensures looked { HaveLooked state.old.rows passes.old passes.new }
{
    for pass in passes.iter_mut() {
        state.look(register, pass);
    }
}

// Takes the tickets of all passes back for good.
fn close_all<W: AsyncWork>(
    state: &mut BookState<W>,
    register: &Register<Outstanding<W, W::V>>,
    passes: Vec<Pass<W>>,
)
    requires register { state.old.register ≡ register.now }
    requires passes { HaveTickets register.now passes.items }
    ensures book { state.new ≡ with_items state.old state.new.items }
    ensures seen { HaveSeen state.old.rows passes.items }
{
    let mut left = passes;
    while let Some(pass) = left.pop() {
        state.close(register, pass);
    }
}
