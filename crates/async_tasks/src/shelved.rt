// The state of a book as its lock has it.
ghost use Rattle.std.specs.Prelude.{◌≡◌, ◌<◌, ℕ, true, length, IfOk};
ghost use Rattle.async_tasks.specs.Runs.{IsAsyncRun};
ghost use Rattle.async_tasks.specs.inside.Ready.{is_over};

use crate::run::AsyncRun;
use crate::state::BookState;
use crate::work::AsyncWork;
use keyed_lock::Keyed;
use outside_io::NoMemory;
use std::alloc::Global;

/// The state of a book at one place in memory, so that whoever takes the lock and puts it back copies only where it is.
#[derive(Drop)]
pub struct Shelved<W: AsyncWork> {
    pub state: Box<BookState<W>>,
}

impl<W: AsyncWork> Keyed for Shelved<W> {
    ghost use Rattle.async_tasks.specs.Books.{BookKey, key_of};

    ghost Key = { BookKey };

    ghost key = { λ shelved. key_of shelved.state.value };
}

impl<W: AsyncWork> Shelved<W> {
    pub fn new(alloc: Global, state: BookState<W>) -> Result<Shelved<W>, NoMemory>
        ensures { IfOk result (λ shelved. shelved.state.value ≡ state) }
    {
        let state = Box::new(alloc, state)?;
        Ok(Shelved { state })
    }

    /// The run, where each task ended.
    pub fn into_run(self) -> AsyncRun<W>
        requires { (t : ℕ) → t < length self.state.value.stages
            → is_over self.state.value.stages t ≡ true }
        ensures run { IsAsyncRun W.answers self.state.value.callers result }
        ensures adds { result.adds ≡ self.state.value.rows }
    {
        Box::into_inner(self.state).into_run()
    }
}
