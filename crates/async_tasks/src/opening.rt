// The state of a new book.
ghost use Rattle.std.specs.Prelude.{◌≡◌, [], IfOk};
ghost use Rattle.async_tasks.specs.Books.{book_key, key_of};

use crate::outstanding::Outstanding;
use crate::state::BookState;
use crate::work::AsyncWork;
use tickets::Register;

/// The state of a new book, with the table of its tickets.
#[derive(Drop)]
pub struct Opening<W: AsyncWork> {
    pub register: Register<Outstanding<W, W::V>>,
    pub state: BookState<W>,
}
