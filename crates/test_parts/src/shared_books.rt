// `tickets` with two threads that issue and redeem at one register, whose book lies under a lock.
ghost use Rattle.std.specs.Prelude.{◌≡◌};
ghost use Rattle.keyed_lock.specs.Locks.{made_with};

use keyed_lock::{Held, Keyed, KeyedLock};
use outside_io::NoMemory;
use std::sync::Wait;
use std::test::Fail;
use std::thread::{Threads, join};
use tickets::{Book, Register, Ticket};

#[derive(Drop)]
struct BookShelf {
    book: Book<u32>,
}

impl Keyed for BookShelf {
    ghost use Rattle.atomic_table.specs.Seated.{TableId};

    ghost Key = { TableId };

    ghost key = { λ shelf. shelf.book.register };
}

fn leave<R: Wait>(
    rt: &R,
    register: &Register<u32>,
    lock: &KeyedLock<BookShelf>,
    item: u32,
) -> Ticket<u32>
    requires { (made_with lock.now).book.register ≡ register.now }
    ensures register { result.register ≡ register.now }
    ensures item { result.item ≡ item }
{
    let Held { mut value, pass } = lock.take(rt);
    let ticket = register.issue(&mut value.book, item);
    lock.put(Held { value, pass });
    ticket
}

fn fetch<R: Wait>(
    rt: &R,
    register: &Register<u32>,
    lock: &KeyedLock<BookShelf>,
    ticket: Ticket<u32>,
) -> u32
    requires lock { (made_with lock.now).book.register ≡ register.now }
    requires ticket { ticket.register ≡ register.now }
    ensures { result ≡ ticket.item }
{
    let Held { mut value, pass } = lock.take(rt);
    let item = register.redeem(&mut value.book, ticket);
    lock.put(Held { value, pass });
    item
}

// How many of the items from 0 on came back as they were left.
fn leave_and_fetch<R: Wait>(rt: &R, register: &Register<u32>, lock: &KeyedLock<BookShelf>) -> u32
    requires { (made_with lock.now).book.register ≡ register.now }
{
    let mut fetched = 0u32;
    for item in 0..10_000 {
        let ticket = leave(rt, register, lock, item);
        if fetch(rt, register, lock, ticket) == item {
            fetched = fetched.wrapping_add(1);
        }
    }
    fetched
}

fn together<R: Threads + Wait + Sync>(
    rt: &R,
    register: &Register<u32>,
    lock: &KeyedLock<BookShelf>,
) -> (u32, u32)
    requires { (made_with lock.now).book.register ≡ register.now }
{
    join(
        rt,
        ||
            requires { (made_with lock.now).book.register ≡ register.now }
        { leave_and_fetch(rt, register, lock) },
        ||
            requires { (made_with lock.now).book.register ≡ register.now }
        { leave_and_fetch(rt, register, lock) },
    )
}

#[test]
fn two_threads_issue_and_redeem(rt: HostRuntime) -> Result<(), Fail> {
    let (register, book) = Register::new(rt.alloc())?;
    let lock = KeyedLock::new(rt.alloc(), BookShelf { book }).map_err(NoMemory::from)?;
    assert_eq!(rt; together(&rt, &register, &lock), (10_000, 10_000));
    Ok(())
}
