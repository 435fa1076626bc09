// `issue` and `redeem` at one register.
ghost use Rattle.std.specs.Prelude.{◌≡◌};

use super::{TURNS, nanos_each};
use std::alloc::{AllocError, Global};
use std::io;
use std::time::{Clock, Instant};
use tickets::{Book, Register};

fn issue_and_redeem(register: &Register<u32>, book: &mut Book<u32>, item: u32)
    requires { book.old.register ≡ register.now }
    ensures { book.new.register ≡ register.now }
{
    let ticket = register.issue(book, item);
    let _ = register.redeem(book, ticket);
}

fn issue_often(register: &Register<u32>, book: &mut Book<u32>)
    requires { book.old.register ≡ register.now }
{
    for item in 0..TURNS {
        issue_and_redeem(register, book, item);
    }
}

/// An `issue` with its `redeem`.
pub fn issues<R: Clock>(rt: &R, alloc: Global) -> io::Result<u64> {
    let Ok((register, mut book)) = Register::new(alloc) else {
        return Err(AllocError.into());
    };
    let start = Instant::now(rt)?;
    issue_often(&register, &mut book);
    nanos_each(rt, start)
}
