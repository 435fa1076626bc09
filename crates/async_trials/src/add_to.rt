// Work of sums, and why it was not added.
use async_tasks::{AddError, AsyncWork};
use outside_io::{List, NoMemory};
use std::alloc::{AllocFailed, Global};
use std::sync::Arc;

/// A number to which the inputs are added. The sum is then turned so many times, which takes a while.
#[derive(Drop)]
pub struct AddTo {
    pub number: u64,
    pub turns: u32,
}

impl AsyncWork for AddTo {
    type V = u64;

    ghost answers = { λ work ins value. Unit {0} };

    fn run(&self, _alloc: Global, ins: &List<Arc<u64>>) -> Result<u64, NoMemory> {
        let mut sum = self.number;
        for input in ins {
            sum = sum.wrapping_add(**input);
        }
        Ok(turned(sum, self.turns))
    }
}

// A number that is turned so many times. A turn is one that a compiler can't put together with the next.
fn turned(number: u64, turns: u32) -> u64 {
    let mut turned = number;
    for _ in 0..turns {
        turned ^= turned << 13;
        turned ^= turned >> 7;
        turned ^= turned << 17;
    }
    turned
}

/// Why a number was not added.
#[derive(Clone, Copy, Debug, PartialEq, Eq)]
pub enum Refused {
    NoSuch(u32, u32),
    Full(u32),
    NoMemory,
}

impl From<AddError<AddTo>> for Refused {
    fn from(error: AddError<AddTo>) -> Self {
        match error {
            AddError::NoSuch { task, seen, .. } => Refused::NoSuch(task, seen),
            AddError::Full { seen, .. } => Refused::Full(seen),
            AddError::NoMemory { .. } => Refused::NoMemory,
        }
    }
}

impl From<NoMemory> for Refused {
    fn from(_: NoMemory) -> Self {
        Refused::NoMemory
    }
}

impl From<AllocFailed<AddTo>> for Refused {
    fn from(_: AllocFailed<AddTo>) -> Self {
        Refused::NoMemory
    }
}
