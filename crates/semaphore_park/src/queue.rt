// Queues, which contracts see as the list of their items.
ghost use Rattle.std.specs.Prelude.{◌≡◌, ◌++◌, ◌∷◌, [], OnOk, OnErr, IfErr, drop, length, slice_get};

use outside_io::Back;
use std::alloc::Global;
use std::collections::VecDeque;
use std::marker::Model;

/// A queue.
#[derive(Drop)]
pub struct Queue<T> {
    items: VecDeque<T>,
}

impl<T> Model for Queue<T> {
    ghost use Rattle.std.specs.Prelude.{List};

    ghost Value = { List T };

    ghost view = { λ queue. queue.items.items };
}

impl<T> Queue<T> {
    /// The empty queue. It takes no memory.
    pub fn new(alloc: Global) -> Queue<T>
        ensures { result ≡ [] }
    {
        Queue {
            items: VecDeque::new(alloc),
        }
    }

    /// Puts an item at the end. If an allocation fails the queue is as it was, and the item is handed back.
    pub fn push_last(&mut self, item: T) -> Result<(), Back<T>>
        ensures ok { OnOk result (self.new ≡ self.old ++ item ∷ []) }
        ensures err { OnErr result (self.new ≡ self.old) }
        ensures back { IfErr result (λ back. back.item ≡ item) }
    {
        match self.items.push_back(item) {
            Ok(()) => Ok(()),
            Err(failed) => Err(Back { item: failed.value }),
        }
    }

    /// Puts an item in front. If an allocation fails the queue is as it was, and the item is handed back.
    pub fn push_first(&mut self, item: T) -> Result<(), Back<T>>
        ensures ok { OnOk result (self.new ≡ item ∷ self.old) }
        ensures err { OnErr result (self.new ≡ self.old) }
        ensures back { IfErr result (λ back. back.item ≡ item) }
    {
        match self.items.push_front(item) {
            Ok(()) => Ok(()),
            Err(failed) => Err(Back { item: failed.value }),
        }
    }

    /// Takes the first item off, or `None` where there is none.
    pub fn take_first(&mut self) -> Option<T>
        ensures first { result ≡ slice_get self.old 0 }
        ensures rest { self.new ≡ drop 1 self.old }
    {
        self.items.pop_front()
    }

    /// How many items there are.
    pub fn len(&self) -> usize
        ensures { result ≡ length self.now }
    {
        self.items.len()
    }
}
