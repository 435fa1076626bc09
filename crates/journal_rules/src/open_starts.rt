// Which entries of a journal are open Starts, by their places, and how many.
ghost use Rattle.std.specs.Prelude.{◌≡◌, ◌↔◌, ◌++◌, ◌∷◌, [], Bool, true, false, List, length, IsTrue, IfOk, OnOk, OnErr, slice_set, slice_get, count_by, replicate, Some};

use outside_io::NoMemory;
use std::alloc::Global;
use std::marker::Model;

/// A flag for each place of a journal and perhaps for some to come: whether an open Start is there.
#[derive(Drop)]
pub struct OpenStarts {
    flags: Vec<bool>,
    count: usize,
}

impl Model for OpenStarts {
    ghost use Rattle.std.specs.Prelude.{◌≡◌, List, Bool, count_by};

    ghost Value = { List Bool };

    ghost view = { λ s. s.flags.items };

    ghost invariant = { λ s. s.count ≡ count_by (λ flag. flag) s.flags.items };
}

impl OpenStarts {
    /// Those of the empty journal, with room for so many entries.
    #[tactic(auto, using(crate::proofs::Flags::none_of_clear))]
    pub fn with_room(alloc: Global, room: usize) -> Result<OpenStarts, NoMemory>
        ensures { IfOk result (λ flags. flags ≡ replicate room false) }
    {
        Ok(OpenStarts {
            flags: vec![in alloc; false; room]?,
            count: 0,
        })
    }

    /// For how many entries there is room.
    pub fn room(&self) -> usize
        ensures { result ≡ length self.now }
    {
        self.flags.len()
    }

    /// Makes room for an entry more.
    pub fn add_room(&mut self) -> Result<(), NoMemory>
        ensures ok { OnOk result (self.new ≡ self.old ++ false ∷ []) }
        ensures err { OnErr result (self.new ≡ self.old) }
    {
        if self.flags.push(false).is_err() {
            return Err(NoMemory);
        }
        Ok(())
    }

    /// Opens a Start at a place.
    #[tactic(auto, using(crate::proofs::Flags::count_raised))]
    pub fn open(&mut self, place: usize)
        requires { slice_get self.old place ≡ Some false }
        ensures { self.new ≡ slice_set self.old place true }
    {
        self.flags[place] = true;
        self.count += 1;
    }

    /// Closes the open Start at a place.
    #[tactic(auto, using(crate::proofs::Flags::count_cleared, crate::proofs::Flags::count_set))]
    pub fn close(&mut self, place: usize)
        requires { slice_get self.old place ≡ Some true }
        ensures { self.new ≡ slice_set self.old place false }
    {
        self.flags[place] = false;
        self.count -= 1;
    }

    /// Whether there is an open Start at a place.
    pub fn is_open(&self, place: usize) -> bool
        ensures { IsTrue result ↔ (slice_get self.now place ≡ Some true) }
    {
        self.flags.get(place).copied() == Some(true)
    }

    /// Whether no Start is open.
    pub fn is_empty(&self) -> bool
        ensures { IsTrue result ↔ (count_by (λ flag. flag) self.now ≡ 0) }
    {
        self.count == 0
    }
}
