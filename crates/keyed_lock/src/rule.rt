// The rule of a lock's table, and what its steps tell.
use crate::keyed::Keyed;
use atomic_table::{Play, TableRule};
use std::snapshot::Snapshot;

/// A value in the slot has the key of the value that the lock was made with. A seat knows that value.
pub struct HasKey;

impl<T: Keyed> TableRule<Option<T>, Snapshot<T>, Snapshot<T>> for HasKey {
    ghost use Rattle.keyed_lock.specs.inside.Rule.{KeepsLock};

    ghost holds = { λ first s. KeepsLock T.key first.value s.words s.homes };

    ghost first = { λ first. first };
}

/// A new seat, which holds nothing.
pub struct Enters;

impl<T: Keyed> Play<Option<T>, Snapshot<T>> for Enters {
    ghost use Rattle.std.specs.Prelude.{◌≡◌};

    ghost then = { λ s me n me'. me' ≡ me };
}

/// If the word was `FREE`, the seat holds the slot, and the value in it has the key.
pub struct Takes;

impl<T: Keyed> Play<Option<T>, Snapshot<T>> for Takes {
    ghost use Rattle.keyed_lock.specs.inside.Rule.{TakesIfFree};

    ghost then = { λ s me n me'. TakesIfFree T.key me n me' };
}

/// The slot is given back, and the seat holds nothing.
pub struct Gives;

impl<T: Keyed> Play<Option<T>, Snapshot<T>> for Gives {
    ghost use Rattle.std.specs.Prelude.{◌≡◌, []};

    ghost then = { λ s me n me'. me'.1 ≡ [] };
}
