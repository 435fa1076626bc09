// Releases that may be taken up.
ghost use Rattle.std.specs.Prelude.{◌≡◌, [], None};

use crate::ready_kind::ReadyKind;
use join_tables::{Fresh, Turn};
use journal_rules::Cause;
use std::marker::Model;

/// A release that may be taken up.
pub struct ReadyTurn<V> {
    kind: ReadyKind<V>,
}

// Written out, so that it is proved here alone and not in each crate above.
impl<V: Drop> Drop for ReadyTurn<V> {
    fn drop(self) {
        let ReadyTurn { kind } = self;
        drop(kind);
    }
}

impl<V> Model for ReadyTurn<V> {
    ghost use Rattle.join_tables.specs.States.{FreshState};
    ghost use Rattle.semaphore_turns.specs.ReadyTurns.{IsUnheld, ready_as};

    ghost Value = { FreshState };

    ghost view = { λ ready. ready_as ready.kind };

    ghost invariant = { λ ready. IsUnheld ready.kind };
}

impl<V> ReadyTurn<V> {
    ghost use Rattle.semaphore_turns.specs.ReadyTurns.{IsUnheld, ready_as};
    ghost use Rattle.semaphore_turns.specs.WaitingTurns.{release_of};

    /// A new release.
    pub fn fresh(fresh: Fresh<V>) -> ReadyTurn<V>
        ensures { result ≡ fresh }
    {
        ReadyTurn {
            kind: ReadyKind::Fresh(fresh),
        }
    }

    /// One that was parked on a semaphore.
    pub fn woken(turn: Turn<V>, sem: u32) -> ReadyTurn<V>
        requires refused { turn.refused ≡ None }
        requires held { turn.held ≡ [] }
        ensures { result ≡ release_of turn }
    {
        ReadyTurn {
            kind: ReadyKind::Woken(turn, sem),
        }
    }

    /// Whether it is new or was parked.
    pub fn kind(&self) -> &ReadyKind<V>
        ensures is { ready_as result.now ≡ self.now }
        ensures unheld { IsUnheld result.now }
    {
        &self.kind
    }

    /// The same, to be taken up.
    pub fn into_kind(self) -> ReadyKind<V>
        ensures is { ready_as result ≡ self }
        ensures unheld { IsUnheld result }
    {
        let ReadyTurn { kind } = self;
        kind
    }
}

impl<V: Drop> ReadyTurn<V> {
    /// The task.
    pub fn task(&self) -> u32
        ensures { result ≡ self.now.task }
    {
        match &self.kind {
            ReadyKind::Fresh(fresh) => fresh.task(),
            ReadyKind::Woken(turn, _) => turn.task(),
        }
    }

    /// What released it.
    pub fn cause(&self) -> Cause
        ensures { result ≡ self.now.cause }
    {
        match &self.kind {
            ReadyKind::Fresh(fresh) => fresh.cause(),
            ReadyKind::Woken(turn, _) => turn.cause(),
        }
    }
}
