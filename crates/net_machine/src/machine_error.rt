// Why a machine refuses an entry.
ghost use Rattle.std.specs.Prelude.{◌≡◌, Some};
ghost use Rattle.net_machine.specs.Machine.{break_of};

use legal_run::Break;

/// Why a machine refuses an entry. Where several hold, the first in this order is reported.
#[derive(Clone, Copy, Debug, PartialEq, Eq)]
pub enum MachineError {
    /// A task, an edge or a semaphore of that number isn't there.
    NoSuch,
    /// A release was dropped for want of a unit, and only such drops may follow.
    AfterStuck,
    /// The task has no unused release of that cause.
    NotReleased,
    /// The least semaphore that the task takes and that has no unit.
    NoUnit(u32),
    /// All the starts that the run may have are made.
    AtLimit,
    /// That place has no start, or its start is closed.
    NotOpen,
    /// The edges given don't fit the shape of the task, or only a nested task may end so.
    NotChosen,
    /// The least semaphore that the task puts and of which no unit is out.
    NothingOut(u32),
    /// A unit of that semaphore was out all along, or the task doesn't put it.
    NotOver,
    /// Nothing has faulted.
    NotHalted,
    /// Something runs or has faulted, the task doesn't take the semaphore, or it has a unit.
    NotStuck,
    /// An allocation failed.
    NoMemory,
}

impl From<Break> for MachineError {
    ghost use Rattle.std.specs.Prelude.{◌≡◌, Some};
    ghost use Rattle.net_machine.specs.Machine.{break_of};

    ghost from_gives = { λ of error. break_of error ≡ Some of };

    fn from(of: Break) -> Self {
        match of {
            Break::NoSuch => MachineError::NoSuch,
            Break::AfterStuck => MachineError::AfterStuck,
            Break::NotReleased => MachineError::NotReleased,
            Break::OverUnits(sem) => MachineError::NoUnit(sem),
            Break::OverLimit => MachineError::AtLimit,
            Break::NotOpen => MachineError::NotOpen,
            Break::NotChosen => MachineError::NotChosen,
            Break::NothingOut(sem) => MachineError::NothingOut(sem),
            Break::NotOver => MachineError::NotOver,
            Break::NotHalted => MachineError::NotHalted,
            Break::NotStuck => MachineError::NotStuck,
        }
    }
}
