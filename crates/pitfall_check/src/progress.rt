// How far a search is with a task.
ghost use Rattle.std.specs.Prelude.{◌≡◌};
ghost use Rattle.pitfall_check.specs.inside.SearchRules.{is_unseen};

/// How far a depth-first search is with a task.
#[derive(Clone, Copy, PartialEq, Eq)]
pub enum Progress {
    /// It wasn't seen yet.
    Unseen,
    /// It is on the path.
    Open,
    /// It is finished, and so are the tasks that were found from it.
    Done,
}

impl Progress {
    /// Whether the task wasn't seen yet.
    pub fn is_unseen(self) -> bool
        ensures { result ≡ is_unseen self }
    {
        match self {
            Progress::Unseen => true,
            Progress::Open | Progress::Done => false,
        }
    }
}
