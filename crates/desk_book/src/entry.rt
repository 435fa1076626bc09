// What is asked of a desk, and what happened at it.

/// An ask: its number, who asked, of which graph a run is wanted, and in how many rounds.
#[derive(Clone, Copy, Debug, PartialEq, Eq)]
pub struct Ask {
    pub number: u64,
    pub caller: u32,
    pub graph: u32,
    pub times: u64,
}

/// What happened at a desk.
#[derive(Clone, Copy, Debug, PartialEq, Eq)]
pub enum DeskEntry {
    /// A caller asked.
    Asked(Ask),
    /// The ask with this number was taken, so that its rounds are run.
    Took(u64),
    /// The ask with this number ended, and whether with all of its rounds.
    Ended(u64, bool),
}
