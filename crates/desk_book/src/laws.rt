// A law of histories.
ghost use Rattle.std.specs.Prelude.{ℕ, List};
ghost use Rattle.desk_book.specs.declared.entry.DeskEntry.{DeskEntry};
ghost use Rattle.desk_book.specs.Histories.{IsDeskHistory, TakesTurns};

/// In each right history the asks of one graph take turns: if one was taken, each earlier one has ended. So two of them
/// are never open at once, and they are taken in their order.
pub fn takes_turns()
    ensures { (graphs callers : ℕ) (history : List DeskEntry)
        → IsDeskHistory graphs callers history → TakesTurns history }
{}
