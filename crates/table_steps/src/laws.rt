// What the rule of a table says between any two steps, as the contract of a function that does nothing.
ghost use Rattle.std.specs.Prelude.{ℕ, List};
ghost use Rattle.atomic_table.specs.Table.{State};
ghost use Rattle.task_graph.specs.NetRows.{NetRows};
ghost use Rattle.join_words.specs.declared.ins.Given.{Given};
ghost use Rattle.table_steps.specs.declared.view.SeatView.{SeatView};
ghost use Rattle.table_steps.specs.inside.ValueAccounts.{KeepsTable};
ghost use Rattle.table_steps.specs.OneJournal.{AreOneJournal, drawn_count, seats_entries};

/// In each state that the rule of a table allows, the entries that its seats have are one journal, each once: as many
/// as the clock says, legal as far as the net decides, and each start finds what it may.
pub fn one_journal_at_every_step<V>()
    ensures { (net : NetRows) (limit : ℕ) (s : State (List (Given V)) (SeatView V))
        → KeepsTable net limit s → AreOneJournal net limit (drawn_count s) (seats_entries s) }
{}
