// Laws of the definitions, each the contract of a function that does nothing.
ghost use Rattle.std.specs.Prelude.{◌≡◌, ◌↔◌, ◌≤◌, ◌++◌, ◌∷◌, [], ℕ, List, length, slice_get, IsTrue, IsSomeAnd};
ghost use Rattle.task_graph.specs.NetRows.{NetRows};
ghost use Rattle.task_graph.specs.Net.{is_weak};
ghost use Rattle.task_graph.specs.declared.net.EdgeRow.{EdgeRow};
ghost use Rattle.journal_rules.specs.declared.entry.Cause.TheVariants.{Source, Strong, Weak};
ghost use Rattle.journal_rules.specs.declared.entry.Entry.{Entry};
ghost use Rattle.journal_rules.specs.ReleaseRule.{IsReleased};
ghost use Rattle.journal_rules.specs.TimesLeft.{times_left};
ghost use Rattle.journal_rules.specs.Waiting.{waiting, waiting_after};

/// What waits at an edge after one entry more: the entry itself where it is an End that gave the edge, nothing where
/// it used the edge, and else what waited before.
pub fn what_waits_after_an_entry()
    ensures { (net : NetRows) (e : ℕ) (journal : List Entry) (entry : Entry)
        → waiting net e (journal ++ entry ∷ [])
        ≡ waiting_after net e (length journal) (waiting net e journal) entry }
{}

/// A release of a task can be used at least once more exactly where the rule of releases allows it now: as a source, by
/// its strong in-edges, or by a weak edge into it.
pub fn releases_left_are_allowed()
    ensures source { (net : NetRows) (journal : List Entry) (t : ℕ) →
        IsReleased net journal t Source ↔ (1 ≤ times_left net journal t Source) }
    ensures strong { (net : NetRows) (journal : List Entry) (t : ℕ) →
        IsReleased net journal t Strong ↔ (1 ≤ times_left net journal t Strong) }
    ensures weak { (net : NetRows) (journal : List Entry) (t e : ℕ) →
        IsTrue (is_weak net e) → IsSomeAnd (slice_get net.edges e) (λ (row : EdgeRow). row.to ≡ t) →
        (IsReleased net journal t (Weak e) ↔ (1 ≤ times_left net journal t (Weak e))) }
{}
