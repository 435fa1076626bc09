// Laws of the definitions, each the contract of a function that does nothing.
ghost use Rattle.std.specs.Prelude.{◌≡◌, ℕ, List};
ghost use Rattle.task_graph.specs.NetRows.{NetRows};
ghost use Rattle.task_graph.specs.Net.{IsNet};
ghost use Rattle.journal_rules.specs.declared.entry.Entry.{Entry};
ghost use Rattle.journal_rules.specs.ShapeLegal.{ShapeLegal, MayFollow};
ghost use Rattle.legal_run.specs.declared.verdict.Break.{Break};
ghost use Rattle.legal_run.specs.Refusal.{IsRefusal};

/// An entry is refused for one break at most, and after a legal journal for none where it may follow.
pub fn one_refusal_or_none()
    ensures one { (net : NetRows) (limit : ℕ) (journal : List Entry)
        (entry : Entry) (one other : Break) → IsRefusal net limit journal entry one →
        IsRefusal net limit journal entry other → one ≡ other }
    ensures none { (net : NetRows) (limit : ℕ) (journal : List Entry) (entry : Entry)
        (break : Break) → IsNet net → ShapeLegal net limit journal →
        MayFollow net limit journal entry → ¬ IsRefusal net limit journal entry break }
{}
