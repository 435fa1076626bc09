// What the definitions amount to.
ghost use Rattle.std.specs.Prelude.{◌≡◌, ◌≢◌, ℕ, List};
ghost use Rattle.std.specs.List.{AllByRecursion};
ghost use Rattle.journal_rules.specs.declared.entry.Entry.{Entry};
ghost use Rattle.journal_text.specs.declared.version.Version.{Version};
ghost use Rattle.journal_text.specs.JournalText.{HasLine, IsBadLine, IsJournalText, journal_text};

/// A text is that of one journal, in one version. This does nothing: its contract is the laws.
pub fn one_journal()
    ensures journal { (journal other : List Entry) (bytes : List ℕ) → IsJournalText journal bytes
        → IsJournalText other bytes → journal ≡ other }
    ensures version { (v w : Version) (journal other : List Entry)
        → journal_text v journal ≡ journal_text w other → v ≡ w }
    // Each journal whose numbers are in their ranges has a text, which is that of version 2.
    ensures text { (journal : List Entry) → AllByRecursion (HasLine Version.Two) journal
        → IsJournalText journal (journal_text Version.Two journal) }
{}

/// Bytes have one first bad line at most, and none where they are a text. This does nothing: its contract is the laws.
pub fn one_bad_line()
    ensures one { (bytes : List ℕ) (m n : ℕ) → IsBadLine bytes m → IsBadLine bytes n → m ≡ n }
    ensures text { (bytes : List ℕ) (n : ℕ) (journal : List Entry) → IsBadLine bytes n
        → ¬ IsJournalText journal bytes }
{}
