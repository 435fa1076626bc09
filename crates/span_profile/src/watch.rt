// Watchers.
ghost use Rattle.std.specs.Prelude.{◌≡◌, ◌++◌, ◌∷◌, ◌-◌, ◌^◌, [], ℕ, IfSome, List, Option, OnOk, OnErr, length, min, option_and_then, option_map, slice_get};
ghost use Rattle.journal_rules.specs.declared.span.Span.{Span};
ghost use Rattle.span_profile.specs.Watch.{one_more};

use journal_rules::Span;
use outside_io::NoMemory;

/// What is told each span that ends.
pub trait Watch: Drop {
    /// How many spans it was told. At the greatest u64 it stays there.
    ghost told: { Self → ℕ };

    /// The spans that it was told, or `None` where they are not specified.
    ghost seen: { Self → Option (List Span) };

    /// Where the spans are specified, the count is how many they are, or the greatest u64 where they are more.
    ghost counts_spans: { (watcher : Self)
        → IfSome (seen watcher) (λ spans. told watcher ≡ min (length spans) (2 ^ 64 - 1)) };

    /// Tells it a span. After an `Err` nothing has changed.
    fn span(&mut self, span: Span) -> Result<(), NoMemory>
        ensures count { OnOk result (told self.new ≡ one_more (told self.old)) }
        ensures list { OnOk result
            (seen self.new ≡ option_map (λ spans. spans ++ span ∷ []) (seen self.old)) }
        ensures err_count { OnErr result (told self.new ≡ told self.old) }
        ensures err_list { OnErr result (seen self.new ≡ seen self.old) };

    /// How many spans it was told.
    fn count(&self) -> u64
        ensures { result ≡ told self.now };

    /// The span at a place, or `None` where it doesn't tell its spans or has none there.
    fn get(&self, i: u64) -> Option<Span>
        ensures { result ≡ option_and_then (λ spans. slice_get spans i) (seen self.now) };
}
